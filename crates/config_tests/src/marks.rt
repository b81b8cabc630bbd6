// The tokens of a text as marks with their places.
ghost use Rattle.std.specs.Prelude.{◌≡◌};
ghost use Rattle.config_tests.specs.Marks as spec;

use config_lex::{Token, lexemes};
use std::alloc::{AllocError, Global};

/// A letter for each kind of token.
fn mark(token: &Token) -> char
    ensures { result ≡ spec.mark token.now }
{
    match token {
        Token::Word(_) => 'w',
        Token::Dashed(_) => 'd',
        Token::Quoted(_) => 'q',
        Token::Number(_, _) => 'n',
        Token::Regexp(_) => 'r',
        Token::Selector(_) => 's',
        Token::OpenBrace => '{',
        Token::CloseBrace => '}',
        Token::OpenBracket => '[',
        Token::CloseBracket => ']',
        Token::OpenParen => '(',
        Token::CloseParen => ')',
        Token::Comma => ',',
        Token::Arrow => '>',
        Token::Exclamation => '!',
        Token::Comparison(_) => 'c',
        Token::Matching(_) => 'm',
        Token::Unreadable => '?',
    }
}

/// The marks of the text's tokens with their places, separated by blanks.
pub fn marks_of(alloc: Global, text: &str) -> Result<String, AllocError> {
    let found = lexemes(alloc, text)?;
    let mut marks = String::new(alloc);
    let mut between = "";
    for lexeme in found.as_slice() {
        write!(marks, "{between}{}{}", mark(&lexeme.token), lexeme.place)?;
        between = " ";
    }
    Ok(marks)
}
