//! The tokens of a configuration's text.

use config_tree::{Comparison, Conjunction, Disjunction, Matching};
use event_tree::Number;
use plain_data::{Items, Text};

/// A token.
pub enum Token {
    /// A word without a dash: a bareword.
    Word(Word),
    /// A word with a dash, which can only be a name.
    Dashed(Text),
    /// What stands between two quotes of one kind, as written.
    Quoted(Text),
    /// A number with its spelling.
    Number(Number, Text),
    /// What stands between two `/`, without the backslash before a `/`.
    Regexp(Text),
    /// The parts of a selector, as `a` and `b` of `[a][b]`.
    Selector(Items<Text>),
    /// `{`
    OpenBrace,
    /// `}`
    CloseBrace,
    /// `[` of an array or of a list of literals.
    OpenBracket,
    /// `]`
    CloseBracket,
    /// `(`
    OpenParen,
    /// `)`
    CloseParen,
    /// `,`
    Comma,
    /// `=>`
    Arrow,
    /// `!`
    Exclamation,
    Comparison(Comparison),
    Matching(Matching),
    /// Bytes that begin no token.
    Unreadable,
}

// The drops of tokens and words are written out, so that each is one call where an error is handed on.
impl Drop for Token {
    fn drop(self) {
        match self {
            Token::Word(_word) => {}
            Token::Dashed(_text) | Token::Quoted(_text) | Token::Regexp(_text) => {}
            Token::Number(_number, _spelling) => {}
            Token::Selector(_parts) => {}
            Token::OpenBrace | Token::CloseBrace | Token::OpenBracket | Token::CloseBracket => {}
            Token::OpenParen | Token::CloseParen => {}
            Token::Comma | Token::Arrow | Token::Exclamation => {}
            Token::Comparison(_) | Token::Matching(_) | Token::Unreadable => {}
        }
    }
}

/// A word without a dash. Those with a meaning of their own are told apart.
pub enum Word {
    If,
    Else,
    In,
    Not,
    Conjunction(Conjunction),
    Disjunction(Disjunction),
    Section(Section),
    Other(Text),
}

impl Drop for Word {
    fn drop(self) {
        match self {
            Word::Other(_text) => {}
            Word::If | Word::Else | Word::In | Word::Not => {}
            Word::Conjunction(_) | Word::Disjunction(_) | Word::Section(_) => {}
        }
    }
}

/// The kinds of section.
#[derive(Clone, Copy, Debug, PartialEq, Eq)]
pub enum Section {
    Input,
    Filter,
    Output,
}

/// A token with its place in the text.
#[derive(Drop)]
pub struct Lexeme {
    /// The place of the token's first byte.
    pub place: usize,
    pub token: Token,
}
