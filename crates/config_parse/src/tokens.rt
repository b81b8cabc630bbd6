//! What each reader of tokens begins with. It reads lexemes, of which contracts see the tokens alone.

ghost use Rattle.std.specs.Prelude.{◌≡◌, [], length, suc, MatchOption, MatchResult};
ghost use Rattle.config_parse.specs.Gives.{IsFront, IsEarlyEnd, IsTooDeep};
ghost use Rattle.config_parse.specs.Read as spec;
ghost use Rattle.config_parse.specs.Seen.{tokens_of};
ghost use Rattle.config_parse.specs.declared.error.ReadError.TheVariants as errors;

use crate::error::ReadError;
use config_lex::{Lexeme, Token, Word};

/// The first token, and what is behind it.
#[tactic(auto, unfolding(crate::specs::Seen::tokens_of))]
pub fn first(found: &[Lexeme]) -> Option<(&Token, &[Lexeme])>
    ensures { MatchOption result (tokens_of found.now ≡ []) (IsFront found.now) }
{
    match found {
        [] => None,
        [lexeme, rest @ ..] => Some((&lexeme.token, rest)),
    }
}

/// The fault that the first token is, or the end where there is none.
#[tactic(auto, unfolding(crate::specs::Seen::tokens_of))]
pub fn refuse(found: &[Lexeme]) -> ReadError
    ensures { result ≡ errors.Syntax (length (tokens_of found.now)) }
{
    ReadError::Syntax(found.len())
}

/// The fault that the first token opens a level too many.
#[tactic(auto, unfolding(crate::specs::Seen::tokens_of))]
pub fn too_deep(found: &[Lexeme]) -> ReadError
    ensures { result ≡ errors.Deep (length (tokens_of found.now)) }
{
    ReadError::Deep(found.len())
}

/// The first token, and what is behind it; the end is a fault.
pub fn next(found: &[Lexeme]) -> Result<(&Token, &[Lexeme]), ReadError>
    ensures { MatchResult result (IsFront found.now) (IsEarlyEnd found.now) }
{
    match first(found) {
        Some(front) => Ok(front),
        None => Err(refuse(found)),
    }
}

/// The number of levels that are left in the one that the first token opens, where there is room for it.
pub fn below(depth: usize, found: &[Lexeme]) -> Result<usize, ReadError>
    ensures { MatchResult result (λ d. depth ≡ suc d) (IsTooDeep depth found.now) }
{
    if depth == 0 {
        return Err(too_deep(found));
    }
    Ok(depth - 1)
}

/// Whether a token is the word `if`.
pub fn is_if(token: &Token) -> bool
    ensures { result ≡ spec.is_if token.now }
{
    match token {
        Token::Word(Word::If) => true,
        _ => false,
    }
}
