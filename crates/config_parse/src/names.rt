//! What a token may stand for.

ghost use Rattle.std.specs.Prelude.{◌≡◌, IfOk};
ghost use Rattle.config_parse.specs.Words as words;
ghost use Rattle.config_lex.specs.Spelling as texts;
ghost use Rattle.config_tree.specs.Joints as joints;
ghost use Rattle.std.specs.Option.{option_map};
ghost use Rattle.config_parse.specs.Gives.{Finds};
ghost use Rattle.config_parse.specs.Tables.{value_of};

use crate::joining::ReadValue;
use config_lex::{Section, Token, Word};
use config_tree::{Condition, Conjunction, Disjunction, Literal, MatchPattern, Operand};
use event_tree::Path;
use plain_data::{Boxed, Text};
use std::alloc::{AllocError, Global};

/// How a word is written.
pub fn spelling(word: &Word) -> &str
    ensures { result.now ≡ texts.spelling word.now }
{
    match word {
        Word::If => "if",
        Word::Else => "else",
        Word::In => "in",
        Word::Not => "not",
        Word::Conjunction(Conjunction::And) => "and",
        Word::Conjunction(Conjunction::Nand) => "nand",
        Word::Disjunction(Disjunction::Or) => "or",
        Word::Disjunction(Disjunction::Xor) => "xor",
        Word::Section(Section::Input) => "input",
        Word::Section(Section::Filter) => "filter",
        Word::Section(Section::Output) => "output",
        Word::Other(text) => text.as_str(),
    }
}

/// The name of a setting.
pub fn setting_name(token: &Token) -> Option<&str>
    ensures { Finds result (words.setting_name token.now) }
{
    match token {
        Token::Quoted(text) | Token::Dashed(text) => Some(text.as_str()),
        Token::Word(word) => Some(spelling(word)),
        _ => None,
    }
}

/// The name of a plugin.
pub fn plugin_name(token: &Token) -> Option<&str>
    ensures { Finds result (words.plugin_name token.now) }
{
    match token {
        Token::Word(Word::If) | Token::Word(Word::Else) => None,
        other => setting_name(other),
    }
}

/// The key of a hash.
pub fn key(token: &Token) -> Option<&str>
    ensures { Finds result (words.key token.now) }
{
    match token {
        Token::Quoted(text) | Token::Number(_, text) => Some(text.as_str()),
        Token::Word(word) => Some(spelling(word)),
        _ => None,
    }
}

/// A value that is one token, but for a bareword.
pub fn scalar(token: &Token) -> Result<Option<ReadValue>, AllocError>
    ensures { IfOk result (λ found. option_map value_of found ≡ words.scalar token.now) }
{
    match token {
        Token::Quoted(text) => Ok(Some(ReadValue::Text(text.copy()?))),
        Token::Number(number, _) => Ok(Some(ReadValue::Number(*number))),
        _ => Ok(None),
    }
}

/// A member of a list in a condition.
pub fn literal(token: &Token) -> Result<Option<Literal>, AllocError>
    ensures { IfOk result (λ found. found ≡ words.literal token.now) }
{
    match token {
        Token::Quoted(text) => Ok(Some(Literal::Text(text.copy()?))),
        Token::Number(number, _) => Ok(Some(Literal::Number(*number))),
        _ => Ok(None),
    }
}

/// An operand that is one token.
pub fn operand_token(token: &Token) -> Result<Option<Operand>, AllocError>
    ensures { IfOk result (λ found. found ≡ words.operand_token token.now) }
{
    match token {
        Token::Selector(parts) => match parts.as_slice() {
            [] => Ok(None),
            [_, ..] => Ok(Some(Operand::Field(Path::of_parts(parts.clone()?)))),
        },
        Token::Quoted(text) => Ok(Some(Operand::Text(text.copy()?))),
        Token::Number(number, _) => Ok(Some(Operand::Number(*number))),
        _ => Ok(None),
    }
}

/// The right side of `=~` and `!~`.
pub fn pattern(token: &Token) -> Result<Option<MatchPattern>, AllocError>
    ensures { IfOk result (λ found. found ≡ words.pattern token.now) }
{
    match token {
        Token::Regexp(text) => Ok(Some(MatchPattern::Regexp(text.copy()?))),
        Token::Quoted(text) => Ok(Some(MatchPattern::Text(text.copy()?))),
        _ => Ok(None),
    }
}

/// Two conditions with a joint between them that binds more tightly.
pub fn conjoined(
    alloc: Global,
    joint: Conjunction,
    left: Boxed<Condition>,
    right: Boxed<Condition>,
) -> Result<Boxed<Condition>, AllocError>
    ensures { IfOk result (λ made. made ≡ joints.conjoined joint left right) }
{
    Boxed::new(
        alloc,
        Condition::conjoined(alloc, joint, left.into_inner(), right.into_inner())?,
    )
}

/// Two conditions with a joint between them that binds less tightly.
pub fn disjoined(
    alloc: Global,
    joint: Disjunction,
    left: Boxed<Condition>,
    right: Boxed<Condition>,
) -> Result<Boxed<Condition>, AllocError>
    ensures { IfOk result (λ made. made ≡ joints.disjoined joint left right) }
{
    Boxed::new(
        alloc,
        Condition::disjoined(alloc, joint, left.into_inner(), right.into_inner())?,
    )
}
