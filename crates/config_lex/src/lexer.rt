//! The tokens of a text.

ghost use Rattle.std.specs.Prelude.{◌≡◌, ◌==◌, ◌&&◌, ◌+◌, ◌-◌, ◌≤◌, ◌<◌, true, drop, take, length, slice_index, IfOk, IfSome, []};
ghost use Rattle.config_lex.specs.Bytes as parts;
ghost use Rattle.config_lex.specs.Lexemes as spec;

use crate::bytes::{
    begins_number, begins_with, closing, is_digit, is_letter, number_end, number_of, part_length,
    skip, word_end,
};
use crate::context::Context;
use crate::token::{Lexeme, Section, Token, Word};
use config_tree::{Comparison, Conjunction, Disjunction, Matching};
use plain_data::{Items, Text};
use std::alloc::{AllocError, Global};

/// The context before the first token.
const fn start() -> Context
    ensures { result ≡ spec.start }
{
    Context {
        in_condition: false,
        at_branch: false,
        at_operand: false,
    }
}

/// The context behind a token.
fn after_token(before: Context, token: &Token) -> Context
    ensures { result ≡ spec.after_token before token.now }
{
    let inside = before.in_condition;
    match token {
        Token::OpenBrace => before_branch(false),
        Token::CloseBrace => before_branch(inside),
        Token::Arrow => plain(false),
        Token::Word(Word::If) => before_operand(before.at_branch || inside),
        Token::Word(Word::Else) => before_branch(inside),
        Token::Word(Word::In) => before_operand(inside),
        Token::Word(Word::Conjunction(_)) => before_operand(inside),
        Token::Word(Word::Disjunction(_)) => before_operand(inside),
        Token::OpenParen => before_operand(inside),
        Token::Exclamation => before_operand(inside),
        Token::Comparison(_) => before_operand(inside),
        Token::Matching(_) => before_operand(inside),
        _ => plain(inside),
    }
}

fn plain(inside: bool) -> Context
    ensures { result ≡ spec.plain inside }
{
    Context {
        in_condition: inside,
        at_branch: false,
        at_operand: false,
    }
}

fn before_branch(inside: bool) -> Context
    ensures { result ≡ spec.before_branch inside }
{
    Context {
        in_condition: inside,
        at_branch: true,
        at_operand: false,
    }
}

fn before_operand(inside: bool) -> Context
    ensures { result ≡ spec.before_operand inside }
{
    Context {
        in_condition: inside,
        at_branch: false,
        at_operand: inside,
    }
}

/// A copy of the bytes from `from` on, whose first and last are ASCII.
fn cut_word(alloc: Global, text: &str, from: usize, len: usize) -> Result<Text, AllocError>
    requires some { 0 < len }
    requires within { from + len ≤ length text.now }
    requires front { slice_index text.now from < 128 }
    requires last { slice_index text.now (from + len - 1) < 128 }
    ensures { IfOk result (λ made. made ≡ take len (drop from text.now)) }
{
    Text::of(alloc, &text[from..from + len])
}

/// A copy of the bytes from `from` on, between two that are ASCII.
fn cut_between(alloc: Global, text: &str, from: usize, len: usize) -> Result<Text, AllocError>
    requires some { 0 < from }
    requires within { from + len < length text.now }
    requires front { slice_index text.now (from - 1) < 128 }
    requires behind { slice_index text.now (from + len) < 128 }
    ensures { IfOk result (λ made. made ≡ take len (drop from text.now)) }
{
    Text::of(alloc, &text[from..from + len])
}

/// A word by its spelling.
fn word_of(text: Text) -> Word
    ensures { result ≡ spec.word_of text }
{
    match text.as_str() {
        "if" => Word::If,
        "else" => Word::Else,
        "in" => Word::In,
        "not" => Word::Not,
        _ => joint_word(text),
    }
}

fn joint_word(text: Text) -> Word
    ensures { result ≡ spec.joint_word text }
{
    match text.as_str() {
        "and" => Word::Conjunction(Conjunction::And),
        "nand" => Word::Conjunction(Conjunction::Nand),
        "or" => Word::Disjunction(Disjunction::Or),
        "xor" => Word::Disjunction(Disjunction::Xor),
        _ => section_word(text),
    }
}

fn section_word(text: Text) -> Word
    ensures { result ≡ spec.section_word text }
{
    match text.as_str() {
        "input" => Word::Section(Section::Input),
        "filter" => Word::Section(Section::Filter),
        "output" => Word::Section(Section::Output),
        _ => Word::Other(text),
    }
}

fn word_token(text: Text) -> Token
    ensures { result ≡ spec.word_token text }
{
    if text.as_str().as_bytes().contains(&b'-') {
        Token::Dashed(text)
    } else {
        Token::Word(word_of(text))
    }
}

/// A token in front, with its length; none where the bytes begin none.
type FoundToken = Option<(Token, usize)>;

fn word_at(alloc: Global, inside: bool, text: &str, at: usize) -> Result<FoundToken, AllocError>
    requires within { at < length text.now }
    requires letter { parts.is_letter (slice_index text.now at) ≡ true }
    ensures gives { IfOk result (λ found. found ≡ spec.word_at inside (drop at text.now)) }
    ensures within { IfOk result (spec.Fits at (length text.now)) }
{
    let len = word_end(text.as_bytes(), at, !inside) - at;
    let word = cut_word(alloc, text, at, len)?;
    Ok(Some((word_token(word), len)))
}

fn number_at(alloc: Global, text: &str, at: usize) -> Result<FoundToken, AllocError>
    requires within { at < length text.now }
    requires number { parts.begins_number (drop at text.now) ≡ true }
    ensures gives { IfOk result (λ found. found ≡ spec.number_at (drop at text.now)) }
    ensures within { IfOk result (spec.Fits at (length text.now)) }
{
    let len = number_end(text.as_bytes(), at) - at;
    let spelling = cut_word(alloc, text, at, len)?;
    match number_of(spelling.as_str().as_bytes()) {
        Some(value) => Ok(Some((Token::Number(value, spelling), len))),
        None => Ok(None),
    }
}

fn quoted_at(alloc: Global, text: &str, from: usize, quote: u8) -> Result<FoundToken, AllocError>
    requires some { 0 < from }
    requires within { from ≤ length text.now }
    requires quote { slice_index text.now (from - 1) ≡ quote }
    requires ascii { quote < 128 }
    ensures gives { IfOk result (λ found. found ≡ spec.quoted_at quote (drop from text.now)) }
    ensures within { IfOk result (spec.Fits from (1 + length text.now)) }
{
    match closing(text.as_bytes(), from, quote) {
        Some(len) => {
            let content = cut_between(alloc, text, from, len)?;
            Ok(Some((Token::Quoted(content), len + 2)))
        }
        None => Ok(None),
    }
}

/// Whether a backslash stands at `at`, and a `/` behind it.
fn is_escape(bytes: &[u8], at: usize) -> bool
    requires { at < length bytes.now }
    ensures { result ≡ parts.is_escape bytes.now at }
{
    bytes[at] == b'\\' && begins_with(b'/', bytes, at + 1)
}

/// Without the backslash before each `/`.
fn unescaped(alloc: Global, text: &str) -> Result<Text, AllocError>
    ensures { IfOk result (λ made. made ≡ parts.unescaped text.now) }
{
    let bytes = text.as_bytes();
    let mut made = String::new(alloc);
    let mut from = 0;
    for at in 0..bytes.len() {
        if is_escape(bytes, at) {
            made.push_str(&text[from..at])?;
            from = at + 1;
        }
    }
    made.push_str(&text[from..])?;
    Ok(Text::from_string(made))
}

fn regexp_at(alloc: Global, text: &str, from: usize) -> Result<FoundToken, AllocError>
    requires some { 0 < from }
    requires within { from ≤ length text.now }
    requires slash { slice_index text.now (from - 1) ≡ 47 }
    ensures gives { IfOk result (λ found. found ≡ spec.regexp_at (drop from text.now)) }
    ensures within { IfOk result (spec.Fits from (1 + length text.now)) }
{
    match closing(text.as_bytes(), from, b'/') {
        Some(len) => {
            let content = cut_between(alloc, text, from, len)?;
            let pattern = unescaped(alloc, content.as_str())?;
            Ok(Some((Token::Regexp(pattern), len + 2)))
        }
        None => Ok(None),
    }
}

/// The parts of a selector, and the place behind it.
fn selector_at(alloc: Global, text: &str, from: usize) -> Result<FoundToken, AllocError>
    requires { from ≤ length text.now }
    ensures gives { IfOk result (λ found. found ≡ spec.selector_at (drop from text.now)) }
    ensures within { IfOk result (spec.Fits from (length text.now)) }
{
    let mut parts = Items::new(alloc);
    let mut at = from;
    let mut turns = text.len() - from;
    while turns > 0 {
        let Some(len) = part_length(text.as_bytes(), at) else {
            break;
        };
        parts.push(cut_between(alloc, text, at + 1, len)?)?;
        at = at + len + 2;
        turns -= 1;
    }
    if parts.is_empty() {
        return Ok(None);
    }
    Ok(Some((Token::Selector(parts), at - from)))
}

fn begins_literals(bytes: &[u8], at: usize) -> bool
    ensures { result ≡ spec.begins_literals (drop at bytes.now) }
{
    if at >= bytes.len() {
        return false;
    }
    let byte = bytes[at];
    byte == b'"' || byte == b'\'' || is_digit(byte) || byte == b'-' || byte == b']'
}

fn bracket_at(alloc: Global, operand: bool, text: &str, at: usize) -> Result<FoundToken, AllocError>
    requires { at < length text.now }
    ensures gives { IfOk result (λ found. found ≡ spec.bracket_at operand (drop at text.now)) }
    ensures within { IfOk result (spec.Fits at (length text.now)) }
{
    let bytes = text.as_bytes();
    if operand && !begins_literals(bytes, skip(bytes, at + 1)) {
        selector_at(alloc, text, at)
    } else {
        Ok(Some((Token::OpenBracket, 1)))
    }
}

fn double(first: u8, second: u8) -> Option<Token>
    ensures { result ≡ spec.double first second }
{
    if first == b'=' && second == b'>' {
        Some(Token::Arrow)
    } else if first == b'=' && second == b'=' {
        Some(Token::Comparison(Comparison::Equal))
    } else if first == b'!' && second == b'=' {
        Some(Token::Comparison(Comparison::Unequal))
    } else if first == b'<' && second == b'=' {
        Some(Token::Comparison(Comparison::AtMost))
    } else if first == b'>' && second == b'=' {
        Some(Token::Comparison(Comparison::AtLeast))
    } else if first == b'=' && second == b'~' {
        Some(Token::Matching(Matching::Matches))
    } else if first == b'!' && second == b'~' {
        Some(Token::Matching(Matching::MatchesNot))
    } else {
        None
    }
}

fn single(byte: u8) -> Option<Token>
    ensures { result ≡ spec.single byte }
{
    if byte == b'{' {
        Some(Token::OpenBrace)
    } else if byte == b'}' {
        Some(Token::CloseBrace)
    } else if byte == b']' {
        Some(Token::CloseBracket)
    } else if byte == b'(' {
        Some(Token::OpenParen)
    } else if byte == b')' {
        Some(Token::CloseParen)
    } else if byte == b',' {
        Some(Token::Comma)
    } else if byte == b'!' {
        Some(Token::Exclamation)
    } else if byte == b'<' {
        Some(Token::Comparison(Comparison::Less))
    } else if byte == b'>' {
        Some(Token::Comparison(Comparison::Greater))
    } else {
        None
    }
}

fn short(byte: u8) -> FoundToken
    ensures gives { result ≡ spec.longer None (spec.single byte) }
    ensures within { IfSome result (λ p. p.1 ≤ 1) }
{
    match single(byte) {
        Some(token) => Some((token, 1)),
        None => None,
    }
}

/// A sign in front of the bytes: the longer one, where one stands.
fn sign_at(bytes: &[u8]) -> FoundToken
    ensures gives { result ≡ spec.sign_at bytes.now }
    ensures within { IfSome result (λ p. p.1 ≤ length bytes.now) }
{
    match bytes {
        [] => None,
        [byte] => short(*byte),
        [byte, second, ..] => match double(*byte, *second) {
            Some(token) => Some((token, 2)),
            None => short(*byte),
        },
    }
}

/// The token in front of the text from `at` on, with its length; none where the bytes begin none.
#[tactic(auto, unfolding(crate::specs::Lexemes::token_at))]
fn token_at(
    alloc: Global,
    context: Context,
    text: &str,
    at: usize,
) -> Result<FoundToken, AllocError>
    requires { at < length text.now }
    ensures gives { IfOk result (λ found. found ≡ spec.token_at context (drop at text.now)) }
    ensures within { IfOk result (spec.Fits at (length text.now)) }
{
    let bytes = text.as_bytes();
    let byte = bytes[at];
    if is_letter(byte) {
        word_at(alloc, context.in_condition, text, at)
    } else if begins_number(bytes, at) {
        number_at(alloc, text, at)
    } else if byte == b'"' || byte == b'\'' {
        quoted_at(alloc, text, at + 1, byte)
    } else if byte == b'/' {
        regexp_at(alloc, text, at + 1)
    } else if byte == b'[' {
        bracket_at(alloc, context.at_operand, text, at)
    } else {
        Ok(sign_at(&bytes[at..]))
    }
}

/// The tokens of a text with their places, in the order of the text: the plain form of the definition.
/// Where bytes begin no token, the list ends with an unreadable one.
pub fn lexemes(alloc: Global, text: &str) -> Result<Items<Lexeme>, AllocError>
    ensures { IfOk result (λ found. found ≡ spec.lexemes text.now) }
{
    let bytes = text.as_bytes();
    let mut found = Items::new(alloc);
    let mut at = 0;
    let mut context = start();
    let mut turns = bytes.len();
    while turns > 0 {
        turns -= 1;
        let place = skip(bytes, at);
        if place == bytes.len() {
            break;
        }
        let Some((token, len)) = token_at(alloc, context, text, place)? else {
            found.push(Lexeme {
                place,
                token: Token::Unreadable,
            })?;
            break;
        };
        context = after_token(context, &token);
        found.push(Lexeme { place, token })?;
        at = place + len;
    }
    Ok(found)
}
