// A reader of JSON that is written compactly: no blanks between its lexemes, no escapes in its strings, numbers of digits alone.
// At anything else it gives up, which says nothing of the text.
ghost use Rattle.std.specs.Prelude.{◌≡◌, ◌≤◌, ◌<◌, ◌+◌, ◌∷◌, IfOk, MatchOption, None, Some, drop, length, option_map, slice_index};
ghost use Rattle.std.specs.List.{prefix_len};
ghost use Rattle.std.specs.Char.{is_ascii_digit};
ghost use Rattle.json.specs.Json.{after_end_array, read_key};
ghost use Rattle.json.specs.Lex.{tokens};
ghost use Rattle.json.specs.Reads.{token_of, Yields};
ghost use Rattle.json.specs.Run.{is_plain};
ghost use Rattle.json.specs.Token as spec;
ghost use Rattle.bulk_replies.specs.Compact.{Begins, Follows, GoesOn, Lexes, IsLiteral, begins_at, closes_at, left_at};

use crate::passing::passed;
use crate::plain::plain_end;
use crate::tokens::{PassedToken, Passes, Tokens};
use json::{Invalid, Token};
use std::marker::Model;

/// What stands in front: nothing yet or what opens or a colon, a whole value, or a comma.
#[derive(Clone, Copy)]
pub(crate) enum SeparatorState {
    Fresh,
    AfterValue,
    AfterComma,
}

#[derive(Clone, Copy)]
pub(crate) enum LiteralName {
    True,
    False,
    Null,
    Other,
}

/// Where a reader stands.
#[derive(Clone, Copy)]
pub(crate) struct ReaderState {
    at: usize,
    place: SeparatorState,
}

/// Reads tokens. A clause sees those that are still to come.
#[derive(Drop)]
pub(crate) struct Compact<'a> {
    text: &'a str,
    spot: ReaderState,
}

impl<'a> Model for Compact<'a> {
    ghost use Rattle.std.specs.Prelude.{◌≤◌, List, length};
    ghost use Rattle.json.specs.Token.{Token as SpecToken, tokens_code};
    ghost use Rattle.bulk_replies.specs.Compact.{left_at};

    ghost Value = { List SpecToken };

    ghost coded = { tokens_code };

    ghost view = { λ a. left_at a.text.now a.spot };

    ghost invariant = { λ a. a.spot.at ≤ length a.text.now };
}

// Where the text goes on behind a value.
#[inline(always)]
fn behind(text: &str, at: usize) -> Result<ReaderState, Invalid>
    requires { at ≤ length text.now }
    ensures { IfOk result (GoesOn text.now at) }
{
    let bytes = text.as_bytes();
    if at == bytes.len() {
        return Err(Invalid);
    }
    match bytes[at] {
        b',' => Ok(ReaderState {
            at: at + 1,
            place: SeparatorState::AfterComma,
        }),
        b'}' | b']' => Ok(ReaderState {
            at,
            place: SeparatorState::AfterValue,
        }),
        _ => Err(Invalid),
    }
}

// Where the text goes on behind a bracket that closes.
#[inline(always)]
fn behind_close(text: &str, at: usize) -> ReaderState
    requires { at ≤ length text.now }
    ensures { Follows text.now at result }
{
    let bytes = text.as_bytes();
    if at < bytes.len() && bytes[at] == b',' {
        ReaderState {
            at: at + 1,
            place: SeparatorState::AfterComma,
        }
    } else {
        ReaderState {
            at,
            place: SeparatorState::AfterValue,
        }
    }
}

// The end of the digits from there on.
#[inline(always)]
fn digits_end(bytes: &[u8], from: usize) -> usize
    requires { from ≤ length bytes.now }
    ensures value { result ≡ from + prefix_len is_ascii_digit (drop from bytes.now) }
    ensures bound { result ≤ length bytes.now }
{
    let mut i = from;
    while i < bytes.len() && bytes[i].is_ascii_digit() {
        i += 1;
    }
    i
}

// The string whose quote stands there, and where it ends.
#[inline(always)]
fn string<'a>(text: &'a str, at: usize) -> Result<(&'a str, usize), Invalid>
    requires within { at < length text.now }
    requires quote { slice_index text.now at ≡ 34 }
    ensures { IfOk result (λ r. Lexes text.now at (spec.string r.0.now) r.1) }
{
    let bytes = text.as_bytes();
    let start = at + 1;
    let stop = plain_end(bytes, start);
    if stop == bytes.len() || bytes[stop] != b'"' {
        return Err(Invalid);
    }
    Ok((&text[start..stop], stop + 1))
}

// The number whose first digit stands there.
#[inline(always)]
fn number<'a>(text: &'a str, at: usize) -> Result<(Token<'a>, ReaderState), Invalid>
    requires within { at < length text.now }
    requires digit { (48 ≤ slice_index text.now at) × (slice_index text.now at ≤ 57) }
    ensures { IfOk result (λ r. Begins text.now at (token_of r.0) r.1) }
{
    let bytes = text.as_bytes();
    let end = if bytes[at] == b'0' {
        at + 1
    } else {
        digits_end(bytes, at + 1)
    };
    let next = behind(text, end)?;
    Ok((Token::Number(&text[at..end]), next))
}

// Which literal begins there.
#[inline(never)]
fn which_literal(bytes: &[u8], at: usize) -> LiteralName
    requires { at < length bytes.now }
    ensures { IsLiteral bytes.now at result }
{
    let rest = &bytes[at..];
    if rest.starts_with(b"true") {
        return LiteralName::True;
    }
    if rest.starts_with(b"false") {
        return LiteralName::False;
    }
    if rest.starts_with(b"null") {
        return LiteralName::Null;
    }
    LiteralName::Other
}

// The literal that begins there.
#[inline(always)]
fn literal_token<'a>(text: &'a str, at: usize) -> Result<(Token<'a>, ReaderState), Invalid>
    requires { at < length text.now }
    ensures { IfOk result (λ r. Begins text.now at (token_of r.0) r.1) }
{
    match which_literal(text.as_bytes(), at) {
        LiteralName::True => Ok((Token::Bool(true), behind(text, at + 4)?)),
        LiteralName::False => Ok((Token::Bool(false), behind(text, at + 5)?)),
        LiteralName::Null => Ok((Token::Null, behind(text, at + 4)?)),
        LiteralName::Other => Err(Invalid),
    }
}

// The string or the key whose quote stands there.
#[inline(always)]
fn key_or_string<'a>(text: &'a str, at: usize) -> Result<(Token<'a>, ReaderState), Invalid>
    requires within { at < length text.now }
    requires quote { slice_index text.now at ≡ 34 }
    ensures { IfOk result (λ r. Begins text.now at (token_of r.0) r.1) }
{
    let (content, end) = string(text, at)?;
    let bytes = text.as_bytes();
    if end < bytes.len() && bytes[end] == b':' {
        let spot = ReaderState {
            at: end + 1,
            place: SeparatorState::Fresh,
        };
        return Ok((Token::Key(content), spot));
    }
    Ok((Token::String(content), behind(text, end)?))
}

// The token that begins there, where a value or a key may begin.
#[inline(always)]
fn begin<'a>(text: &'a str, at: usize) -> Result<(Token<'a>, ReaderState), Invalid>
    requires { at < length text.now }
    ensures { IfOk result (λ r. Begins text.now at (token_of r.0) r.1) }
{
    match text.as_bytes()[at] {
        b'"' => key_or_string(text, at),
        b'0'..=b'9' => number(text, at),
        b'{' => {
            let spot = ReaderState {
                at: at + 1,
                place: SeparatorState::Fresh,
            };
            Ok((Token::BeginObject, spot))
        }
        b'[' => {
            let spot = ReaderState {
                at: at + 1,
                place: SeparatorState::Fresh,
            };
            Ok((Token::BeginArray, spot))
        }
        _ => literal_token(text, at),
    }
}

// The next token, and where it ends.
#[inline(always)]
fn read<'a>(text: &'a str, spot: ReaderState) -> Result<(Option<Token<'a>>, ReaderState), Invalid>
    requires { spot.at ≤ length text.now }
    ensures within { IfOk result (λ r. r.1.at ≤ length text.now) }
    ensures gives { IfOk result (λ r. Yields (left_at text.now spot) r.0 (left_at text.now r.1)) }
{
    let bytes = text.as_bytes();
    if spot.at == bytes.len() {
        return if spot.place.closes() {
            Ok((None, spot))
        } else {
            Err(Invalid)
        };
    }
    let c = bytes[spot.at];
    if (c == b'}') | (c == b']') {
        if !spot.place.closes() {
            return Err(Invalid);
        }
        let token = if c == b'}' {
            Token::EndObject
        } else {
            Token::EndArray
        };
        return Ok((Some(token), behind_close(text, spot.at + 1)));
    }
    if !spot.place.begins() {
        return Err(Invalid);
    }
    let (token, next) = begin(text, spot.at)?;
    Ok((Some(token), next))
}

// The next key, or None at the brace that closes an object, and where it ends.
#[inline(always)]
fn read_key<'a>(text: &'a str, spot: ReaderState) -> Result<(Option<&'a str>, ReaderState), Invalid>
    requires { spot.at ≤ length text.now }
    ensures within { IfOk result (λ r. r.1.at ≤ length text.now) }
    ensures gives { IfOk result (λ r. read_key (left_at text.now spot)
        ≡ Some (option_map (λ s. s.now) r.0, left_at text.now r.1)) }
{
    let bytes = text.as_bytes();
    if spot.at == bytes.len() {
        return Err(Invalid);
    }
    let c = bytes[spot.at];
    if c == b'"' && spot.place.begins() {
        let (key, end) = string(text, spot.at)?;
        if end == bytes.len() || bytes[end] != b':' {
            return Err(Invalid);
        }
        let next = ReaderState {
            at: end + 1,
            place: SeparatorState::Fresh,
        };
        return Ok((Some(key), next));
    }
    if c == b'}' && spot.place.closes() {
        return Ok((None, behind_close(text, spot.at + 1)));
    }
    Err(Invalid)
}

// Where the text goes on behind the bracket that closes an array, if it is next. None where another token is.
#[inline(always)]
fn end_array(text: &str, spot: ReaderState) -> Result<Option<ReaderState>, Invalid>
    requires { spot.at ≤ length text.now }
    ensures { IfOk result (λ r. MatchOption r (after_end_array (left_at text.now spot) ≡ None)
        (λ next. (next.at ≤ length text.now)
        × (after_end_array (left_at text.now spot) ≡ Some (left_at text.now next)))) }
{
    let bytes = text.as_bytes();
    if spot.at == bytes.len() {
        return Err(Invalid);
    }
    let c = bytes[spot.at];
    if c == b']' && spot.place.closes() {
        return Ok(Some(behind_close(text, spot.at + 1)));
    }
    if c > b' ' && c != b']' && spot.place.begins() {
        return Ok(None);
    }
    Err(Invalid)
}

impl SeparatorState {
    // A value or a key may begin there.
    #[inline(always)]
    fn begins(self) -> bool
        ensures { result ≡ begins_at self }
    {
        matches!(self, SeparatorState::Fresh | SeparatorState::AfterComma)
    }

    // A bracket may close there.
    #[inline(always)]
    fn closes(self) -> bool
        ensures { result ≡ closes_at self }
    {
        matches!(self, SeparatorState::Fresh | SeparatorState::AfterValue)
    }
}

impl<'a> Compact<'a> {
    /// The tokens of a text.
    #[inline(always)]
    pub(crate) fn new(text: &'a str) -> Compact<'a>
        ensures { result ≡ tokens text.now }
    {
        Compact {
            text,
            spot: ReaderState {
                at: 0,
                place: SeparatorState::Fresh,
            },
        }
    }
}

impl<'a> Passes for Compact<'a> {
    ghost left = { λ ts. ts };

    ghost sure = { ⊥ };

    #[inline(always)]
    fn pass_token(&mut self) -> Result<PassedToken, Invalid> {
        let (token, spot) = read(self.text, self.spot)?;
        self.spot = spot;
        passed(token)
    }

    #[inline(always)]
    fn pass_key(&mut self) -> Result<bool, Invalid> {
        let (key, spot) = read_key(self.text, self.spot)?;
        self.spot = spot;
        Ok(key.is_some())
    }

    #[inline(always)]
    fn take_end_array(&mut self) -> Result<bool, Invalid> {
        match end_array(self.text, self.spot)? {
            Some(spot) => {
                self.spot = spot;
                Ok(true)
            }
            None => Ok(false),
        }
    }
}

impl<'a> Tokens<'a> for Compact<'a> {
    #[inline(always)]
    fn next(&mut self) -> Result<Option<Token<'a>>, Invalid> {
        let (token, spot) = read(self.text, self.spot)?;
        self.spot = spot;
        Ok(token)
    }

    #[inline(always)]
    fn next_key(&mut self) -> Result<Option<&'a str>, Invalid> {
        let (key, spot) = read_key(self.text, self.spot)?;
        self.spot = spot;
        Ok(key)
    }
}
