// Values of a body, each read or passed over as `serde_json` reads it, with no tree made of it.
ghost use Rattle.std.specs.Prelude.{◌≡◌, ◌<◌, ◌==◌, ◌∷◌, ◌+◌, IfSome, IsTrue, MatchOption, List, MatchResult, Some, false, length, option_and_then, option_map, slice_index, true, ℕ, ⊤};
ghost use Rattle.json.specs.Reads.{Yields};
ghost use Rattle.json.specs.Token.{Token as SpecToken, begin_array, begin_object};
ghost use Rattle.serde_json.specs.Data.{Data, Items, Members, array, object, unsigned};
ghost use Rattle.serde_json.specs.Find.{as_number, as_str, as_u64};
ghost use Rattle.serde_json.specs.Read.{float_of, number_from, number_of};
ghost use Rattle.bulk_replies.specs.Taken.{Reads, Refuses, Takes};
ghost use Rattle.bulk_replies.specs.Passed.{IsPassed};
ghost use Rattle.bulk_replies.specs.Plain.{IsPlain, Opened};

use crate::tokens::{PassedToken, Passes, Tokens};
use fast_float::Numeral;
use json::{Invalid, Token};

/// What is to be opened, where it stands next.
#[derive(Clone, Copy)]
pub(crate) enum Expect {
    Object,
    List,
    Nothing,
}

/// A value that was passed whole.
#[derive(Clone, Copy)]
pub(crate) enum Scalar<'a> {
    Text(&'a str),
    /// A number: the whole number of 64 bits that it is, if it is one.
    Number(Option<u64>),
    Other,
}

/// Takes the value that stands next, or alone the bracket that opens it where that is wanted: then it is None.
#[inline(always)]
pub(crate) fn take<'a, T: Tokens<'a>>(
    reader: &mut T,
    wanted: Expect,
    depth: usize,
) -> Result<Option<Scalar<'a>>, Invalid>
    ensures { MatchResult result (λ plain. MatchOption plain
        (Opened wanted (T.left reader.old) (T.left reader.new))
        (λ p. (d : Data) × Reads depth (T.left reader.old) d (T.left reader.new)
        × IsPlain wanted d p))
        (λ _. T.sure → Refuses depth (T.left reader.old)) }
{
    let token = reader.next()?.ok_or(Invalid)?;
    match token {
        Token::String(text) => Ok(Some(Scalar::Text(text))),
        Token::Number(text) => match whole_number(text) {
            Some(number) => Ok(Some(Scalar::Number(number))),
            None => Err(Invalid),
        },
        Token::Bool(_) => Ok(Some(Scalar::Other)),
        Token::Null => Ok(Some(Scalar::Other)),
        Token::EndObject | Token::EndArray | Token::Key(_) | Token::Bad => Err(Invalid),
        Token::BeginArray => {
            if let Expect::List = wanted {
                return Ok(None);
            }
            if depth == 0 {
                return Err(Invalid);
            }
            pass_items(reader, depth - 1)?;
            Ok(Some(Scalar::Other))
        }
        Token::BeginObject => {
            if let Expect::Object = wanted {
                return Ok(None);
            }
            if depth == 0 {
                return Err(Invalid);
            }
            pass_members(reader, depth - 1)?;
            Ok(Some(Scalar::Other))
        }
    }
}

/// The text that stands next. None where another value does, which is passed.
pub(crate) fn take_text<'a, T: Tokens<'a>>(
    reader: &mut T,
    depth: usize,
) -> Result<Option<&'a str>, Invalid>
    ensures { Takes T.sure depth (T.left reader.old) (T.left reader.new)
        (λ d text. option_map (λ s. s.now) text ≡ as_str d) result }
{
    match take(reader, Expect::Nothing, depth)?.ok_or(Invalid)? {
        Scalar::Text(text) => Ok(Some(text)),
        Scalar::Number(_) | Scalar::Other => Ok(None),
    }
}

/// The whole number that stands next. None where another value does, which is passed.
pub(crate) fn take_number<'a, T: Tokens<'a>>(
    reader: &mut T,
    depth: usize,
) -> Result<Option<u64>, Invalid>
    ensures { Takes T.sure depth (T.left reader.old) (T.left reader.new)
        (λ d number. number ≡ option_and_then as_u64 (as_number d)) result }
{
    match take(reader, Expect::Nothing, depth)?.ok_or(Invalid)? {
        Scalar::Number(number) => Ok(number),
        Scalar::Text(_) | Scalar::Other => Ok(None),
    }
}

/// Passes the value that stands next.
#[cycle(pass)]
#[inline(always)]
pub(crate) fn pass<T: Passes>(reader: &mut T, depth: usize) -> Result<(), Invalid>
    ensures { Takes T.sure depth (T.left reader.old) (T.left reader.new) (λ _ _. ⊤) result }
{
    match reader.pass_token()? {
        PassedToken::Value => Ok(()),
        PassedToken::List => {
            if depth == 0 {
                return Err(Invalid);
            }
            pass_items(reader, depth - 1)
        }
        PassedToken::Object => {
            if depth == 0 {
                return Err(Invalid);
            }
            pass_members(reader, depth - 1)
        }
    }
}

// Passes the items of a list, whose bracket was passed.
#[cycle(pass)]
#[inline(never)]
fn pass_items<T: Passes>(reader: &mut T, depth: usize) -> Result<(), Invalid>
    ensures { Takes T.sure (depth + 1) (begin_array ∷ T.left reader.old) (T.left reader.new)
        (λ d _. (ds : Items) × (d ≡ array ds)) result }
{
    while !reader.take_end_array()? {
        pass(reader, depth)?;
    }
    Ok(())
}

// Passes the members of an object, whose brace was passed.
#[cycle(pass)]
#[inline(never)]
fn pass_members<T: Passes>(reader: &mut T, depth: usize) -> Result<(), Invalid>
    ensures { Takes T.sure (depth + 1) (begin_object ∷ T.left reader.old) (T.left reader.new)
        (λ d _. (ms : Members) × (d ≡ object ms)) result }
{
    while reader.pass_key()? {
        pass(reader, depth)?;
    }
    Ok(())
}

/// What a token is that begins a value.
#[inline(always)]
pub(crate) fn passed(token: Option<Token<'_>>) -> Result<PassedToken, Invalid>
    ensures { (old new : List SpecToken) → Yields old token.entry new
        → MatchResult result (λ passed. IsPassed passed old new)
        (λ _. (depth : ℕ) → Refuses depth old) }
{
    let token = token.ok_or(Invalid)?;
    match token {
        Token::Number(text) => match whole_number(text) {
            Some(_) => Ok(PassedToken::Value),
            None => Err(Invalid),
        },
        Token::String(_) => Ok(PassedToken::Value),
        Token::Bool(_) => Ok(PassedToken::Value),
        Token::Null => Ok(PassedToken::Value),
        Token::BeginArray => Ok(PassedToken::List),
        Token::BeginObject => Ok(PassedToken::Object),
        Token::EndObject | Token::EndArray | Token::Key(_) | Token::Bad => Err(Invalid),
    }
}

// The whole number of 64 bits that a number is, if it is one. None where it is too large for a float.
#[inline(always)]
fn whole_number(text: &str) -> Option<Option<u64>>
    ensures { result ≡ option_map as_u64 (number_of text.now) }
{
    match digits_alone(text.as_bytes()) {
        Some(number) => Some(Some(number)),
        None => scanned_number(text),
    }
}

// The same of a number that isn't written by few digits alone.
#[inline(never)]
fn scanned_number(text: &str) -> Option<Option<u64>>
    ensures { result ≡ option_map as_u64 (number_of text.now) }
{
    let bytes = text.as_bytes();
    if has_minus(bytes) {
        below_zero(&Numeral::scan(&bytes[1..]))
    } else {
        from_zero(&Numeral::scan(bytes))
    }
}

// The number that digits alone write, which is how most are written.
#[inline(always)]
fn digits_alone(bytes: &[u8]) -> Option<u64>
    ensures { IfSome result (λ n. number_of bytes.now ≡ Some (unsigned n)) }
{
    if bytes.is_empty() {
        return None;
    }
    let mut value = 0_u64;
    for byte in bytes {
        if !byte.is_ascii_digit() {
            return None;
        }
        value = value.checked_mul(10)?.checked_add(u64::from(*byte - b'0'))?;
    }
    Some(value)
}

fn has_minus(bytes: &[u8]) -> bool
    ensures value { result ≡ (slice_index bytes.now 0 == 45) }
    ensures len { IsTrue result → 0 < length bytes.now }
{
    !bytes.is_empty() && bytes[0] == b'-'
}

fn from_zero(numeral: &Numeral<'_>) -> Option<Option<u64>>
    ensures { result ≡ option_map as_u64 (number_from false numeral.now) }
{
    match numeral.to_u64() {
        Some(number) => Some(Some(number)),
        None => float(false, numeral),
    }
}

fn below_zero(numeral: &Numeral<'_>) -> Option<Option<u64>>
    ensures { result ≡ option_map as_u64 (number_from true numeral.now) }
{
    match numeral.to_i64(true) {
        Some(number) if number < 0 => Some(None),
        _ => float(true, numeral),
    }
}

fn float(is_negative: bool, numeral: &Numeral<'_>) -> Option<Option<u64>>
    ensures { result ≡ option_map as_u64 (float_of is_negative numeral.now) }
{
    if numeral.to_float::<f64>(is_negative).is_finite() {
        Some(None)
    } else {
        None
    }
}
