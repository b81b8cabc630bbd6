// The content of strings, up to the quote.
ghost use Rattle.std.specs.Prelude.{◌≡◌, ◌≤◌, ◌<◌, ◌++◌, ℕ, slice_index, length, take, drop, string_bytes, OnOk, IfOk, IfErr, IfSome, encode_utf8};
ghost use Rattle.std.specs.Char.{IsScalar};
ghost use Rattle.event_json.specs.Strings.{is_plain, is_high, is_low, alone, joined, lone, held as held_unit, replacement};
ghost use Rattle.event_json.specs.Reading.{plainly, escaped, inside_at, string_at};
ghost use Rattle.event_json.specs.Stops.{Gives, FailsInside, GoesOn, Passes, IsHeld, IsSpecial, plain_run, after_plain_run, hex_at, unit_at};

use crate::fault::JsonStop;
use crate::front::{after_byte, rest_of};
use crate::scan::stopped;
use crate::{hex, short};
use event_tree::Text;
use std::alloc::{AllocError, Global};

const REPLACEMENT: char = '\u{FFFD}';

// How many plain bytes stand in front.
pub(crate) fn run_length(bytes: &[u8]) -> usize
    ensures run { plain_run bytes.now ≡ take result bytes.now }
    ensures after { after_plain_run bytes.now ≡ drop result bytes.now }
    ensures within { result ≤ length bytes.now }
    ensures stops { result < length bytes.now → slice_index bytes.now result < 128 }
{
    let mut count = 0;
    for byte in bytes {
        if *byte < 32 || *byte == b'"' || *byte == b'\\' {
            return count;
        }
        count += 1;
    }
    count
}

fn hex_digit(bytes: &[u8]) -> Result<(u32, &[u8]), JsonStop>
    ensures digit { Gives (λ x. (x.0, x.1.now)) result (hex_at bytes.now) }
    ensures small { IfOk result (λ x. x.0 < 16) }
{
    let Some((first, rest)) = bytes.split_first() else {
        return Err(stopped(bytes));
    };
    match hex(*first) {
        Some(digit) => Ok((digit, rest)),
        None => Err(stopped(bytes)),
    }
}

// A unit of UTF-16, in four digits.
#[tactic(auto, unfolding(crate::specs::Stops::unit_at))]
fn unit(bytes: &[u8]) -> Result<(u32, &[u8]), JsonStop>
    ensures unit { Gives (λ x. (x.0, x.1.now)) result (unit_at bytes.now) }
    ensures small { IfOk result (λ x. x.0 < 65536) }
{
    let (a, rest) = hex_digit(bytes)?;
    let (b, rest) = hex_digit(rest)?;
    let (c, rest) = hex_digit(rest)?;
    let (d, rest) = hex_digit(rest)?;
    Ok((16 * (16 * (16 * a + b) + c) + d, rest))
}

fn unit_in(text: &str) -> Result<(u32, &str), JsonStop>
    ensures unit { Gives (λ x. (x.0, x.1.now)) result (unit_at text.now) }
    ensures small { IfOk result (λ x. x.0 < 65536) }
    ensures shorter { IfOk result (λ x. length x.1.now ≤ length text.now) }
{
    let (unit, rest) = unit(text.as_bytes())?;
    Ok((unit, rest_of(text, rest)))
}

// Whether a unit is the first half of a pair.
fn is_high_unit(unit: u32) -> bool
    ensures { result ≡ is_high unit }
{
    0xD800 <= unit && unit < 0xDC00
}

// Whether a unit is the second half of a pair.
fn is_low_unit(unit: u32) -> bool
    ensures { result ≡ is_low unit }
{
    0xDC00 <= unit && unit < 0xE000
}

// The unit, where it waits for the second half of its pair.
fn held(unit: u32) -> Option<u32>
    ensures unit { result ≡ held_unit unit }
    ensures waits { IsHeld result }
{
    if is_high_unit(unit) { Some(unit) } else { None }
}

fn add_char(to: &mut String, code: u32) -> Result<(), AllocError>
    requires { IsScalar code }
    ensures { OnOk result (string_bytes to.new ≡ string_bytes to.old ++ encode_utf8 code) }
{
    match char::from_u32(code) {
        Some(character) => to.push(character),
        None => Ok(()),
    }
}

fn add_replacement(to: &mut String) -> Result<(), AllocError>
    ensures { OnOk result (string_bytes to.new ≡ string_bytes to.old ++ replacement) }
{
    to.push(REPLACEMENT)
}

// A surrogate that waits for its other half and doesn't meet it.
fn add_lone(to: &mut String, waits: Option<u32>) -> Result<(), AllocError>
    ensures { OnOk result (string_bytes to.new ≡ string_bytes to.old ++ lone waits) }
{
    match waits {
        Some(_) => add_replacement(to),
        None => Ok(()),
    }
}

// A unit that meets no other half.
fn add_alone(to: &mut String, unit: u32) -> Result<(), AllocError>
    requires { unit < 65536 }
    ensures { OnOk result (string_bytes to.new ≡ string_bytes to.old ++ alone unit) }
{
    if is_high_unit(unit) {
        return Ok(());
    }
    if is_low_unit(unit) {
        return add_replacement(to);
    }
    add_char(to, unit)
}

// A unit behind what waits.
fn add_unit(to: &mut String, waits: Option<u32>, unit: u32) -> Result<(), AllocError>
    requires unit { unit < 65536 }
    requires waits { IsHeld waits }
    ensures { OnOk result (string_bytes to.new ≡ string_bytes to.old ++ joined waits unit) }
{
    match waits {
        None => add_alone(to, unit),
        Some(high) => {
            if is_low_unit(unit) {
                return add_char(to, 0x10000 + (0x400 * (high - 0xD800) + (unit - 0xDC00)));
            }
            add_replacement(to)?;
            add_alone(to, unit)
        }
    }
}

// The plain bytes in front as a whole, and what follows them.
fn add_run<'t>(
    to: &mut String,
    waits: Option<u32>,
    text: &'t str,
) -> Result<(Option<u32>, &'t str), AllocError>
    requires { IsHeld waits }
    ensures goes { IfOk result (λ x. Passes plainly waits text.now to.old to.new x.0 x.1.now) }
    ensures waits { IfOk result (λ x. IsHeld x.0) }
    ensures special { IfOk result (λ x. IsSpecial x.1.now) }
{
    let count = run_length(text.as_bytes());
    if count == 0 {
        return Ok((waits, text));
    }
    add_lone(to, waits)?;
    to.push_str(&text[..count])?;
    Ok((None, &text[count..]))
}

// What stands behind a backslash, and what follows it.
fn add_escaped<'t>(
    to: &mut String,
    waits: Option<u32>,
    text: &'t str,
) -> Result<(Option<u32>, &'t str), JsonStop>
    requires { IsHeld waits }
    ensures goes { IfOk result (λ x. GoesOn escaped waits text.now to.old to.new x.0 x.1.now) }
    ensures waits { IfOk result (λ x. IsHeld x.0) }
    ensures stops { IfErr result (FailsInside escaped waits text.now to.old) }
{
    if let Some(digits) = after_byte(text, b'u') {
        let (unit, rest) = unit_in(digits)?;
        add_unit(to, waits, unit)?;
        return Ok((held(unit), rest));
    }
    let Some((first, rest)) = text.as_bytes().split_first() else {
        return Err(stopped(text.as_bytes()));
    };
    let Some(byte) = short(*first) else {
        return Err(stopped(text.as_bytes()));
    };
    add_lone(to, waits)?;
    to.push(byte as char)?;
    Ok((None, rest_of(text, rest)))
}

// The text up to the quote that ends the string, and what follows the quote.
pub(crate) fn string(alloc: Global, text: &str) -> Result<(Text, &str), JsonStop>
    ensures { Gives (λ x. (x.0, x.1.now)) result (string_at text.now) }
{
    let mut found = String::new(alloc);
    let mut waits = None;
    let mut rest = text;
    loop {
        let (held, special) = add_run(&mut found, waits, rest)?;
        if let Some(behind) = after_byte(special, b'"') {
            add_lone(&mut found, held)?;
            return Ok((Text::from_string(found), behind));
        }
        let Some(letter) = after_byte(special, b'\\') else {
            return Err(stopped(special.as_bytes()));
        };
        let (next, behind) = add_escaped(&mut found, held, letter)?;
        waits = next;
        rest = behind;
    }
}
