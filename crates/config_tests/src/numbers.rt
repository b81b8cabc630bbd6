// Decimal numbers: read, in least form, and from digits.
ghost use Rattle.std.specs.Prelude.{◌≡◌, option_map, IsTrue};
ghost use Rattle.event_tree.specs.NumberTexts.{AreDigits};

use crate::json;
use event_json::time_text;
use event_tree::{Instant, Number, Value};
use std::alloc::AllocError;
use std::str;
use table_rows::first_word;

/// The digits and the places of a number.
fn parts(number: Option<Number>) -> Option<(i64, u8)>
    ensures { result ≡ option_map (λ n. (n.mantissa, n.scale)) number }
{
    match number {
        Some(number) => Some((number.mantissa(), number.scale())),
        None => None,
    }
}

/// Adds the digits and the places of a number, and its JSON text.
fn add(to: &mut String, number: Option<Number>) -> Result<(), AllocError> {
    let Some((mantissa, scale)) = parts(number) else {
        return to.push_str("none");
    };
    write!(to, "{mantissa}/{scale} ")?;
    add_decimal(to, mantissa, scale)
}

/// Adds the JSON text of the number of so many digits and so many places.
fn add_decimal(to: &mut String, mantissa: i64, scale: u8) -> Result<(), AllocError> {
    match Number::new(mantissa, scale) {
        Some(number) => json::add(to, &Value::Num(number)),
        None => to.push_str("none"),
    }
}

/// Adds the number of so many digits and so many places.
pub fn add_least(to: &mut String, case: &str) -> Result<(), AllocError> {
    let (mantissa, scale) = first_word(case);
    match (mantissa.parse::<i64>(), scale.parse::<u8>()) {
        (Ok(mantissa), Ok(scale)) => add(to, Number::new(mantissa, scale)),
        _ => to.push_str("no digits and places"),
    }
}

/// Adds the number that a text writes.
pub fn add_read(to: &mut String, text: &str) -> Result<(), AllocError> {
    add(to, Number::read(text))
}

/// Whether each byte is a digit.
fn are_digits(bytes: &[u8]) -> bool
    ensures { IsTrue result → AreDigits bytes.now }
{
    match bytes.split_first() {
        None => true,
        Some((first, rest)) => b'0' <= *first && *first <= b'9' && are_digits(rest),
    }
}

/// The number of these digits, before a point and behind it.
fn number_of(negative: bool, whole: &[u8], places: &[u8]) -> Option<Number> {
    if are_digits(whole) && are_digits(places) {
        Number::from_digits(negative, whole, places)
    } else {
        None
    }
}

/// Adds the number of the digits before a point, behind a `-` where there is one, and of those behind it.
pub fn add_from_digits(to: &mut String, case: &str) -> Result<(), AllocError> {
    let digits = case.strip_prefix('-').unwrap_or(case);
    let (whole, places) = digits.split_once('.').unwrap_or((digits, ""));
    let negative = digits.len() < case.len();
    add(to, number_of(negative, whole.as_bytes(), places.as_bytes()))
}

/// The moment that lies so many seconds and nanoseconds behind 1970.
pub fn moment(case: &str) -> Option<Instant> {
    let (seconds, nanos) = first_word(case);
    let seconds = i128::from(seconds.parse::<i64>().ok()?);
    let nanos = i128::from(nanos.parse::<i64>().ok()?);
    Instant::from_nanos(seconds * 1_000_000_000 + nanos)
}

/// Adds the text of a moment.
pub fn add_moment(to: &mut String, case: &str) -> Result<(), AllocError> {
    let Some(moment) = moment(case) else {
        return to.push_str("no moment");
    };
    let (text, length) = time_text(moment);
    match str::from_utf8(&text[..length]) {
        Ok(text) => to.push_str(text),
        Err(_) => to.push_str("no UTF-8"),
    }
}
