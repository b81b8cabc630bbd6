// Offsets from UTC such as `+02:00`.
ghost use Rattle.std.specs.Prelude.{◌≡◌};
ghost use Rattle.event_times.specs.Zones as spec;
ghost use Rattle.event_times.specs.Digits.{as_front};

use crate::digits::digits;

/// The offset that a whole text is, in seconds: a sign, two digits of hours up to 23, a `:`, and two of minutes up to 59, as
/// `+02:00`.
pub fn read_offset(text: &str) -> Option<i32>
    ensures { result ≡ spec.offset_of text.now }
{
    if text.len() != 6 {
        return None;
    }
    match zone(text.as_bytes()) {
        Some((offset, [])) => Some(offset),
        _ => None,
    }
}

/// The offset from UTC that stands in front, in seconds, and what is left.
pub(crate) fn zone(text: &[u8]) -> Option<(i32, &[u8])>
    ensures { as_front result ≡ spec.zone_in text.now }
{
    let (first, rest) = text.split_first()?;
    match *first {
        b'Z' => Some((0, rest)),
        b'+' => hours_minutes(false, rest),
        b'-' => hours_minutes(true, rest),
        _ => None,
    }
}

/// The offset of hours and minutes behind a sign.
fn hours_minutes(west: bool, text: &[u8]) -> Option<(i32, &[u8])>
    ensures { as_front result ≡ spec.hours_minutes west text.now }
{
    let (hours, rest) = digits(2, text)?;
    let (minutes, rest) = digits(2, without_colon(rest))?;
    if hours >= 24 || minutes >= 60 {
        return None;
    }
    let seconds = (hours * 3600 + minutes * 60) as i32;
    Some((if west { -seconds } else { seconds }, rest))
}

/// Without the colon that may stand in front.
fn without_colon(text: &[u8]) -> &[u8]
    ensures { result.now ≡ spec.without 58 text.now }
{
    match text.split_first() {
        Some((b':', rest)) => rest,
        _ => text,
    }
}
