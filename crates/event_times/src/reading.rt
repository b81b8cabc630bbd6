// Reading a text by the items of a format, with all ways of reading tried.
ghost use Rattle.std.specs.Prelude.{◌≡◌, ◌≤◌, length};
ghost use Rattle.event_tree.specs.NumberTexts.{digits_front};
ghost use Rattle.event_times.specs.Reading as spec;
ghost use Rattle.event_times.specs.Digits.{as_front, digits_in};

use crate::digits::digits;
use crate::item::{TimeField, TimeItem};
use crate::moment::TimeParts;
use crate::month::{long_month, short_month};
use crate::zone::zone;

/// The parts that the items read of the whole text; none where they don't read it. Items are read from the front on, each
/// behind the one before it. Where one may read two digits or one, or something or nothing, the longer comes first, and the
/// other is tried where no way to read the rest follows. So a text with many digits in a row may be tried in as many ways as
/// items in two lengths can share them.
pub fn read_time(items: &[TimeItem], text: &str) -> Option<TimeParts>
    ensures { result ≡ spec.parts_read items.now spec.no_parts text.now }
{
    parts_read(items, TimeParts::START, text.as_bytes())
}

fn parts_read(items: &[TimeItem], parts: TimeParts, text: &[u8]) -> Option<TimeParts>
    ensures { result ≡ spec.parts_read items.now parts text.now }
{
    let Some((item, items)) = items.split_first() else {
        return if text.is_empty() { Some(parts) } else { None };
    };
    if let Some((parts, rest)) = first_reading(*item, parts, text) {
        if let Some(read) = parts_read(items, parts, rest) {
            return Some(read);
        }
    }
    let (parts, rest) = other_reading(*item, parts, text)?;
    parts_read(items, parts, rest)
}

/// What an item reads at the front, first of all.
fn first_reading(item: TimeItem, parts: TimeParts, text: &[u8]) -> Option<(TimeParts, &[u8])>
    ensures { as_front result ≡ spec.first_reading item parts text.now }
{
    match item {
        TimeItem::Year => {
            let (year, rest) = digits(4, text)?;
            Some((parts.with_year(year), rest))
        }
        TimeItem::Two(field) | TimeItem::OneOrTwo(field) => field_read(field, 2, parts, text),
        TimeItem::ShortMonth => {
            let (month, rest) = short_month(text)?;
            Some((parts.with_field(TimeField::Month, month), rest))
        }
        TimeItem::LongMonth => {
            let (month, rest) = long_month(text)?;
            Some((parts.with_field(TimeField::Month, month), rest))
        }
        TimeItem::Fraction(count) => {
            if count > 9 {
                return None;
            }
            decimals(usize::from(count), parts, text)
        }
        TimeItem::Zone | TimeItem::MaybeZone => {
            let (offset, rest) = zone(text)?;
            Some((parts.with_offset(offset), rest))
        }
        TimeItem::Plain(byte) => match text.split_first() {
            Some((first, rest)) if *first == byte => Some((parts, rest)),
            _ => None,
        },
        TimeItem::Mark => match text.split_first() {
            Some((b'T' | b' ', rest)) => Some((parts, rest)),
            _ => None,
        },
        TimeItem::MaybeSecond => match text.split_first() {
            Some((b':', rest)) => field_read(TimeField::Second, 2, parts, rest),
            _ => None,
        },
        TimeItem::MaybeFraction => match text.split_first() {
            Some((b'.' | b',', rest)) => some_decimals(parts, rest),
            _ => None,
        },
    }
}

/// What else an item reads there: one digit in the place of two, or nothing.
fn other_reading(item: TimeItem, parts: TimeParts, text: &[u8]) -> Option<(TimeParts, &[u8])>
    ensures { as_front result ≡ spec.other_reading item parts text.now }
{
    match item {
        TimeItem::OneOrTwo(field) => field_read(field, 1, parts, text),
        TimeItem::MaybeSecond | TimeItem::MaybeFraction | TimeItem::MaybeZone => Some((
            parts, text,
        )),
        TimeItem::Year
        | TimeItem::Two(_)
        | TimeItem::ShortMonth
        | TimeItem::LongMonth
        | TimeItem::Fraction(_)
        | TimeItem::Zone
        | TimeItem::Plain(_)
        | TimeItem::Mark => None,
    }
}

/// A part in so many digits.
fn field_read(
    field: TimeField,
    count: usize,
    parts: TimeParts,
    text: &[u8],
) -> Option<(TimeParts, &[u8])>
    requires { count ≤ 2 }
    ensures { as_front result ≡ spec.reads_to (spec.with_field field) parts
        (digits_in count text.now) }
{
    let (number, rest) = digits(count, text)?;
    Some((parts.with_field(field, number), rest))
}

/// So many decimals of the second; none where there are more than nine.
fn decimals(count: usize, parts: TimeParts, text: &[u8]) -> Option<(TimeParts, &[u8])>
    requires { count ≤ 9 }
    ensures { as_front result ≡ spec.reads_to (spec.with_decimals count) parts
        (digits_in count text.now) }
{
    let (number, rest) = digits(count, text)?;
    Some((parts.with_decimals(count, number), rest))
}

/// One to nine decimals of the second: all the digits that stand there.
fn some_decimals(parts: TimeParts, text: &[u8]) -> Option<(TimeParts, &[u8])>
    ensures { as_front result ≡ spec.decimals_in parts text.now }
{
    let count = digit_count(text);
    if count < 1 || count > 9 {
        return None;
    }
    decimals(count, parts, text)
}

/// How many digits stand in front.
fn digit_count(text: &[u8]) -> usize
    ensures { result ≡ length (digits_front text.now) }
{
    for at in 0..text.len() {
        if !text[at].is_ascii_digit() {
            return at;
        }
    }
    text.len()
}
