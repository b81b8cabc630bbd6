// The formats of the filter `date`: named ones, and letters with quoted texts.
ghost use Rattle.std.specs.Prelude.{◌≡◌, ◌≤◌, length, IfOk, false};
ghost use Rattle.filters_date.specs.Formats as spec;

use event_times::{TimeField, TimeItem};
use plain_data::Items;
use std::alloc::{AllocError, Global};

/// A format of the filter `date`.
pub enum DateFormat {
    /// `ISO8601`: a date, `T` or a blank, and a time of day, as [`event_times::read_iso8601`] reads them.
    Iso8601,
    /// `UNIX`: seconds from 1970, as a number or a text.
    Unix,
    /// `UNIX_MS`: milliseconds from 1970, as a number or a text.
    UnixMillis,
    /// Letters, quoted texts and characters that stand for themselves.
    Letters(Items<TimeItem>),
}

// Written out, so that it is one call wherever an error is handed on while a format is held.
impl Drop for DateFormat {
    fn drop(self) {
        match self {
            DateFormat::Iso8601 | DateFormat::Unix | DateFormat::UnixMillis => {}
            DateFormat::Letters(_items) => {}
        }
    }
}

/// The format that a text is, or none.
pub(crate) fn read_format(alloc: Global, text: &str) -> Result<Option<DateFormat>, AllocError>
    ensures { IfOk result (λ format. format ≡ spec.format_of text.now) }
{
    match text {
        "ISO8601" => Ok(Some(DateFormat::Iso8601)),
        "UNIX" => Ok(Some(DateFormat::Unix)),
        "UNIX_MS" => Ok(Some(DateFormat::UnixMillis)),
        _ => match read_items(alloc, text.as_bytes())? {
            Some(items) => Ok(Some(DateFormat::Letters(items))),
            None => Ok(None),
        },
    }
}

/// The items of a format, or none; the empty text is none.
fn read_items(alloc: Global, text: &[u8]) -> Result<Option<Items<TimeItem>>, AllocError>
    ensures { IfOk result (λ items. items ≡ spec.items_of text.now) }
{
    if text.is_empty() {
        return Ok(None);
    }
    read_letters(alloc, text)
}

/// The items of a format of letters, or none where a letter stands for nothing or a quote isn't closed.
fn read_letters(alloc: Global, text: &[u8]) -> Result<Option<Items<TimeItem>>, AllocError>
    ensures { IfOk result (λ items. items ≡ spec.items_behind 0 false text.now) }
{
    let mut items = Items::new(alloc);
    let mut quoted = false;
    let mut rest = text;
    while let Some((first, behind)) = rest.split_first() {
        if *first == b'\'' {
            quoted = !quoted;
            rest = behind;
        } else if is_plain(quoted, *first) {
            items.push(TimeItem::Plain(*first))?;
            rest = behind;
        } else {
            let more = run_length(*first, behind);
            let Some(item) = letters_item(*first, more + 1) else {
                return Ok(None);
            };
            items.push(item)?;
            rest = behind.split_at(more).1;
        }
    }
    if quoted {
        return Ok(None);
    }
    Ok(Some(items))
}

/// Whether a byte that is no quote stands for itself.
fn is_plain(quoted: bool, byte: u8) -> bool
    ensures { result ≡ spec.is_plain quoted byte }
{
    quoted || !byte.is_ascii_alphabetic()
}

/// How many of this letter stand in front.
fn run_length(letter: u8, text: &[u8]) -> usize
    ensures value { result ≡ spec.run_length letter text.now }
    ensures within { result ≤ length text.now }
{
    for at in 0..text.len() {
        if text[at] != letter {
            return at;
        }
    }
    text.len()
}

/// The item that so many of one letter are.
fn letters_item(letter: u8, count: usize) -> Option<TimeItem>
    ensures { result ≡ spec.letters_item letter count }
{
    match (letter, count) {
        (b'y', 4) => Some(TimeItem::Year),
        (b'M', 1) => Some(TimeItem::OneOrTwo(TimeField::Month)),
        (b'M', 2) => Some(TimeItem::Two(TimeField::Month)),
        (b'M', 3) => Some(TimeItem::ShortMonth),
        (b'M', 4) => Some(TimeItem::LongMonth),
        (b'd', 1) => Some(TimeItem::OneOrTwo(TimeField::Day)),
        (b'd', 2) => Some(TimeItem::Two(TimeField::Day)),
        (b'H', 1) => Some(TimeItem::OneOrTwo(TimeField::Hour)),
        (b'H', 2) => Some(TimeItem::Two(TimeField::Hour)),
        (b'm', 1) => Some(TimeItem::OneOrTwo(TimeField::Minute)),
        (b'm', 2) => Some(TimeItem::Two(TimeField::Minute)),
        (b's', 1) => Some(TimeItem::OneOrTwo(TimeField::Second)),
        (b's', 2) => Some(TimeItem::Two(TimeField::Second)),
        (b'Z', 1) => Some(TimeItem::Zone),
        (b'S', 1..=9) => Some(TimeItem::Fraction(count as u8)),
        _ => None,
    }
}
