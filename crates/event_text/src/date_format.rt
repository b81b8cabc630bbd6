// The format of a date in a template, as in `%{+yyyy.MM}`.
ghost use Rattle.std.specs.Prelude.{◌≡◌, ◌<◌, ◌≤◌, length, IfOk, IsAscii};
ghost use Rattle.std.specs.List.{list_all};
ghost use Rattle.event_text.specs.Adds.{AddsText};
ghost use Rattle.event_text.specs.DateFormats.{kind, is_of_day, IsRun, IsCut, part_of, letters_part, format_of, part_in, date_text_of};

use event_json::time_text;
use plain_data::{Instant, Items, Text};
use std::alloc::{AllocError, Global};

/// A part of the format of a date, as in `%{+yyyy.MM}`.
#[derive(Drop)]
pub enum DatePart {
    /// `yyyy` or `YYYY`: the year, with four digits.
    Year,
    /// `MM`: the month, from 01.
    Month,
    /// `dd`: the day of the month, from 01.
    Day,
    /// `HH`: the hour, from 00 to 23.
    Hour,
    /// `mm`: the minute.
    Minute,
    /// `ss`: the second.
    Second,
    /// `SSS`: the milliseconds of the second, with three digits.
    Millisecond,
    /// Characters that are no letters of ASCII, which stand for themselves.
    Plain(Text),
}

impl DatePart {
    // Whether the day of a moment alone says what it is.
    fn is_of_day(&self) -> bool
        ensures { result ≡ is_of_day self.now }
    {
        match self {
            DatePart::Year | DatePart::Month | DatePart::Day | DatePart::Plain(_) => true,
            DatePart::Hour | DatePart::Minute | DatePart::Second | DatePart::Millisecond => false,
        }
    }
}

// Whether the day of a moment alone says what each of these is.
pub(crate) fn are_of_day(parts: &[DatePart]) -> bool
    ensures { result ≡ list_all is_of_day parts.now }
{
    parts.iter().all(|part| part.is_of_day())
}

// The parts of a format, or none where the text is no format.
pub(crate) fn read_format(
    alloc: Global,
    format: &str,
) -> Result<Option<Items<DatePart>>, AllocError>
    ensures { IfOk result (λ parts. parts ≡ format_of format.now) }
{
    if format.is_empty() {
        return Ok(None);
    }
    let mut parts = Items::new(alloc);
    let mut at = 0;
    while at < format.len() {
        let end = run_end(format.as_bytes(), at);
        match read_part(alloc, &format[at..end])? {
            Some(part) => parts.push(part)?,
            None => return Ok(None),
        }
        at = end;
    }
    Ok(Some(parts))
}

// Where the run ends that begins at `from`.
fn run_end(bytes: &[u8], from: usize) -> usize
    requires { from < length bytes.now }
    ensures after { from < result }
    ensures within { result ≤ length bytes.now }
    ensures run { IsRun bytes.now from result }
    ensures cut { IsCut bytes.now result }
{
    let first = kind(bytes[from]);
    for at in from + 1..bytes.len() {
        if kind(bytes[at]) != first {
            return at;
        }
    }
    bytes.len()
}

// A letter is a kind of its own, and all other bytes are one kind.
fn kind(byte: u8) -> u8
    ensures { result ≡ kind byte }
{
    if byte.is_ascii_alphabetic() { byte } else { 0 }
}

// What a run stands for, if it stands for anything.
fn read_part(alloc: Global, run: &str) -> Result<Option<DatePart>, AllocError>
    requires { 0 < length run.now }
    ensures { IfOk result (λ part. part ≡ part_of run.now) }
{
    if let Some(part) = letters_part(run) {
        return Ok(Some(part));
    }
    if run.as_bytes()[0].is_ascii_alphabetic() {
        return Ok(None);
    }
    Ok(Some(DatePart::Plain(Text::of(alloc, run)?)))
}

fn letters_part(run: &str) -> Option<DatePart>
    ensures { result ≡ letters_part run.now }
{
    if run == "yyyy" || run == "YYYY" {
        Some(DatePart::Year)
    } else if run == "MM" {
        Some(DatePart::Month)
    } else if run == "dd" {
        Some(DatePart::Day)
    } else if run == "HH" {
        Some(DatePart::Hour)
    } else if run == "mm" {
        Some(DatePart::Minute)
    } else if run == "ss" {
        Some(DatePart::Second)
    } else if run == "SSS" {
        Some(DatePart::Millisecond)
    } else {
        None
    }
}

// Adds a moment in a format. Where memory ran out, what is left of `to` is of no use.
pub(crate) fn add_date(
    to: &mut String,
    parts: &[DatePart],
    moment: Instant,
) -> Result<(), AllocError>
    ensures { AddsText result (date_text_of parts.now moment) to.old to.new }
{
    let (bytes, length) = time_text(moment);
    // SAFETY: proved; the text of an instant is ASCII.
    let text = unsafe { str::from_utf8_unchecked(&bytes[..length]) };
    for part in parts {
        to.push_str(text_of_part(part, text))?;
    }
    Ok(())
}

// Where a part stands in the text of a moment.
fn text_of_part<'a>(part: &'a DatePart, text: &'a str) -> &'a str
    requires long { 24 ≤ length text.now }
    requires ascii { IsAscii text.now }
    ensures { result.now ≡ part_in text.now part.now }
{
    match part {
        DatePart::Year => &text[..4],
        DatePart::Month => &text[5..7],
        DatePart::Day => &text[8..10],
        DatePart::Hour => &text[11..13],
        DatePart::Minute => &text[14..16],
        DatePart::Second => &text[17..19],
        DatePart::Millisecond => &text[20..23],
        DatePart::Plain(run) => run.as_str(),
    }
}
