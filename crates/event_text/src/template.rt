// Texts with places that an event fills, as in `%{host}`.
ghost use Rattle.std.specs.Prelude.{◌≡◌, ◌<◌, ◌≤◌, ◌+◌, ◌++◌, length, drop, MatchOption, IfOk, IfSome, IsTrue, OnOk, None};
ghost use Rattle.std.specs.List.{list_all};
ghost use Rattle.event_tree.specs.declared.value.Value.{out-Value};
ghost use Rattle.event_text.specs.Adds.{AddsText};
ghost use Rattle.event_text.specs.Template.{text, template_parts, template_part_of, date_part_of, field_part_of, IsNextClose, Encloses, opens, placeholder, plain_parts, IsPlaced, template_part_text, as_written, moment_of, time_in, day_in, is_daily};

use crate::date_format::{DatePart, add_date, are_of_day, read_format};
use crate::path_text::path_in;
use crate::shown::add_shown;
use event_tree::{Event, Path, Value};
use plain_data::{Instant, Items, Text};
use std::alloc::{AllocError, Global};
use std::marker::Model;

/// A part of a template.
#[derive(Drop)]
pub enum TemplatePart {
    /// Text that stands for itself.
    Plain(Text),
    /// The field at a path, with what was written between `%{` and `}`.
    Field(Path, Text),
    /// The event's moment in a format, with what was written between `%{` and `}`.
    Date(Items<DatePart>, Text),
}

/// A text with places that an event fills, as in `%{host}-%{+yyyy.MM}`, read once. Contracts see the
/// list of its pieces.
#[derive(Drop)]
pub struct Template {
    pieces: Items<TemplatePart>,
}

impl Model for Template {
    ghost use Rattle.std.specs.Prelude.{List};
    ghost use Rattle.std.specs.Coded.{coded_list, codes};
    ghost use Rattle.event_text.specs.declared.template.TemplatePart.{TemplatePart};
    ghost use Rattle.event_text.specs.contracts.template.TemplatePart as piece;

    ghost Value = { List TemplatePart };

    ghost coded = { coded_list (Prim.hlevel (codes, piece.the_row.coded)) };

    ghost view = { λ template. template.pieces };
}

impl Template {
    /// Reads a template (the sprintf format of the Logstash Reference 8). `%{` with a path up to the
    /// next `}` is the field at that path, and `%{+` with a format, as in `%{+yyyy.MM.dd}`, is the
    /// event's moment. Everything else stays as written: where what stands between reads as neither,
    /// `%{` stays, and reading goes on right behind it. No text is refused.
    ///
    /// It takes time in proportion to the text, and for each `%{` with a `}` behind it the time to read
    /// what stands between, once as a format and once as a path, each up to the byte that makes it none.
    pub fn read(alloc: Global, text: &str) -> Result<Template, AllocError>
        ensures { IfOk result (λ template. template ≡ template_parts text.now) }
    {
        Ok(Template {
            pieces: read_pieces(alloc, text)?,
        })
    }

    /// The text with its places filled from an event: a field by the text that its value is shown by
    /// (`value_text`), a date by the event's `@timestamp` in UTC. A field that is missing stays as it
    /// was written, and so does a date where `@timestamp` is missing or no time.
    ///
    /// It takes time for one look-up for each field and for the bytes that it writes, and no memory
    /// but the text.
    pub fn fill(&self, event: &Event) -> Result<Text, AllocError>
        ensures { IfOk result (λ filled. filled ≡ text self.now event.now) }
    {
        let mut filled = String::new(self.pieces.allocator());
        for piece in self.pieces.as_slice() {
            add_piece(&mut filled, piece, event)?;
        }
        Ok(Text::from_string(filled))
    }

    /// The day of the event's moment, counted from 1970-01-01, where of the event nothing else counts for the text: the template has
    /// no field, and of dates the year, the month and the day. `None` where more counts, or the event has no moment.
    ///
    /// Events with the same day fill the template to the same text, so that one of them is filled for all (`laws::a_day_has_one_text`).
    pub fn day_of(&self, event: &Event) -> Option<i128>
        ensures { result ≡ day_in self.now event.now }
    {
        if !are_daily(self.pieces.as_slice()) {
            return None;
        }
        Some(event_time(event)?.nanos().div_euclid(DAY))
    }
}

/// The nanoseconds of a day.
const DAY: i128 = 86_400_000_000_000;

// Whether of an event the day of its moment alone says what the text of each of these is.
fn are_daily(pieces: &[TemplatePart]) -> bool
    ensures { result ≡ list_all is_daily pieces.now }
{
    pieces.iter().all(|piece| is_daily(piece))
}

fn is_daily(piece: &TemplatePart) -> bool
    ensures { result ≡ is_daily piece.now }
{
    match piece {
        TemplatePart::Plain(_) => true,
        TemplatePart::Field(_, _) => false,
        TemplatePart::Date(parts, _) => are_of_day(parts.as_slice()),
    }
}

// Adds the text of a piece. Where memory ran out, what is left of `to` is of no use.
fn add_piece(to: &mut String, piece: &TemplatePart, event: &Event) -> Result<(), AllocError>
    ensures { AddsText result (template_part_text event.now piece.now) to.old to.new }
{
    match piece {
        TemplatePart::Plain(run) => to.push_str(run.as_str()),
        TemplatePart::Field(path, name) => match event.get(path) {
            Some(value) => add_shown(to, value),
            None => add_as_written(to, name.as_str()),
        },
        TemplatePart::Date(parts, inner) => match event_time(event) {
            Some(moment) => add_date(to, parts.as_slice(), moment),
            None => add_as_written(to, inner.as_str()),
        },
    }
}

fn add_as_written(to: &mut String, inner: &str) -> Result<(), AllocError>
    ensures { AddsText result (as_written inner.now) to.old to.new }
{
    to.push_str("%{")?;
    to.push_str(inner)?;
    to.push_str("}")
}

/// The event's `@timestamp`, where that is a time.
pub fn event_time(event: &Event) -> Option<Instant>
    ensures { result ≡ moment_of event.now }
{
    let Value::Object(fields) = event.fields() else {
        return None;
    };
    match fields.get("@timestamp") {
        Some(value) => time_in(value),
        None => None,
    }
}

fn time_in(value: &Value) -> Option<Instant>
    ensures { result ≡ time_in (out-Value value.now) }
{
    match value {
        Value::Time(moment) => Some(*moment),
        Value::Null
        | Value::Bool(_)
        | Value::Num(_)
        | Value::Text(_)
        | Value::List(_)
        | Value::Object(_) => None,
    }
}

fn read_pieces(alloc: Global, text: &str) -> Result<Items<TemplatePart>, AllocError>
    ensures { IfOk result (λ pieces. pieces ≡ template_parts text.now) }
{
    let mut pieces = Items::new(alloc);
    let mut plain = 0;
    let mut at = 0;
    let mut next = 0;
    while at < text.len() {
        match placeholder(alloc, text, at, &mut next)? {
            Some((piece, length)) => {
                add_plain(&mut pieces, &text[plain..at])?;
                pieces.push(piece)?;
                at += length;
                plain = at;
            }
            None => at += 1,
        }
    }
    add_plain(&mut pieces, &text[plain..])?;
    Ok(pieces)
}

// Adds text that stands for itself, if there is any.
fn add_plain(pieces: &mut Items<TemplatePart>, run: &str) -> Result<(), AllocError>
    ensures { OnOk result (pieces.new ≡ pieces.old ++ plain_parts run.now) }
{
    if run.is_empty() {
        return Ok(());
    }
    let alloc = pieces.allocator();
    pieces.push(TemplatePart::Plain(Text::of(alloc, run)?))
}

// The field or date that stands at a place, and how many bytes it has. `next` is the place of the next
// `}`, as in `close_of`.
fn placeholder(
    alloc: Global,
    text: &str,
    at: usize,
    next: &mut usize,
) -> Result<Option<(TemplatePart, usize)>, AllocError>
    requires within { at < length text.now }
    requires next { IsNextClose text.now (at + 2) next.old }
    ensures found { IfOk result (λ found. found ≡ placeholder (drop at text.now)) }
    ensures placed { IfOk result (λ found. IfSome found (λ f. IsPlaced f.1 text.now at)) }
    ensures next { IsNextClose text.now (at + 2) next.new }
{
    let Some(close) = close_of(text.as_bytes(), at, next) else {
        return Ok(None);
    };
    match read_piece(alloc, &text[at + 2..close])? {
        Some(piece) => Ok(Some((piece, close + 1 - at))),
        None => Ok(None),
    }
}

// The place of the `}` behind the `%{` at a place, where both stand. `next` is the place of the next
// `}`, or the end: it is sought only where the last one that was found stands in front.
fn close_of(bytes: &[u8], at: usize, next: &mut usize) -> Option<usize>
    requires within { at < length bytes.now }
    requires next { IsNextClose bytes.now (at + 2) next.old }
    ensures close { MatchOption result (placeholder (drop at bytes.now) ≡ None)
        (Encloses bytes.now at) }
    ensures next { IsNextClose bytes.now (at + 2) next.new }
{
    if !opens_at(bytes, at) {
        return None;
    }
    *next = next_close(bytes, at + 2, *next);
    let close = *next;
    if close == bytes.len() {
        return None;
    }
    Some(close)
}

// The place of the next `}` from `from` on, or the end, where the last one that was found is known.
fn next_close(bytes: &[u8], from: usize, known: usize) -> usize
    requires from { from ≤ length bytes.now }
    requires known { IsNextClose bytes.now from known }
    ensures after { from ≤ result }
    ensures next { IsNextClose bytes.now from result }
{
    if known < from {
        close_at(bytes, from)
    } else {
        known
    }
}

// Whether `%{` stands at a place.
fn opens_at(bytes: &[u8], at: usize) -> bool
    requires { at < length bytes.now }
    ensures opens { result ≡ opens (drop at bytes.now) }
    ensures within { IsTrue result → at + 2 ≤ length bytes.now }
{
    if at + 1 == bytes.len() {
        return false;
    }
    bytes[at] == b'%' && bytes[at + 1] == b'{'
}

// The place of the first `}` from `from` on, or the end.
fn close_at(bytes: &[u8], from: usize) -> usize
    requires { from ≤ length bytes.now }
    ensures after { from ≤ result }
    ensures next { IsNextClose bytes.now from result }
{
    for at in from..bytes.len() {
        if bytes[at] == b'}' {
            return at;
        }
    }
    bytes.len()
}

// What stands between `%{` and `}`: a date, or else a field, or neither.
fn read_piece(alloc: Global, inner: &str) -> Result<Option<TemplatePart>, AllocError>
    ensures { IfOk result (λ piece. piece ≡ template_part_of inner.now) }
{
    if let Some(piece) = read_date(alloc, inner)? {
        return Ok(Some(piece));
    }
    read_field(alloc, inner)
}

fn read_date(alloc: Global, inner: &str) -> Result<Option<TemplatePart>, AllocError>
    ensures { IfOk result (λ piece. piece ≡ date_part_of inner.now) }
{
    if inner.is_empty() || inner.as_bytes()[0] != b'+' {
        return Ok(None);
    }
    match read_format(alloc, &inner[1..])? {
        Some(parts) => Ok(Some(TemplatePart::Date(parts, Text::of(alloc, inner)?))),
        None => Ok(None),
    }
}

fn read_field(alloc: Global, inner: &str) -> Result<Option<TemplatePart>, AllocError>
    ensures { IfOk result (λ piece. piece ≡ field_part_of inner.now) }
{
    match path_in(alloc, inner)? {
        Some(path) => Ok(Some(TemplatePart::Field(path, Text::of(alloc, inner)?))),
        None => Ok(None),
    }
}
