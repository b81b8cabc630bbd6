// Rows of a queue: an event behind the input that it came by.
ghost use Rattle.std.specs.Prelude.{◌≡◌, ◌≢◌, ◌+◌, ◌++◌, ◌≤◌, length, Ok, Err, OnOk, OnErr, IfOk};
ghost use Rattle.event_tree.specs.Events.{event_size};
ghost use Rattle.crc_frame.specs.Gives.{Gives};
ghost use Rattle.element_code.specs.Adds.{Writes};
ghost use Rattle.element_code.specs.Gives.{IsAt};
ghost use Rattle.element_code.specs.RowBodies.{RowBody, ReadsEachRow, IsRowRefusedAt, row_spelling, short_run_at, origin_at, short_event_at, row_at};

use crate::decoding::MOST_BYTES;
use crate::encoding::{add_event, add_key};
use crate::fault::ElementFault;
use crate::reading::event_of;
use crate::utf8::text_of;
use crc_frame::{Stop, read_front, read_u32};
use event_tree::{Event, Text};
use std::alloc::{AllocError, Global};

/// The input of a row.
#[derive(Drop)]
pub enum Origin {
    /// The row was written before rows named their inputs.
    Unknown,
    /// The id that the input had when the row was accepted.
    Id(Text),
}

/// A row that names its input.
#[derive(Drop)]
pub struct Row {
    /// The id of the input, 1 to 255 bytes of UTF-8.
    pub origin: Text,
    /// The event of the row.
    pub event: Event,
}

/// How many bytes the length of an origin takes.
const LENGTH_BYTES: usize = 4;

/// How many bytes an origin may have.
const MOST_ORIGIN_BYTES: u32 = 255;

/// Appends the one spelling of a row: the origin behind its length in 4 bytes, and the event as `encode`
/// spells it; `decode_row` reads it as the same row. Want of memory leaves the bytes as they were.
///
/// It asks for memory once, and walks the event once, with at most 128 levels of recursion.
pub fn encode_row(origin: &str, event: &Event, to: &mut Vec<u8>) -> Result<(), AllocError>
    requires some { 1 ≤ length origin.now }
    requires short { length origin.now ≤ 255 }
    ensures ok { OnOk result (to.new.items ≡ to.old.items ++ row_spelling origin.now event.now) }
    ensures err { OnErr result (to.new.items ≡ to.old.items) }
    ensures size { length (row_spelling origin.now event.now)
        ≡ 4 + length origin.now + event_size event.now }
    ensures body { RowBody (row_spelling origin.now event.now) origin.now event.now }
{
    to.reserve(row_len(origin, event))?;
    let length = to.len();
    let written = add_row(to, origin, event);
    if written.is_err() {
        to.truncate(length);
    }
    written
}

// The length of the spelling of a row.
fn row_len(origin: &str, event: &Event) -> usize
    requires some { 1 ≤ length origin.now }
    requires short { length origin.now ≤ 255 }
    ensures sum { result ≡ 4 + length origin.now + event_size event.now }
    ensures size { length (row_spelling origin.now event.now) ≡ result }
    ensures body { RowBody (row_spelling origin.now event.now) origin.now event.now }
{
    LENGTH_BYTES + origin.len() + event.size() as usize
}

fn add_row(to: &mut Vec<u8>, origin: &str, event: &Event) -> Result<(), AllocError>
    ensures { Writes result (row_spelling origin.now event.now) to.old.items to.new.items }
{
    add_key(to, origin)?;
    add_event(to, event)
}

/// The row of which these bytes are the one spelling.
///
/// A fault is where the bytes stop being the body of a row: at their end where the length of the origin
/// or the origin is cut, at 0 for a length that isn't one from 1 to 255, at 4 for an origin that isn't
/// UTF-8, and behind it where `decode` finds the fault of an event. The limit of 16,777,216 bytes counts
/// the event alone.
pub fn decode_row(alloc: Global, bytes: &[u8]) -> Result<Row, ElementFault>
    // What is read has this body.
    ensures body { IfOk result (λ row. RowBody bytes.now row.origin row.event) }

    // The row that has this body is read, unless memory runs out.
    ensures only { ReadsEachRow result bytes.now }

    // A fault is where the bytes stop being the body of a row.
    ensures at { IsAt result (IsRowRefusedAt bytes.now) }
{
    match row_of(alloc, bytes) {
        Ok(row) => Ok(row),
        Err(Stop::Left(left)) => Err(ElementFault::At(bytes.len() - left)),
        Err(Stop::Memory) => Err(ElementFault::Memory),
    }
}

fn row_of(alloc: Global, bytes: &[u8]) -> Result<Row, Stop>
    ensures { Gives (λ row. row) result (row_at bytes.now) }
{
    let (own, body) = origin_of(bytes)?;
    let origin = Text::of(alloc, own)?;
    let event = short_event_of(alloc, body)?;
    Ok(Row { origin, event })
}

// Bytes behind their length, which is one from 1 to 255.
fn short_run_of(bytes: &[u8]) -> Result<(&[u8], &[u8]), Stop>
    ensures reads { Gives (λ x. (x.0.now, x.1.now)) result (short_run_at bytes.now) }
    ensures memory { result ≢ Err Stop.Memory }
{
    let (length, rest) = read_u32(bytes)?;
    if length == 0 || length > MOST_ORIGIN_BYTES {
        return Err(Stop::Left(bytes.len()));
    }
    read_front(rest, length as usize)
}

// The origin of a row, and the bytes behind it.
pub(crate) fn origin_of(bytes: &[u8]) -> Result<(&str, &[u8]), Stop>
    ensures reads { Gives (λ x. (x.0.now, x.1.now)) result (origin_at bytes.now) }
    ensures memory { result ≢ Err Stop.Memory }
{
    let (own, behind) = short_run_of(bytes)?;
    let Some(origin) = text_of(own) else {
        return Err(Stop::Left(bytes.len() - LENGTH_BYTES));
    };
    Ok((origin, behind))
}

// An event of no more bytes than one may have.
fn short_event_of(alloc: Global, bytes: &[u8]) -> Result<Event, Stop>
    ensures { Gives (λ e. e) result (short_event_at bytes.now) }
{
    if bytes.len() > MOST_BYTES {
        return Err(Stop::Left(bytes.len() - MOST_BYTES));
    }
    event_of(alloc, bytes)
}
