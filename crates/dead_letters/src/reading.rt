// The body of a letter, read from the front.
ghost use Rattle.std.specs.Prelude.{◌≤◌, drop, length, IfOk};
ghost use Rattle.crc_frame.specs.Gives.{Gives};
ghost use Rattle.element_code.specs.RowBodies.{short_event_at};
ghost use Rattle.dead_letters.specs.Records.{letter_at, moment_at, text_at};

use crate::letter::{DeadLetter, LENGTH_BYTES};
use crate::moment::{MOMENT_LEN, moment_in};
use crc_frame::{Stop, read_front, read_run};
use element_code::{ElementFault, decode};
use event_tree::{Event, Instant, Text};
use std::alloc::Global;
use std::str;

fn text_of(alloc: Global, bytes: &[u8]) -> Result<(Text, &[u8]), Stop>
    ensures { Gives (λ x. (x.0, x.1.now)) result (text_at bytes.now) }
{
    let (own, behind) = read_run(bytes)?;
    let Ok(text) = str::from_utf8(own) else {
        return Err(Stop::Left(bytes.len() - LENGTH_BYTES));
    };
    Ok((Text::of(alloc, text)?, behind))
}

// The moment that begins these bytes.
fn moment_of(bytes: &[u8]) -> Result<Instant, Stop>
    ensures moment { Gives (λ t. (t, drop 12 bytes.now)) result (moment_at bytes.now) }
    ensures whole { IfOk result (λ _. 12 ≤ length bytes.now) }
{
    let (own, _behind) = read_front(bytes, MOMENT_LEN)?;
    match moment_in(own) {
        Some(moment) => Ok(moment),
        None => Err(Stop::Left(bytes.len())),
    }
}

fn event_of(alloc: Global, bytes: &[u8]) -> Result<Event, Stop>
    ensures { Gives (λ e. e) result (short_event_at bytes.now) }
{
    match decode(alloc, bytes) {
        Ok(event) => Ok(event),
        Err(ElementFault::At(at)) => Err(Stop::Left(bytes.len() - at)),
        Err(ElementFault::Memory) => Err(Stop::Memory),
    }
}

// The event behind a moment.
fn event_behind(alloc: Global, bytes: &[u8]) -> Result<Event, Stop>
    requires { 12 ≤ length bytes.now }
    ensures { Gives (λ e. e) result (short_event_at (drop 12 bytes.now)) }
{
    let (_moment, event) = bytes.split_at(MOMENT_LEN);
    event_of(alloc, event)
}

// The letter that all of the bytes spell.
#[tactic(auto, unfolding(crate::specs::Records::letter_at))]
pub(crate) fn letter_of(alloc: Global, bytes: &[u8]) -> Result<DeadLetter, Stop>
    ensures { Gives (λ l. l) result (letter_at bytes.now) }
{
    let (kind, after_kind) = text_of(alloc, bytes)?;
    let (id, after_id) = text_of(alloc, after_kind)?;
    let (reason, after_reason) = text_of(alloc, after_id)?;
    let moment = moment_of(after_reason)?;
    let event = event_behind(alloc, after_reason)?;
    Ok(DeadLetter {
        kind,
        id,
        reason,
        moment,
        event,
    })
}
