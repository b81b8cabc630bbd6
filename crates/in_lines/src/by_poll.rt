// The events of polls that are all there, as the definition says it: the plain way beside the inputs.
ghost use Rattle.std.specs.Prelude.{◌≡◌, ◌<◌, ◌++◌, [], map, true, false, drop, length, ◌≤◌, if◌then◌else◌, IfOk, OnOk};
ghost use Rattle.std.specs.String.{string_bytes};
ghost use Rattle.in_lines.specs.Polls.{joined_with, ended_with, received_at};
ghost use Rattle.in_lines.specs.Events.{event_of, events_of};
ghost use Rattle.in_lines.specs.Given.{piece_of, polls_of};

use crate::event::line_event;
use crate::poll::{Piece, Poll};
use byte_lines::lines_of_bytes;
use event_tree::Value;
use plain_data::Instant;
use std::alloc::{AllocError, Global};

/// The events of the lines that some polls made whole, of at most `limit` bytes each, as the definition says it:
/// after each poll, the lines of all bytes so far that were no lines of those before it.
///
/// It takes time in proportion to the bytes times the polls: for a comparison. The only error is want of memory.
pub fn events_of_polls(
    alloc: Global,
    limit: usize,
    polls: &[Poll],
) -> Result<Vec<Value>, AllocError>
    requires { 0 < limit }
    ensures { IfOk result (λ events. events.items ≡ events_of limit (polls_of polls.now)) }
{
    let mut events = Vec::new(alloc);
    let mut bytes = Vec::new(alloc);
    let mut ended = false;
    for poll in polls {
        let before = lines_of_bytes(alloc, limit, &bytes, ended)?;
        ended = take_piece(&poll.piece, ended, &mut bytes)?;
        let lines = lines_of_bytes(alloc, limit, &bytes, ended)?;
        let new_lines = lines_behind(&lines, before.len());
        push_events(alloc, new_lines, poll.moment, &mut events)?;
    }
    Ok(events)
}

/// Takes a piece to the bytes so far, unless the input ended before. The answer says whether it has ended now.
fn take_piece(piece: &Piece, ended: bool, bytes: &mut Vec<u8>) -> Result<bool, AllocError>
    ensures ended { IfOk result
        (λ now. now ≡ (if ended then true else ended_with (piece_of piece.now) false)) }
    ensures bytes { let more = joined_with (piece_of piece.now) [] in
        OnOk result (bytes.new.items ≡ (if ended then bytes.old.items else bytes.old.items ++ more)) }
{
    if ended {
        return Ok(true);
    }
    match piece {
        Piece::Bytes(more) => {
            bytes.extend_from_slice(more)?;
            Ok(false)
        }
        Piece::End => Ok(true),
        Piece::Nothing => Ok(false),
    }
}

/// The lines behind so many.
fn lines_behind(lines: &[String], count: usize) -> &[String]
    requires { count ≤ length lines.now }
    ensures { result.now ≡ drop count lines.now }
{
    &lines[count..]
}

/// Adds the events of lines that a poll at `moment` made whole.
fn push_events(
    alloc: Global,
    lines: &[String],
    moment: Instant,
    events: &mut Vec<Value>,
) -> Result<(), AllocError>
    ensures { OnOk result (events.new.items ≡ events.old.items ++ map event_of
        (received_at moment (map string_bytes lines.now))) }
{
    for line in lines {
        events.push(line_event(alloc, line.as_str(), moment)?)?;
    }
    Ok(())
}
