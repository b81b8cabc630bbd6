// The element of a row as bytes.
ghost use Rattle.std.specs.Prelude.{◌≡◌, ◌+◌, ◌≤◌, ◌++◌, ℕ, length, OnOk, OnErr};
ghost use Rattle.event_tree.specs.Events.{event_size};
ghost use Rattle.crc_frame.specs.Frames.{frame_of};
ghost use Rattle.element_code.specs.Adds.{Writes};
ghost use Rattle.element_code.specs.RowBodies.{RowBody, row_spelling};
ghost use Rattle.queue_page.specs.Grammar.{IsElement, row_framed};

use crate::element::FRAME_LEN;
use crc_frame::{frame_crc, frame_head};
use element_code::encode_row;
use event_tree::Event;
use std::alloc::AllocError;

/// How many bytes the length of an origin takes.
const ORIGIN_LEN: u64 = 4;

/// Appends the element of a row in a page of version 2: its number, the length of its body, the body as
/// `encode_row` spells it, and the CRC-32 of all these. Want of memory leaves the bytes as they were.
///
/// It asks for memory once, and spells the body straight into its frame.
pub fn frame_row(
    number: u64,
    origin: &str,
    event: &Event,
    to: &mut Vec<u8>,
) -> Result<(), AllocError>
    requires some { 1 ≤ length origin.now }
    requires short { length origin.now ≤ 255 }
    ensures ok { OnOk result (to.new.items
        ≡ to.old.items ++ frame_of number (row_spelling origin.now event.now)) }
    ensures err { OnErr result (to.new.items ≡ to.old.items) }
    ensures size { length (frame_of number (row_spelling origin.now event.now))
        ≡ 20 + length origin.now + event_size event.now }
    ensures element { (place : ℕ) → IsElement 2 place
        (row_framed number origin.now event.now place)
        (frame_of number (row_spelling origin.now event.now)) }
{
    let length = to.len();
    let written = add_element(number, origin, event, body_len(origin, event), to);
    if written.is_err() {
        to.truncate(length);
    }
    written
}

// The length of the body of a row.
fn body_len(origin: &str, event: &Event) -> u64
    requires some { 1 ≤ length origin.now }
    requires short { length origin.now ≤ 255 }
    ensures sum { result ≡ 4 + length origin.now + event_size event.now }
    ensures size { length (row_spelling origin.now event.now) ≡ result }
    ensures body { RowBody (row_spelling origin.now event.now) origin.now event.now }
    ensures fits { result ≤ 16777475 }
{
    ORIGIN_LEN + origin.len() as u64 + event.size()
}

// Appends the element of a row whose body has so many bytes, or a part of it where memory runs out.
fn add_element(
    number: u64,
    origin: &str,
    event: &Event,
    body_len: u64,
    to: &mut Vec<u8>,
) -> Result<(), AllocError>
    requires some { 1 ≤ length origin.now }
    requires short { length origin.now ≤ 255 }
    requires size { length (row_spelling origin.now event.now) ≡ body_len }
    requires fits { body_len ≤ 16777475 }
    ensures { Writes result (frame_of number (row_spelling origin.now event.now))
        to.old.items to.new.items }
{
    let start = to.len();
    to.reserve((FRAME_LEN + body_len) as usize)?;
    to.extend_from_slice(&frame_head(number, body_len as u32))?;
    encode_row(origin, event, to)?;
    let crc = frame_crc(&to[start..]);
    to.extend_from_slice(&crc)
}
