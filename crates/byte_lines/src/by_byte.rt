// The lines of bytes that are all there, read byte by byte: the plain way beside `LineReader`.
ghost use Rattle.std.specs.Prelude.{◌≡◌, ◌<◌, ◌++◌, ◌∷◌, ℕ, Bool, List, map, IfOk, OnOk};
ghost use Rattle.std.specs.String.{string_bytes};
ghost use Rattle.byte_lines.specs.Split.{split_from};
ghost use Rattle.byte_lines.specs.Lines.{texts_of};
ghost use Rattle.byte_lines.specs.Unread.{lines_left, unread};

use crate::find::without_carriage_return;
use crate::text_of_bytes;
use std::alloc::{AllocError, Global};

/// The lines of bytes that are all there, with the one that an end makes of what is left, where they have one. A
/// line has at most `limit` bytes.
///
/// It goes byte by byte: for a comparison, or for a few bytes. `LineReader` gives the same lines faster. The only
/// error is want of memory.
#[tactic(auto, unfolding(crate::specs::Split::split_of))]
pub fn lines_of_bytes(
    alloc: Global,
    limit: usize,
    bytes: &[u8],
    ended: bool,
) -> Result<Vec<String>, AllocError>
    requires { 0 < limit }
    ensures { IfOk result
        (λ lines. map string_bytes lines.items ≡ lines_left (unread limit bytes.now ended)) }
{
    let mut lines = Vec::new(alloc);
    let mut held = Vec::new(alloc);
    for &byte in bytes {
        push_byte(alloc, limit, byte, &mut held, &mut lines)?;
    }
    if ended && !held.is_empty() {
        lines.push(text_of_bytes(alloc, &held)?)?;
    }
    Ok(lines)
}

/// Takes a byte to those of the line that has come so far, and moves the line to the others where it is whole.
fn push_byte(
    alloc: Global,
    limit: usize,
    byte: u8,
    held: &mut Vec<u8>,
    lines: &mut Vec<String>,
) -> Result<(), AllocError>
    ensures { OnOk result ((ended : Bool) (later : List ℕ)
        → map string_bytes lines.new.items ++ texts_of ended (split_from limit held.new.items later)
        ≡ map string_bytes lines.old.items ++ texts_of ended (split_from limit held.old.items (byte ∷ later))) }
{
    if byte == b'\n' {
        lines.push(text_of_bytes(alloc, without_carriage_return(held))?)?;
        held.clear();
        return Ok(());
    }
    held.push(byte)?;
    if held.len() == limit {
        lines.push(text_of_bytes(alloc, held)?)?;
        held.clear();
    }
    Ok(())
}
