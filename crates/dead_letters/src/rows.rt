// Letters with their places, and without.
ghost use Rattle.std.specs.Prelude.{◌≡◌, ◌<◌, ◌^◌, length, IfOk};
ghost use Rattle.dead_letters.specs.Letters.{AreLetters, segment_bytes};
ghost use Rattle.dead_letters.specs.Rows.{placed, without_places};

use crate::letter::{DeadLetter, Letters};
use event_tree::Items;
use std::alloc::{AllocError, Global};

/// A letter of a queue, with the place where its record ends.
#[derive(Drop)]
pub struct DeadRow {
    /// The letter, with its moment.
    pub letter: DeadLetter,
    /// The number of the segment that has it.
    pub segment: u32,
    /// How many bytes that segment has up to the end of the letter's record.
    pub length: u64,
}

/// Dead letters in order, with their places.
pub type DeadRows = Items<DeadRow>;

/// The letters that a segment has, with their places. An error is want of memory.
pub(crate) fn placed(alloc: Global, number: u32, letters: Letters) -> Result<DeadRows, AllocError>
    requires are { AreLetters letters }
    requires room { length (segment_bytes letters) < 2 ^ 63 }
    ensures { IfOk result (λ rows. rows ≡ placed number 0 letters) }
{
    let mut rows = Items::with_capacity(alloc, letters.len())?;
    let mut length = 0;
    for letter in letters.into_vec() {
        length += letter.record_len();
        let segment = number;
        rows.push(DeadRow {
            letter,
            segment,
            length,
        })?;
    }
    Ok(rows)
}

/// The letters alone, which are moved. An error is want of memory.
pub(crate) fn without_places(rows: DeadRows) -> Result<Letters, AllocError>
    ensures { IfOk result (λ letters. letters ≡ without_places rows) }
{
    let mut letters = Items::with_capacity(rows.allocator(), rows.len())?;
    for row in rows.into_vec() {
        letters.push(row.letter)?;
    }
    Ok(letters)
}
