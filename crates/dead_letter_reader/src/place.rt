// The place up to which letters were answered.
ghost use Rattle.std.specs.Prelude.{◌≡◌, IfOk};
ghost use Rattle.dead_letter_reader.specs.Places.{is_behind, place_in, rows_behind};

use dead_letters::{Counted, DeadRow, DeadRows};
use event_tree::Items;
use std::alloc::AllocError;

/// A place in a queue of dead letters.
#[derive(Clone, Copy, Debug, PartialEq, Eq)]
pub(crate) struct LetterPosition {
    /// The number of a segment.
    pub(crate) segment: u32,
    /// How many bytes of it.
    pub(crate) length: u64,
}

/// The place that its file says, if any; or what was found there and what was expected.
pub(crate) fn place_in(counted: Counted) -> Result<Option<LetterPosition>, (u64, u64)>
    ensures { result ≡ place_in counted }
{
    match counted {
        Counted::Nothing => Ok(None),
        Counted::Count(_, segments) => {
            if segments.first != segments.last {
                return Err((u64::from(segments.first), u64::from(segments.last)));
            }
            Ok(Some(LetterPosition {
                segment: segments.last,
                length: segments.length,
            }))
        }
        Counted::Damaged(found, expected) => Err((found, expected)),
    }
}

// Whether a letter stands behind a place.
fn is_behind(place: Option<LetterPosition>, row: &DeadRow) -> bool
    ensures { result ≡ is_behind place row.now }
{
    match place {
        None => true,
        Some(place) => {
            place.segment < row.segment
                || (place.segment == row.segment && place.length < row.length)
        }
    }
}

/// The letters behind a place. An error is want of memory.
pub(crate) fn rows_behind(
    place: Option<LetterPosition>,
    rows: DeadRows,
) -> Result<DeadRows, AllocError>
    ensures { IfOk result (λ left. left ≡ rows_behind place rows) }
{
    let mut left = Items::new(rows.allocator());
    for row in rows.into_vec() {
        if is_behind(place, &row) {
            left.push(row)?;
        }
    }
    Ok(left)
}
