// New letters as records.
ghost use Rattle.std.specs.Prelude.{◌≡◌, ◌<◌, ◌^◌, ◌==◌, ◌&&◌, IsTrue, IfOk, get_or, length, map, nat_lt};
ghost use Rattle.std.specs.List.{sum};
ghost use Rattle.dead_letters.specs.Appends.{AllFit, kept_from};
ghost use Rattle.dead_letters.specs.Letters.{record_bytes, size_of};
ghost use Rattle.dead_letters.specs.Queues.{joined};

use crate::letter::DeadLetter;
use crate::writing::write_record;
use event_tree::Items;
use std::alloc::{AllocError, Global};

/// The records of letters, one behind the other.
#[derive(Drop)]
pub(crate) struct Records {
    pub(crate) bytes: Vec<u8>,
    /// How many bytes each one has.
    pub(crate) sizes: Items<u64>,
}

/// How many bytes the records of letters have in all. Takes no memory.
pub(crate) fn added_by(letters: &[DeadLetter]) -> u128
    requires { AllFit letters.now }
    ensures sum { result ≡ sum (map size_of letters.now) }
    ensures low { result < 2 ^ 127 }
{
    let mut added = 0;
    for letter in letters {
        added += u128::from(letter.record_len());
    }
    added
}

/// How many bytes the record of each letter has.
pub(crate) fn record_sizes(alloc: Global, letters: &[DeadLetter]) -> Result<Items<u64>, AllocError>
    requires { AllFit letters.now }
    ensures { IfOk result (λ sizes. sizes ≡ map size_of letters.now) }
{
    let mut sizes = Items::new(alloc);
    for letter in letters {
        sizes.push(letter.record_len())?;
    }
    Ok(sizes)
}

/// The records of the letters but those at these places, which rise.
pub(crate) fn kept_records(
    alloc: Global,
    letters: &[DeadLetter],
    newer: &[usize],
) -> Result<Records, AllocError>
    requires { AllFit letters.now }
    ensures bytes { IfOk result (λ r. r.bytes.items
        ≡ joined (map record_bytes (kept_from newer.now 0 letters.now))) }
    ensures sizes { IfOk result (λ r. r.sizes ≡ map size_of (kept_from newer.now 0 letters.now)) }
{
    let mut bytes = Vec::new(alloc);
    let mut sizes = Items::new(alloc);
    let mut next = 0;
    for (place, letter) in letters.iter().enumerate() {
        if is_next(newer, next, place) {
            next += 1;
        } else {
            write_record(letter, &mut bytes)?;
            sizes.push(letter.record_len())?;
        }
    }
    Ok(Records { bytes, sizes })
}

// Whether the next one of these places is this.
fn is_next(places: &[usize], next: usize, place: usize) -> bool
    ensures { result ≡ (nat_lt next (length places.now) && (get_or places.now next 0 == place)) }
{
    next < places.len() && places[next] == place
}
