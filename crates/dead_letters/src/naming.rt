// The file that names the segments of a queue.
ghost use Rattle.std.specs.Prelude.{◌≡◌, ◌≤◌, IsTrue, IsErr, length, IfOk, OnOk};
ghost use Rattle.io_traits.specs.Counts.{HasCause};
ghost use Rattle.io_traits.specs.Reads.{bytes_of, file_length};
ghost use Rattle.crc_frame.specs.Slots.{place_of};
ghost use Rattle.io_traits.specs.Calls.{ChangesNothing};
ghost use Rattle.io_traits.specs.Moments.{EachMoment, ReadsBeside};
ghost use Rattle.slot_files.specs.Changes.{AllRest, Alters};
ghost use Rattle.slot_files.specs.Slots.{ComesNext};
ghost use Rattle.dead_letters.specs.Segments.{AreOrdered, OldOrNewSegments, counted_in, said_by};
ghost use Rattle.dead_letters.specs.declared.segments.Counted.TheVariants.{Count};

use crate::segment_slot::{SLOT_LEN, segments_of, slot_of};
use crate::segments::{Counted, Segments};
use crc_frame::newest;
use io_traits::{Failed, Store};
use slot_files::{broken_slot, write_slot};

/// The segments that the file of this name says to count. A missing one says nothing.
pub fn read_segments<S: Store>(store: &mut S, name: &str) -> Result<Counted, Failed>
    ensures counted { IfOk result (λ counted. IsTrue S.tells
        → counted ≡ counted_in (bytes_of (S.seen store.old name.now))) }
    ensures order { IfOk result AreOrdered }
    ensures same { ChangesNothing S.tells S.seen S.moment S.may_leave store.old store.new }
    ensures cause { HasCause (S.faults store.old) (S.faults store.new) (IsErr result) }
{
    let mut bytes = [0; 2 * SLOT_LEN];
    let count = store.read(name, 0, &mut bytes)?;
    Ok(counted_in(&bytes[..count]))
}

/// Says in the slot of a turn which segments count, and settles all files.
///
/// A stop at any moment leaves what counted, or these segments, if the turn is the next one and the file
/// was at rest.
pub fn count_segments<S: Store>(
    store: &mut S,
    name: &str,
    turn: u64,
    segments: Segments,
) -> Result<(), Failed>
    requires order { segments.first ≤ segments.last }
    requires room { IsTrue S.tells → place_of 32 turn ≤ file_length (S.seen store.old name.now) }
    ensures counted { OnOk result (IsTrue S.tells
        → ComesNext 32 (bytes_of (S.seen store.old name.now)) turn
        → counted_in (bytes_of (S.seen store.new name.now)) ≡ Count turn segments) }
    ensures settled { OnOk result (AllRest S.Store store.new) }
    ensures any_moment { EachMoment S.Store store.old store.new
        (Alters S.Store name.now (OldOrNewSegments turn segments) store.old) }
    ensures beside { ReadsBeside S.Store (λ n. n ≡ name.now) store.old store.new }
    ensures cause { HasCause (S.faults store.old) (S.faults store.new) (IsErr result) }
{
    let slot = slot_of(turn, segments);
    write_slot(store, name, turn, &slot)
}

// What the front of such a file says, up to its two slots.
fn counted_in(front: &[u8]) -> Counted
    ensures { result ≡ counted_in front.now }
{
    if let Some(slot) = newest(front, SLOT_LEN) {
        let bytes = &front[slot.place..slot.place + SLOT_LEN];
        return said_by(slot.turn, segments_of(bytes));
    }
    if front.len() <= SLOT_LEN {
        return Counted::Nothing;
    }
    let (found, expected) = broken_slot(&front[..SLOT_LEN]);
    Counted::Damaged(found, expected)
}

// What a slot says of these segments.
fn said_by(turn: u64, segments: Segments) -> Counted
    ensures { result ≡ said_by turn segments }
{
    if segments.last < segments.first {
        return Counted::Damaged(u64::from(segments.first), u64::from(segments.last));
    }
    Counted::Count(turn, segments)
}
