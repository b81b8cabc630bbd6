// Reading and recording the position that a position file holds.
ghost use Rattle.std.specs.Prelude.{◌≡◌, ◌≤◌, ℕ, IsTrue, IsErr, Some, length, IfOk, OnOk};
ghost use Rattle.io_traits.specs.Counts.{HasCause};
ghost use Rattle.io_traits.specs.Reads.{bytes_of, file_length};
ghost use Rattle.crc_frame.specs.Slots.{place_of};
ghost use Rattle.io_traits.specs.Calls.{ChangesNothing};
ghost use Rattle.io_traits.specs.Moments.{EachMoment, NowOrSynced, ReadsBeside};
ghost use Rattle.slot_files.specs.Changes.{AllRest, Alters};
ghost use Rattle.slot_files.specs.Positions.{recorded_in};
ghost use Rattle.slot_files.specs.PositionWrites.{IsNextTurn, OldOrNewPosition};
ghost use Rattle.slot_files.specs.declared.recorded.Recorded.TheVariants.{Position};

use crate::position_slot::{SLOT_LEN, position_of, slot_of};
use crate::recorded::Recorded;
use crate::{broken_slot, write_slot};
use crc_frame::newest;
use io_traits::{Failed, Store};

/// What the position file of this name records. A missing one records nothing.
pub fn read_position<S: Store>(store: &mut S, name: &str) -> Result<Recorded, Failed>
    ensures recorded { IfOk result (λ recorded. IsTrue S.tells
        → recorded ≡ recorded_in (bytes_of (S.seen store.old name.now))) }
    ensures same { ChangesNothing S.tells S.seen S.moment S.may_leave store.old store.new }
    ensures cause { HasCause (S.faults store.old) (S.faults store.new) (IsErr result) }
{
    let mut bytes = [0; 2 * SLOT_LEN];
    let count = store.read(name, 0, &mut bytes)?;
    Ok(recorded_in(&bytes[..count]))
}

/// Settles all files of the store, and then reads what the position file of this name records.
pub fn settle_and_read<S: Store>(store: &mut S, name: &str) -> Result<Recorded, Failed>
    ensures recorded { IfOk result (λ recorded. IsTrue S.tells
        → recorded ≡ recorded_in (bytes_of (S.seen store.old name.now))) }
    ensures reads { IsTrue S.tells → S.seen store.new ≡ S.seen store.old }
    ensures settled { OnOk result (AllRest S.Store store.new) }
    ensures any_moment { EachMoment S.Store store.old store.new (NowOrSynced S.Store store.old) }
    ensures cause { HasCause (S.faults store.old) (S.faults store.new) (IsErr result) }
{
    store.sync()?;
    read_position(store, name)
}

/// Records a position in the slot of a turn, and settles all files.
///
/// A stop at any moment leaves recorded what was, or this position, if the turn is the next one and the
/// file was at rest.
pub fn record_position<S: Store>(
    store: &mut S,
    name: &str,
    turn: u64,
    position: u64,
) -> Result<(), Failed>
    requires { IsTrue S.tells → place_of 24 turn ≤ file_length (S.seen store.old name.now) }
    ensures records { OnOk result (IsTrue S.tells
        → IsNextTurn (recorded_in (bytes_of (S.seen store.old name.now))) turn
        → recorded_in (bytes_of (S.seen store.new name.now)) ≡ Position turn position) }
    ensures settled { OnOk result (AllRest S.Store store.new) }
    ensures any_moment { EachMoment S.Store store.old store.new
        (Alters S.Store name.now (OldOrNewPosition turn position) store.old) }
    ensures beside { ReadsBeside S.Store (λ n. n ≡ name.now) store.old store.new }
    ensures cause { HasCause (S.faults store.old) (S.faults store.new) (IsErr result) }
{
    let slot = slot_of(turn, position);
    write_slot(store, name, turn, &slot)
}

// What the front of a position file records, up to its two slots.
fn recorded_in(front: &[u8]) -> Recorded
    ensures { result ≡ recorded_in front.now }
{
    if let Some(slot) = newest(front, SLOT_LEN) {
        let bytes = &front[slot.place..slot.place + SLOT_LEN];
        return Recorded::Position(slot.turn, position_of(bytes));
    }
    if front.len() <= SLOT_LEN {
        return Recorded::Nothing;
    }
    let (found, expected) = broken_slot(&front[..SLOT_LEN]);
    Recorded::Damaged(found, expected)
}
