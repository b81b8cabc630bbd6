// The checkpoint file of a page: its two slots, written and read.
ghost use Rattle.std.specs.Prelude.{◌≡◌, ◌≤◌, length, IsTrue, IsErr, Some, IfOk, OnOk};
ghost use Rattle.io_traits.specs.Counts.{HasCause};
ghost use Rattle.io_traits.specs.Reads.{bytes_of, file_length};
ghost use Rattle.crc_frame.specs.Slots.{place_of, with_slot, newest_slot, turn_of};
ghost use Rattle.io_traits.specs.Images.{TornFile};
ghost use Rattle.io_traits.specs.Calls.{ChangesNothing, ChangesOne};
ghost use Rattle.io_traits.specs.Moments.{EachMoment, LeavesBeside};
ghost use Rattle.slot_files.specs.Checkpoints.{slot_spelling, newest_in, version_at, at_first, stored_crc, computed_crc, slots_within, slots_of};
ghost use Rattle.slot_files.specs.CheckpointWrites.{ComesNext, LeavesOldOrNew};

use crate::checkpoint_slot::{
    SLOT_LEN, computed_crc, slot_of, state_in, stored_crc, turn_of, version_of,
};
use crate::slots::place_of;
use crc_frame::newest;
use io_traits::{Failed, PageState, Store};

/// What a checkpoint file says.
#[derive(Clone, Copy)]
pub struct Slots {
    /// The turn of the newest intact slot, and what it says of its page.
    pub newest: Option<(u64, PageState)>,
    /// The version of that slot; 0 where there is none.
    pub version: u16,
    /// How many bytes the file has.
    pub length: u64,
    /// The CRC-32 that stands in the slot at 0; 0 where the file ends within it.
    pub stored: u32,
    /// The CRC-32 of that slot as it is computed; 0 where the file ends within it.
    pub computed: u32,
    /// The turn of that slot; 0 where the file ends within it.
    pub turn: u64,
}

/// The checkpoint file of a page.
pub struct Checkpoint;

impl Checkpoint {
    /// Writes the slot of a turn, which says this of the page, at its place, and settles nothing.
    ///
    /// A stop at any moment leaves what the file said before or what the slot says, if the turn is the
    /// next one and the file was at rest.
    pub fn write_slot<S: Store>(
        store: &mut S,
        name: &str,
        turn: u64,
        state: &PageState,
    ) -> Result<(), Failed>
        requires { IsTrue S.tells → place_of 48 turn ≤ file_length (S.seen store.old name.now) }

        ensures written { OnOk result (IsTrue S.tells → S.seen store.new name.now
            ≡ Some (with_slot (place_of 48 turn) (slot_spelling turn state.now)
            (bytes_of (S.seen store.old name.now)))) }
        ensures says { OnOk result (IsTrue S.tells
            → ComesNext (bytes_of (S.seen store.old name.now)) turn
            → newest_in (bytes_of (S.seen store.new name.now)) ≡ Some (turn, state.now)) }

        ensures change { ChangesOne S.tells S.seen S.moment S.may_leave store.old store.new name.now
            (TornFile (place_of 48 turn) (slot_spelling turn state.now)) }
        ensures any_moment { LeavesOldOrNew S.Store name.now turn state.now store.old store.new }
        ensures beside { EachMoment S.Store store.old store.new
            (LeavesBeside S.Store (λ n. n ≡ name.now) store.old) }

        ensures cause { HasCause (S.faults store.old) (S.faults store.new) (IsErr result) }
    {
        let slot = slot_of(turn, state);
        store.write_at(name, place_of(SLOT_LEN, turn), &slot)
    }

    /// What a checkpoint file says: its newest intact slot, its length, and what is wanted to tell how it
    /// is damaged where no slot is intact. A missing file has no bytes.
    pub fn newest<S: Store>(store: &mut S, name: &str) -> Result<Slots, Failed>
        ensures slots { IfOk result (λ slots. IsTrue S.tells
            → slots ≡ slots_of (bytes_of (S.seen store.old name.now))) }
        ensures same { ChangesNothing S.tells S.seen S.moment S.may_leave store.old store.new }
        ensures cause { HasCause (S.faults store.old) (S.faults store.new) (IsErr result) }
    {
        let length = store.length(name)?.unwrap_or(0);
        let mut bytes = [0; 2 * SLOT_LEN];
        let count = store.read(name, 0, &mut bytes)?;
        Ok(slots_in(&bytes[..count], length))
    }
}

// The stored and the computed CRC-32 of the slot at 0, and its turn; zeros where the bytes end within it.
fn first_of(front: &[u8]) -> (u32, u32, u64)
    ensures { result ≡ (
      at_first stored_crc front.now,
      at_first computed_crc front.now,
      at_first turn_of front.now,
    ) }
{
    if front.len() < SLOT_LEN {
        return (0, 0, 0);
    }
    let slot = &front[..SLOT_LEN];
    (stored_crc(slot), computed_crc(slot), turn_of(slot))
}

// What the newest slot says, with its turn, and its version.
fn newest_of(front: &[u8]) -> (Option<(u64, PageState)>, u16)
    ensures { result ≡ (newest_in front.now, version_at front.now (newest_slot 48 front.now)) }
{
    let Some(slot) = newest(front, SLOT_LEN) else {
        return (None, 0);
    };
    let bytes = &front[slot.place..slot.place + SLOT_LEN];
    (Some((slot.turn, state_in(bytes))), version_of(bytes))
}

// What the front of a file says, of which this is the length.
fn slots_in(front: &[u8], len: u64) -> Slots
    ensures { result ≡ slots_within front.now len }
{
    let (stored, computed, turn) = first_of(front);
    let (newest, version) = newest_of(front);
    Slots {
        newest,
        version,
        length: len,
        stored,
        computed,
        turn,
    }
}
