// Writing the slot of a turn, and telling how a broken slot is damaged.
ghost use Rattle.std.specs.Prelude.{◌≡◌, ◌≤◌, ℕ, IsTrue, IsErr, Some, length, OnOk};
ghost use Rattle.io_traits.specs.Counts.{HasCause};
ghost use Rattle.io_traits.specs.Reads.{bytes_of, file_length};
ghost use Rattle.crc_frame.specs.Slots.{place_of, with_slot, IsSlotOf};
ghost use Rattle.io_traits.specs.Moments.{EachMoment, ReadsBeside};
ghost use Rattle.slot_files.specs.Changes.{Settled, Alters};
ghost use Rattle.slot_files.specs.Slots.{OldOrNew, broken_slot};

use byteorder::{BigEndian, ByteOrder};
use crc_frame::crc32;
use io_traits::{Failed, Store};

/// Where the slot of a turn stands.
pub(crate) fn place_of(width: usize, turn: u64) -> u64
    ensures { result ≡ place_of width turn }
{
    if turn % 2 == 0 { 0 } else { width as u64 }
}

/// Writes the slot of a turn at its place in a file of two slots that are as wide, and settles all files.
///
/// A stop at any moment leaves the newest slot that the file had, or this one, if its turn is the next one
/// and the file was at rest.
pub fn write_slot<S: Store>(store: &mut S, name: &str, turn: u64, slot: &[u8]) -> Result<(), Failed>
    requires wide { 14 ≤ length slot.now }
    requires slot { IsSlotOf (length slot.now) turn slot.now }
    requires place { IsTrue S.tells
        → place_of (length slot.now) turn ≤ file_length (S.seen store.old name.now) }
    ensures settled { OnOk result (Settled S.Store name.now (Some (with_slot
        (place_of (length slot.now) turn) slot.now (bytes_of (S.seen store.old name.now)))) store.new) }
    ensures any_moment { EachMoment S.Store store.old store.new (Alters S.Store name.now
        (OldOrNew (length slot.now) turn slot.now) store.old) }
    ensures beside { ReadsBeside S.Store (λ n. n ≡ name.now) store.old store.new }
    ensures cause { HasCause (S.faults store.old) (S.faults store.new) (IsErr result) }
{
    store.write_at(name, place_of(slot.len(), turn), slot)?;
    store.sync()
}

/// Why the slot at the beginning of a file without an intact slot isn't intact: what stands there, and what
/// ought to. These are its CRC-32 and the computed one, or, where they are equal, its turn, which has the
/// other place, and the turn before.
#[tactic(auto, unfolding(crate::specs::Slots::broken_slot))]
pub fn broken_slot(slot: &[u8]) -> (u64, u64)
    requires { 14 ≤ length slot.now }
    ensures { result ≡ broken_slot slot.now }
{
    let (covered, crc) = slot.split_at(slot.len() - CRC_LEN);
    let stored = BigEndian::read_u32(crc);
    let computed = crc32(covered);
    if stored != computed {
        return (u64::from(stored), u64::from(computed));
    }
    let turn = BigEndian::read_u64(&slot[2..]);
    (turn, turn.saturating_sub(1))
}

/// How many bytes a CRC-32 has.
const CRC_LEN: usize = 4;
