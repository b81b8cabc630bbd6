// Runs of calls by which files change safely, whatever the format of a file. What a stop may leave is said
// with the premise that no frame stands by chance.
ghost use Rattle.std.specs.Prelude.{◌≡◌, ◌≤◌, IsTrue, IsErr, OnOk};
ghost use Rattle.io_traits.specs.Counts.{HasCause};
ghost use Rattle.io_traits.specs.Reads.{file_length};
ghost use Rattle.io_traits.specs.Moments.{EachMoment, LeavesBeside};
ghost use Rattle.io_traits.specs.Tails.{HoldsAppended, AddsToTail, SettlesAppended, HoldsCut, SettlesFront, SettlesSlot, SlotFollows};

use crate::Failed;
use crate::stores::Store;

/// Appends bytes to a file, be its tail settled or not, and settles nothing. A stop leaves no frame
/// behind the settled front but frames of the tail with these bytes.
pub fn append_to_tail<S: Store>(store: &mut S, name: &str, bytes: &[u8]) -> Result<(), Failed>
    ensures tail { OnOk result
        (AddsToTail S.Store name.now bytes.now store.old store.new) }
    ensures any_moment { HoldsAppended S.Store name.now bytes.now store.old store.new }
    ensures beside { EachMoment S.Store store.old store.new
        (LeavesBeside S.Store (λ n. n ≡ name.now) store.old) }
    ensures cause { HasCause (S.faults store.old) (S.faults store.new) (IsErr result) }
{
    store.append(name, bytes)
}

/// Appends bytes to a file, and settles them with its tail. A stop leaves no frame behind the settled
/// front but frames of the tail with these bytes.
pub fn append_and_settle<S: Store>(store: &mut S, name: &str, bytes: &[u8]) -> Result<(), Failed>
    ensures settled { OnOk result
        (SettlesAppended S.Store name.now bytes.now store.old store.new) }
    ensures any_moment { HoldsAppended S.Store name.now bytes.now store.old store.new }
    ensures beside { EachMoment S.Store store.old store.new
        (LeavesBeside S.Store (λ n. n ≡ name.now) store.old) }
    ensures cause { HasCause (S.faults store.old) (S.faults store.new) (IsErr result) }
{
    store.append(name, bytes)?;
    store.sync()
}

/// Cuts a file to its settled front, and settles that. A stop leaves no frame behind the front but
/// frames of the tail.
pub fn cut_and_settle<S: Store>(store: &mut S, name: &str, length: u64) -> Result<(), Failed>
    requires { IsTrue S.tells → length ≤ file_length (S.seen store.old name.now) }
    ensures settled { OnOk result (SettlesFront S.Store name.now length store.old store.new) }
    ensures any_moment { HoldsCut S.Store name.now length store.old store.new }
    ensures beside { EachMoment S.Store store.old store.new
        (LeavesBeside S.Store (λ n. n ≡ name.now) store.old) }
    ensures cause { HasCause (S.faults store.old) (S.faults store.new) (IsErr result) }
{
    store.cut(name, length)?;
    store.sync()
}

/// Settles all files, then writes a slot that says so of another file, and settles the slot. Wherever
/// the slot stands whole after a stop, it stood there before, or that file is at rest.
pub fn settle_and_mark<S: Store>(
    store: &mut S,
    head: &str,
    at: u64,
    slot: &[u8],
) -> Result<(), Failed>
    requires { IsTrue S.tells → at ≤ file_length (S.seen store.old head.now) }
    ensures settled { OnOk result
        (SettlesSlot S.Store head.now at slot.now store.old store.new) }
    ensures any_moment { SlotFollows S.Store head.now at slot.now store.old store.new }
    ensures beside { EachMoment S.Store store.old store.new
        (LeavesBeside S.Store (λ n. n ≡ head.now) store.old) }
    ensures cause { HasCause (S.faults store.old) (S.faults store.new) (IsErr result) }
{
    store.sync()?;
    store.write_at(head, at, slot)?;
    store.sync()
}
