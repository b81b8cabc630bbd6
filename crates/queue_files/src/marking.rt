// Recording in checkpoint files how far pages are acknowledged.
ghost use Rattle.std.specs.Prelude.{◌≡◌, IsTrue, OnOk, IsErr};
ghost use Rattle.io_traits.specs.Counts.{HasCause};
ghost use Rattle.io_traits.specs.Moments.{EachMoment};
ghost use Rattle.queue_files.specs.Others.{IsMarked, KeepsOthers};
ghost use Rattle.queue_files.specs.Ready.{MarkKeeps, MarkRecords};
ghost use Rattle.queue_files.specs.Writes.{due_of, writes_of, CanWrite, MayLeave, Wrote, MayStop, Settled};

use io_traits::{Failed, PageState, Store};
use plain_data::Text;
use slot_files::Checkpoint;

/// What is to be recorded of a page in its checkpoint file.
#[derive(Drop)]
pub struct Mark {
    /// The path of the checkpoint file.
    pub file: Text,
    /// The turn of the slot.
    pub turn: u64,
    /// What the slot says.
    pub state: PageState,
    /// Whether it says anything new: else nothing is written.
    pub due: bool,
}

// Writes the slots that are due, one behind the other, and settles nothing.
fn write_marks<S: Store>(store: &mut S, marks: &[Mark]) -> Result<(), Failed>
    requires { IsTrue S.tells → CanWrite (S.seen store.old) (writes_of marks.now) }
    ensures images { EachMoment S.Store store.old store.new
        (MayLeave S.Store store.old (writes_of marks.now)) }
    ensures wrote { OnOk result (IsTrue S.tells
        → Wrote (writes_of marks.now) (S.seen store.old) (S.seen store.new)) }
    ensures beside { KeepsOthers S.Store (IsMarked marks.now) store.old store.new }
    ensures cause { HasCause (S.faults store.old) (S.faults store.new) (IsErr result) }
{
    for mark in marks {
        match write_mark(store, mark) {
            Ok(()) => {}
            Err(failed) => return Err(failed),
        }
    }
    Ok(())
}

// Writes the slot, if it is due.
fn write_mark<S: Store>(store: &mut S, mark: &Mark) -> Result<(), Failed>
    requires { IsTrue S.tells → CanWrite (S.seen store.old) (due_of mark.now) }
    ensures images { EachMoment S.Store store.old store.new
        (MayLeave S.Store store.old (due_of mark.now)) }
    ensures wrote { OnOk result (IsTrue S.tells
        → Wrote (due_of mark.now) (S.seen store.old) (S.seen store.new)) }
    ensures beside { KeepsOthers S.Store (λ n. n ≡ mark.now.file) store.old store.new }
    ensures cause { HasCause (S.faults store.old) (S.faults store.new) (IsErr result) }
{
    if mark.due {
        Checkpoint::write_slot(store, mark.file.as_str(), mark.turn, &mark.state)
    } else {
        Ok(())
    }
}

/// Settles all files, writes the slots that are due, and settles those.
///
/// A stop at any moment leaves what it might have left before, or all else at rest and of the slots some,
/// of which each may be torn.
pub fn mark_pages<S: Store>(store: &mut S, marks: &[Mark]) -> Result<(), Failed>
    requires { IsTrue S.tells → CanWrite (S.seen store.old) (writes_of marks.now) }
    ensures any_moment { EachMoment S.Store store.old store.new
        (MayStop S.Store store.old (writes_of marks.now)) }
    ensures settled { OnOk result (Settled S.Store store.old (writes_of marks.now) store.new) }

    // Of a queue that is ready, with these marks: each moment keeps it, and then all of it is recorded.
    ensures keeps { MarkKeeps S.Store marks.now store.old store.new }
    ensures records { OnOk result (MarkRecords S.Store marks.now store.old store.new) }

    ensures beside { KeepsOthers S.Store (IsMarked marks.now) store.old store.new }
    ensures cause { HasCause (S.faults store.old) (S.faults store.new) (IsErr result) }
{
    store.sync()?;
    write_marks(store, marks)?;
    store.sync()
}
