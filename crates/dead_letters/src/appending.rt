// What an append does to the files of a queue.
ghost use Rattle.std.specs.Prelude.{◌≡◌, ◌≤◌, List, IsTrue, IsErr, Contains, length, OnOk};
ghost use Rattle.std.specs.List.{sum};
ghost use Rattle.io_traits.specs.Counts.{HasCause};
ghost use Rattle.io_traits.specs.Reads.{file_length};
ghost use Rattle.crc_frame.specs.Slots.{place_of};
ghost use Rattle.io_traits.specs.Moments.{ReadsBeside};
ghost use Rattle.dead_letters.specs.Plans.{IsPlan};
ghost use Rattle.dead_letters.specs.Ready.{AppendLeaves, IsAppended, IsReady};
ghost use Rattle.dead_letters.specs.Views.{DeadQueue, IsOwn, behind_append};
ghost use Rattle.dead_letters.specs.declared.letter.DeadLetter.{DeadLetter as LetterValue};

use crate::append_plan::AppendPlan;
use crate::naming::count_segments;
use io_traits::{Failed, Store};
use slot_files::{append_each, remove_each};

/// Carries out an append: writes the records and syncs, names the segments that count and syncs, and removes
/// those that left. Takes no memory.
pub(crate) fn carry_out<S: Store>(store: &mut S, plan: &AppendPlan) -> Result<(), Failed>
    requires each { length plan.now.joining.pieces ≡ length plan.now.names.items }
    requires within { sum plan.now.joining.pieces ≤ length plan.now.joining.bytes.items }
    requires order { plan.now.segments.first ≤ plan.now.segments.last }
    requires apart { Contains plan.now.names.items plan.now.slot → ⊥ }
    requires room { IsTrue S.tells
        → place_of 32 plan.now.turn ≤ file_length (S.seen store.old plan.now.slot) }
    ensures appended { OnOk result ((q : DeadQueue) (letters : List LetterValue)
        → IsPlan q letters plan.now → IsReady S.Store q store.old
        → IsAppended S.Store q letters store.old (behind_append q letters) store.new) }
    ensures any_moment { (q : DeadQueue) (letters : List LetterValue)
        → IsPlan q letters plan.now → IsReady S.Store q store.old
        → AppendLeaves S.Store q letters store.old store.new }
    ensures beside { (q : DeadQueue) (letters : List LetterValue)
        → IsPlan q letters plan.now → IsReady S.Store q store.old
        → ReadsBeside S.Store (IsOwn q.folder) store.old store.new }
    ensures cause { HasCause (S.faults store.old) (S.faults store.new) (IsErr result) }
{
    let joining = &plan.joining;
    append_each(
        store,
        &plan.names,
        joining.pieces.as_slice(),
        &joining.bytes,
    )?;
    count_segments(store, plan.slot.as_str(), plan.turn, plan.segments)?;
    remove_each(store, &plan.gone)
}
