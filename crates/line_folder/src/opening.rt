// A folder that is opened.
ghost use Rattle.std.specs.Prelude.{◌≡◌, [], IsTrue, Ok, Err, IfOk};
ghost use Rattle.io_traits.specs.Counts.{HasCause};
ghost use Rattle.io_traits.specs.Folders.{folder_start};
ghost use Rattle.io_traits.specs.Moments.{EachMoment, LeavesBeside, ReadsBeside};
ghost use Rattle.io_traits.specs.declared.queue_faults.Damage.{Damage as DamageValue};
ghost use Rattle.io_traits.specs.declared.queue_faults.QueueFault.TheVariants as f;
ghost use Rattle.dead_letters.specs.Found.{found};
ghost use Rattle.dead_letters.specs.Opening.{IsCleared, LeavesHeld};
ghost use Rattle.dead_letters.specs.Ready.{held_now};
ghost use Rattle.dead_letters.specs.Views.{IsOwn};
ghost use Rattle.queue_files.specs.Folders.{names_in};
ghost use Rattle.queue_files.specs.Marks.{read_in};
ghost use Rattle.queue_core.specs.Opening.{IsQueueOpened, OpensFolder};
ghost use Rattle.queue_core.specs.Opens.{IsReady};
ghost use Rattle.line_folder.specs.Openings.{FindsDamage, IsOfEither, KeepsLetters, OpensInTurn};
ghost use Rattle.line_folder.specs.Readiness.{IsFolderReady};

use crate::folder::LineFolder;
use io_traits::{QueueFault, Store};
use line_outputs::StoredOutputs;
use queue_core::{Limits, Queue};
use settings_lines::Policy;
use std::alloc::Global;

impl LineFolder {
    /// Opens the queue in a folder, whose path ends with a slash, and then its dead letters. No output file is open
    /// yet.
    ///
    /// The answers are those of [`queue_core::Queue::open_on`] and of [`line_outputs::StoredOutputs::open_on`]; behind an
    /// error the folder can be opened again.
    pub fn open_on<S: Store>(
        alloc: Global,
        store: &mut S,
        folder: &str,
        limits: Limits,
        limit: u64,
        policy: Policy,
    ) -> Result<LineFolder, QueueFault>
        requires { folder_start folder.now ≡ folder.now }
        ensures ready { IfOk result (λ l. IsFolderReady S.Store l store.new) }

        // The queue has the unread rows that the folder holds as the store reads, and the store holds it.
        ensures queue { IfOk result (λ l. IsTrue S.tells → IsQueueOpened folder.now limits
            (read_in (names_in folder.now) (S.seen store.old)) l.queue) }
        ensures opens { IfOk result (λ l. OpensFolder S.Store folder.now limits store.old
            store.new l.queue) }

        // The letters hold what the folder holds of them, and no output file is open.
        ensures files { IfOk result (λ l.
            l.outputs.files ≡ record { folder = folder.now; files = [] }) }
        ensures letters { IfOk result (λ l. (l.outputs.letters.folder ≡ folder.now)
            × (l.outputs.letters.limit ≡ limit) × (l.outputs.letters.policy ≡ policy)) }
        ensures held { IfOk result (λ l. IsTrue S.tells
            → found folder.now (S.seen store.old)
            ≡ Ok (held_now l.outputs.letters (S.seen store.new))) }
        ensures cleared { IfOk result (λ l. IsTrue S.tells
            → IsCleared l.outputs.letters (S.seen store.new)) }

        // A damage is the first that is found in the queue, or that of the letters.
        ensures damaged { (damage : DamageValue) → result ≡ Err (f.Damaged damage) → IsTrue S.tells
            → FindsDamage folder.now (S.seen store.old) damage }

        // At any moment a stop leaves the queue, and the letters, as the openings of both leave them.
        ensures in_turn { OpensInTurn S.Store folder.now store.old store.new }
        ensures letters_kept { KeepsLetters S.Store folder.now store.old store.new }

        // Other files read as before, and a stop leaves them as it might have left them.
        ensures beside { ReadsBeside S.Store (IsOfEither folder.now) store.old store.new }
        ensures beside_moments { EachMoment S.Store store.old store.new
            (LeavesBeside S.Store (IsOfEither folder.now) store.old) }

        ensures memory { result ≡ Err f.Memory → IsTrue S.tells
            → found folder.now (S.seen store.new) ≡ found folder.now (S.seen store.old) }
        ensures cause { HasCause (S.faults store.old) (S.faults store.new) (result ≡ Err f.Fault) }
    {
        match Queue::open_on(alloc, store, folder, limits) {
            Ok(queue) => open_outputs(alloc, store, folder, limit, policy, queue),
            Err(fault) => Err(fault),
        }
    }
}

/// Opens the dead letters of a folder whose queue is open.
fn open_outputs<S: Store>(
    alloc: Global,
    store: &mut S,
    folder: &str,
    limit: u64,
    policy: Policy,
    queue: Queue,
) -> Result<LineFolder, QueueFault>
    requires path { folder_start folder.now ≡ folder.now }
    requires same { queue.folder ≡ folder.now }
    requires ready { IsReady S.Store queue store.old }
    ensures ready { IfOk result (λ l. IsFolderReady S.Store l store.new) }
    ensures queue { IfOk result (λ l. l.queue ≡ queue) }
    ensures files { IfOk result (λ l.
        l.outputs.files ≡ record { folder = folder.now; files = [] }) }
    ensures letters { IfOk result (λ l. (l.outputs.letters.folder ≡ folder.now)
        × (l.outputs.letters.limit ≡ limit) × (l.outputs.letters.policy ≡ policy)) }
    ensures held { IfOk result (λ l. IsTrue S.tells
        → found folder.now (S.seen store.old)
        ≡ Ok (held_now l.outputs.letters (S.seen store.new))) }
    ensures cleared { IfOk result (λ l. IsTrue S.tells
        → IsCleared l.outputs.letters (S.seen store.new)) }
    ensures damaged { (damage : DamageValue) → result ≡ Err (f.Damaged damage) → IsTrue S.tells
        → found folder.now (S.seen store.old) ≡ Err damage }
    ensures any_moment { EachMoment S.Store store.old store.new
        (LeavesHeld S.Store folder.now store.old) }
    ensures beside { ReadsBeside S.Store (IsOwn folder.now) store.old store.new }
    ensures memory { result ≡ Err f.Memory → IsTrue S.tells
        → found folder.now (S.seen store.new) ≡ found folder.now (S.seen store.old) }
    ensures cause { HasCause (S.faults store.old) (S.faults store.new) (result ≡ Err f.Fault) }
{
    match StoredOutputs::open_on(alloc, store, folder, limit, policy) {
        Ok(outputs) => Ok(LineFolder { queue, outputs }),
        Err(fault) => Err(fault),
    }
}
