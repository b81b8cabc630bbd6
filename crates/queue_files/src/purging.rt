// Removing a page whose rows are all acknowledged.
ghost use Rattle.std.specs.Prelude.{◌≡◌, ◌⊎◌, OnOk, IsErr};
ghost use Rattle.io_traits.specs.Counts.{HasCause};
ghost use Rattle.queue_files.specs.Others.{KeepsOthers};
ghost use Rattle.queue_files.specs.Ready.{PurgeKeeps, PurgeReady};

use io_traits::{Failed, Store};

/// Removes a page below the head of which all rows are recorded as acknowledged, settles that, and then
/// removes its checkpoint.
///
/// Of a queue that is ready a stop at any moment leaves the queue.
pub fn remove_page<S: Store>(store: &mut S, page: &str, checkpoint: &str) -> Result<(), Failed>
    ensures keeps { PurgeKeeps S.Store page.now checkpoint.now store.old store.new }
    ensures ready { OnOk result
        (PurgeReady S.Store page.now checkpoint.now store.old store.new) }
    ensures beside { KeepsOthers S.Store (λ n. (n ≡ page.now) ⊎ (n ≡ checkpoint.now)) store.old
        store.new }
    ensures cause { HasCause (S.faults store.old) (S.faults store.new) (IsErr result) }
{
    store.remove(page)?;
    store.sync()?;
    store.remove(checkpoint)
}
