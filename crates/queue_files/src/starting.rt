// Making the first files of a new queue.
ghost use Rattle.std.specs.Prelude.{◌≡◌, ◌⊎◌, OnOk, IsErr};
ghost use Rattle.io_traits.specs.Counts.{HasCause};
ghost use Rattle.queue_files.specs.Others.{KeepsOthers};
ghost use Rattle.queue_files.specs.Ready.{FirstKeeps, FirstReady};

use crate::rolling::NEW_VERSION;
use io_traits::{Failed, PageState, Store};
use slot_files::Checkpoint;

/// How the page of a new queue stands: it has its version alone, and the next number is 1.
pub(crate) const FIRST_STATE: PageState = PageState {
    page: 0,
    first_open: 1,
    least: 1,
    count: 0,
    length: 1,
};

/// Makes a new queue: writes the first byte of its page 0, which may have been begun before, settles that,
/// writes the head slot, and settles that.
///
/// In a new folder a stop at any moment leaves no row.
pub fn make_first<S: Store>(store: &mut S, page: &str, head: &str) -> Result<(), Failed>
    ensures keeps { FirstKeeps S.Store page.now head.now store.old store.new }
    ensures ready { OnOk result (FirstReady S.Store page.now head.now store.old store.new) }
    ensures beside { KeepsOthers S.Store (λ n. (n ≡ page.now) ⊎ (n ≡ head.now)) store.old
        store.new }
    ensures cause { HasCause (S.faults store.old) (S.faults store.new) (IsErr result) }
{
    store.cut(page, 0)?;
    store.append(page, &[NEW_VERSION])?;
    store.sync()?;
    Checkpoint::write_slot(store, head, 0, &FIRST_STATE)?;
    store.sync()
}
