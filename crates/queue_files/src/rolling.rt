// Beginning a new head page.
ghost use Rattle.std.specs.Prelude.{◌≡◌, ◌≢◌, ◌≤◌, IsTrue, OnOk, IsErr};
ghost use Rattle.io_traits.specs.Counts.{HasCause};
ghost use Rattle.io_traits.specs.Reads.{file_length};
ghost use Rattle.crc_frame.specs.Slots.{place_of};
ghost use Rattle.queue_files.specs.Others.{KeepsOthers};
ghost use Rattle.queue_files.specs.Ready.{IsOfNext, PageKeeps, PageReady};
ghost use Rattle.queue_files.specs.Writes.{NoneShorter};

use io_traits::{Failed, PageState, Store};
use plain_data::Text;
use slot_files::Checkpoint;

/// The version of new pages: their rows name their inputs.
pub(crate) const NEW_VERSION: u8 = 2;

/// What is to be written for a new head page.
pub struct NextPage {
    /// The path of the checkpoint that the page gets which was the head so far.
    pub checkpoint: Text,
    /// How that page stands.
    pub sealed: PageState,
    /// The path of the new page.
    pub file: Text,
    /// The path of the checkpoint of the head page.
    pub head: Text,
    /// The turn of the slot there that speaks of the new page.
    pub turn: u64,
    /// How the new page stands.
    pub state: PageState,
}

/// Begins a new head page: writes the first slot of the checkpoint of the page that was the head, and the
/// first byte of the new one, settles both, then writes the head slot, and settles that.
///
/// Of a queue that is ready, and of which all is recorded, a stop at any moment leaves the queue.
pub fn begin_page<S: Store>(store: &mut S, next: &NextPage) -> Result<(), Failed>
    requires place { IsTrue S.tells
        → place_of 48 next.now.turn ≤ file_length (S.seen store.old next.now.head) }
    requires checkpoint { next.now.head ≢ next.now.checkpoint }
    requires file { next.now.head ≢ next.now.file }

    ensures keeps { PageKeeps S.Store next.now store.old store.new }
    ensures ready { OnOk result (PageReady S.Store next.now store.old store.new) }

    ensures beside { KeepsOthers S.Store (IsOfNext next.now) store.old store.new }

    // No file became shorter, and the checkpoint of the page that was the head has a slot.
    ensures longer { OnOk result (IsTrue S.tells
        → NoneShorter (S.seen store.old) (S.seen store.new)) }
    ensures slotted { OnOk result (IsTrue S.tells
        → 48 ≤ file_length (S.seen store.new next.now.checkpoint)) }

    ensures cause { HasCause (S.faults store.old) (S.faults store.new) (IsErr result) }
{
    Checkpoint::write_slot(store, next.checkpoint.as_str(), 0, &next.sealed)?;
    store.append(next.file.as_str(), &[NEW_VERSION])?;
    store.sync()?;
    Checkpoint::write_slot(store, next.head.as_str(), next.turn, &next.state)?;
    store.sync()
}
