// A folder that is opened.
ghost use Rattle.std.specs.Prelude.{◌≡◌, ◌≤◌, ◌+◌, ◌-◌, ◌^◌, IsTrue, IfOk, Err};
ghost use Rattle.io_traits.specs.Counts.{HasCause};
ghost use Rattle.io_traits.specs.Folders.{folder_start};
ghost use Rattle.io_traits.specs.Reads.{bytes_of};
ghost use Rattle.io_traits.specs.declared.queue_faults.QueueFault.TheVariants as f;
ghost use Rattle.queue_files.specs.Folders.{head, IsOwn, names_in};
ghost use Rattle.queue_files.specs.Known.{AreStated, WasOpened};
ghost use Rattle.queue_files.specs.Marks.{read_in};
ghost use Rattle.queue_files.specs.Others.{KeepsOthers};
ghost use Rattle.queue_files.specs.Queues.{IsNewest, OpensReady};
ghost use Rattle.queue_files.specs.Unread.{IsRead};
ghost use Rattle.queue_files.specs.Opened.{FindsOpened, IsSeen, IsBegun, HoldsFound, KeepsOpened, OpeningKeeps};

use crate::checkpoint_state::told;
use crate::listing::Listing;
use crate::look::{Look, is_new, look_at};
use crate::naming::page_name;
use crate::scanned::{Scanned, read_pages};
use crate::sealed_pages::damaged;
use crate::starting::{FIRST_STATE, make_first};
use crate::unread::remove_unread;
use io_traits::{PageState, QueueFault, Store};
use queue_page::Page;
use std::alloc::Global;

/// A folder that is open.
#[derive(Drop)]
pub struct OpenedQueue {
    /// The turn of the newest slot of the head.
    pub turn: u64,
    /// What that slot says of the head page.
    pub state: PageState,
    /// The pages.
    pub pages: Scanned,
}

/// Opens a folder, whose path ends with a slash. First it settles all files of the store. A new folder gets
/// the first files of a queue. Else it removes what no slot speaks of, tests all that is recorded, up to the
/// first damage, and cuts from the head page what stands behind its rows.
///
/// What it finds is what the folder holds as the store reads, and the queue of that is ready then. A stop at
/// any moment leaves what it might have left before, or a folder that holds the same.
pub fn open_folder<S: Store>(
    alloc: Global,
    store: &mut S,
    folder: &str,
) -> Result<OpenedQueue, QueueFault>
    requires { folder_start folder.now ≡ folder.now }
    ensures found { IsTrue S.tells → FindsOpened (names_in folder.now)
        (read_in (names_in folder.now) (S.seen store.old)) result }
    ensures any_moment { KeepsOpened S.Store (names_in folder.now) store.old store.new }
    ensures keeps { OpeningKeeps S.Store (names_in folder.now) store.old store.new }
    ensures ready { IfOk result (λ o. OpensReady S.Store (names_in folder.now) o store.old
        store.new) }
    ensures stated { IfOk result (λ o. AreStated o.state o.pages) }
    ensures opened { IfOk result (λ o. WasOpened S.Store (names_in folder.now) o store.old
        store.new) }
    ensures beside { KeepsOthers S.Store (IsOwn (names_in folder.now)) store.old store.new }
    ensures cause { HasCause (S.faults store.old) (S.faults store.new) (result ≡ Err f.Fault) }
{
    store.sync()?;
    let look = look_at(alloc, store, folder)?;
    open_seen(alloc, store, folder, look)
}

/// Opens a folder at rest that was looked at.
fn open_seen<S: Store>(
    alloc: Global,
    store: &mut S,
    folder: &str,
    look: Look,
) -> Result<OpenedQueue, QueueFault>
    requires { look.head ≡ names_in folder.now head }
    ensures found { IsSeen S.Store (names_in folder.now) look store.old → IsTrue S.tells
        → FindsOpened (names_in folder.now)
        (read_in (names_in folder.now) (S.seen store.old)) result }
    ensures keeps { IsSeen S.Store (names_in folder.now) look store.old
        → HoldsFound S.Store (names_in folder.now) store.old store.new }
    ensures ready { IfOk result (λ o. IsSeen S.Store (names_in folder.now) look store.old
        → OpensReady S.Store (names_in folder.now) o store.old store.new) }
    ensures stated { IfOk result (λ o. AreStated o.state o.pages) }
    ensures opened { IfOk result (λ o. IsSeen S.Store (names_in folder.now) look store.old
        → WasOpened S.Store (names_in folder.now) o store.old store.new) }
    ensures beside { KeepsOthers S.Store (IsOwn (names_in folder.now)) store.old store.new }
    ensures cause { HasCause (S.faults store.old) (S.faults store.new) (result ≡ Err f.Fault) }
{
    let Look {
        listing,
        head,
        slots,
    } = look;
    if is_new(&slots, &listing) {
        return begin_folder(alloc, store, folder, head.as_str());
    }
    match told(&slots) {
        Ok((turn, state)) => open_pages(alloc, store, folder, listing, turn, state),
        Err(differing) => Err(damaged(head, differing)),
    }
}

/// Makes the first files of a queue in a new folder at rest.
fn begin_folder<S: Store>(
    alloc: Global,
    store: &mut S,
    folder: &str,
    checkpoint: &str,
) -> Result<OpenedQueue, QueueFault>
    requires { checkpoint.now ≡ names_in folder.now head }
    ensures found { IsBegun S.Store (names_in folder.now) store.old → IsTrue S.tells
        → FindsOpened (names_in folder.now)
        (read_in (names_in folder.now) (S.seen store.old)) result }
    ensures keeps { IsBegun S.Store (names_in folder.now) store.old
        → HoldsFound S.Store (names_in folder.now) store.old store.new }
    ensures ready { IfOk result (λ o. IsBegun S.Store (names_in folder.now) store.old
        → OpensReady S.Store (names_in folder.now) o store.old store.new) }
    ensures stated { IfOk result (λ o. AreStated o.state o.pages) }
    ensures opened { IfOk result (λ o. IsBegun S.Store (names_in folder.now) store.old
        → WasOpened S.Store (names_in folder.now) o store.old store.new) }
    ensures beside { KeepsOthers S.Store (IsOwn (names_in folder.now)) store.old store.new }
    ensures cause { HasCause (S.faults store.old) (S.faults store.new) (result ≡ Err f.Fault) }
{
    let page = page_name(alloc, folder, 0)?;
    make_first(store, page.as_str(), checkpoint)?;
    let tails = Vec::new(alloc);
    let pages = Vec::new(alloc);
    let top = Page::start(FIRST_STATE);
    Ok(OpenedQueue {
        turn: 0,
        state: FIRST_STATE,
        pages: Scanned { tails, pages, top },
    })
}

/// Opens a folder at rest whose head slot says this.
fn open_pages<S: Store>(
    alloc: Global,
    store: &mut S,
    folder: &str,
    listing: Listing,
    turn: u64,
    state: PageState,
) -> Result<OpenedQueue, QueueFault>
    requires { state.least + state.count ≤ 2 ^ 63 - 1 }
    ensures found { IsRead S.Store (names_in folder.now) listing state store.old → IsTrue S.tells
        → FindsOpened (names_in folder.now)
        (read_in (names_in folder.now) (S.seen store.old)) result }
    ensures keeps { IsRead S.Store (names_in folder.now) listing state store.old
        → HoldsFound S.Store (names_in folder.now) store.old store.new }
    ensures ready { IfOk result (λ o. IsRead S.Store (names_in folder.now) listing state store.old
        → (IsTrue S.tells → IsNewest (bytes_of (S.seen store.old (names_in folder.now head)))
        turn state)
        → OpensReady S.Store (names_in folder.now) o store.old store.new) }
    ensures stated { IfOk result (λ o. AreStated o.state o.pages) }
    ensures opened { IfOk result (λ o. IsRead S.Store (names_in folder.now) listing state store.old
        → (IsTrue S.tells → IsNewest (bytes_of (S.seen store.old (names_in folder.now head)))
        turn state)
        → WasOpened S.Store (names_in folder.now) o store.old store.new) }
    ensures beside { KeepsOthers S.Store (IsOwn (names_in folder.now)) store.old store.new }
    ensures cause { HasCause (S.faults store.old) (S.faults store.new) (result ≡ Err f.Fault) }
{
    remove_unread(alloc, store, folder, &listing, &state)?;
    let mut numbers = listing.pages;
    numbers.retain(|number| *number < state.page);
    let pages = read_pages(alloc, store, folder, numbers.as_slice(), &state)?;
    Ok(OpenedQueue { turn, state, pages })
}
