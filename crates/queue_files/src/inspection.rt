// A folder that is read as an opening would, and stays as it is.
ghost use Rattle.std.specs.Prelude.{◌≡◌, ◌≤◌, ◌-◌, ◌+◌, ◌^◌, IsTrue, IfOk, Ok, Err};
ghost use Rattle.io_traits.specs.Counts.{HasCause};
ghost use Rattle.io_traits.specs.Folders.{folder_start};
ghost use Rattle.io_traits.specs.Reads.{bytes_of};
ghost use Rattle.io_traits.specs.Calls.{ChangesNothing};
ghost use Rattle.io_traits.specs.declared.queue_faults.QueueFault.TheVariants as f;
ghost use Rattle.queue_files.specs.Checkpoints.{told as told_of};
ghost use Rattle.queue_files.specs.Folders.{head, names_in};
ghost use Rattle.queue_files.specs.Known.{AreStated, IsFirst, IsOfFolder, IsReadOf};
ghost use Rattle.queue_files.specs.Listing.{IsListed};
ghost use Rattle.queue_files.specs.Marks.{read_in};
ghost use Rattle.queue_files.specs.Opened.{FindsOpened, IsLook};
ghost use Rattle.queue_files.specs.Queues.{AreNewest, IsNewest};
ghost use Rattle.queue_files.specs.Reading.{FindsScanned};

use crate::checkpoint_state::told;
use crate::listing::Listing;
use crate::look::{Look, is_new, look_at};
use crate::naming::page_name;
use crate::opening::OpenedQueue;
use crate::page_scan::{PagesBelow, read_below};
use crate::scanned::Scanned;
use crate::sealed_pages::damaged;
use crate::starting::FIRST_STATE;
use io_traits::{PageState, QueueFault, Store};
use queue_page::Page;
use std::alloc::Global;

/// Reads a folder, whose path ends with a slash, as `open_folder` would open it, and changes nothing: it is
/// what a new folder would become, or all that is recorded, with the rows behind what is recorded of the head
/// page, or the first damage.
///
/// All rows are read, up to the first damage. Nothing is settled: while another program has the queue open,
/// what is read may be neither what stood before a call of that nor what stands then.
pub fn read_folder<S: Store>(
    alloc: Global,
    store: &mut S,
    folder: &str,
) -> Result<OpenedQueue, QueueFault>
    requires { folder_start folder.now ≡ folder.now }
    ensures found { IsTrue S.tells → FindsOpened (names_in folder.now)
        (read_in (names_in folder.now) (S.seen store.old)) result }
    ensures reads { IfOk result (λ o. IsTrue S.tells
        → IsOfFolder (read_in (names_in folder.now) (S.seen store.old)) o) }
    ensures stated { IfOk result (λ o. AreStated o.state o.pages) }
    ensures same { ChangesNothing S.tells S.seen S.moment S.may_leave store.old store.new }
    ensures cause { HasCause (S.faults store.old) (S.faults store.new) (result ≡ Err f.Fault) }
{
    let look = look_at(alloc, store, folder)?;
    read_seen(alloc, store, folder, look)
}

/// Reads a folder that was looked at.
fn read_seen<S: Store>(
    alloc: Global,
    store: &mut S,
    folder: &str,
    look: Look,
) -> Result<OpenedQueue, QueueFault>
    requires { look.head ≡ names_in folder.now head }
    ensures found { IsTrue S.tells → IsLook (names_in folder.now) (S.seen store.old) look
        → FindsOpened (names_in folder.now)
        (read_in (names_in folder.now) (S.seen store.old)) result }
    ensures reads { IfOk result (λ o. IsTrue S.tells
        → IsLook (names_in folder.now) (S.seen store.old) look
        → IsOfFolder (read_in (names_in folder.now) (S.seen store.old)) o) }
    ensures stated { IfOk result (λ o. AreStated o.state o.pages) }
    ensures same { ChangesNothing S.tells S.seen S.moment S.may_leave store.old store.new }
    ensures cause { HasCause (S.faults store.old) (S.faults store.new) (result ≡ Err f.Fault) }
{
    let Look {
        listing,
        head,
        slots,
    } = look;
    if is_new(&slots, &listing) {
        return Ok(first_opened(alloc));
    }
    match told(&slots) {
        Ok((turn, state)) => read_listed(alloc, store, folder, listing, turn, state),
        Err(differing) => Err(damaged(head, differing)),
    }
}

/// What a new folder is opened as.
fn first_opened(alloc: Global) -> OpenedQueue
    ensures first { IsFirst result }
    ensures stated { AreStated result.state result.pages }
{
    let tails = Vec::new(alloc);
    let pages = Vec::new(alloc);
    let top = Page::start(FIRST_STATE);
    OpenedQueue {
        turn: 0,
        state: FIRST_STATE,
        pages: Scanned { tails, pages, top },
    }
}

/// Reads a folder with these files, whose head slot says this.
fn read_listed<S: Store>(
    alloc: Global,
    store: &mut S,
    folder: &str,
    listing: Listing,
    turn: u64,
    state: PageState,
) -> Result<OpenedQueue, QueueFault>
    requires { state.least + state.count ≤ 2 ^ 63 - 1 }
    ensures found { IsTrue S.tells
        → IsListed (read_in (names_in folder.now) (S.seen store.old)) listing
        → told_of (S.seen store.old (names_in folder.now head)) ≡ Ok state
        → FindsOpened (names_in folder.now)
        (read_in (names_in folder.now) (S.seen store.old)) result }
    ensures reads { IfOk result (λ o. IsTrue S.tells
        → IsListed (read_in (names_in folder.now) (S.seen store.old)) listing
        → told_of (S.seen store.old (names_in folder.now head)) ≡ Ok state
        → IsNewest (bytes_of (S.seen store.old (names_in folder.now head))) turn state
        → IsReadOf (read_in (names_in folder.now) (S.seen store.old)) o) }
    ensures stated { IfOk result (λ o. AreStated o.state o.pages) }
    ensures same { ChangesNothing S.tells S.seen S.moment S.may_leave store.old store.new }
    ensures cause { HasCause (S.faults store.old) (S.faults store.new) (result ≡ Err f.Fault) }
{
    let mut numbers = listing.pages;
    numbers.retain(|number| *number < state.page);
    let pages = see_pages(alloc, store, folder, numbers.as_slice(), &state)?;
    Ok(OpenedQueue { turn, state, pages })
}

/// The pages of these numbers below the head, and the head page, of which the head slot says this, up to the
/// first damage; of the head page with the rows behind what is recorded.
fn see_pages<S: Store>(
    alloc: Global,
    store: &mut S,
    folder: &str,
    numbers: &[u32],
    head: &PageState,
) -> Result<Scanned, QueueFault>
    requires { head.now.least + head.now.count ≤ 2 ^ 63 - 1 }
    ensures found { IsTrue S.tells → FindsScanned (names_in folder.now)
        (read_in (names_in folder.now) (S.seen store.old)) head.now numbers.now result }
    ensures newest { IfOk result (λ r. IsTrue S.tells
        → AreNewest (read_in (names_in folder.now) (S.seen store.old)) r.tails.items) }
    ensures stated { IfOk result (λ r. AreStated head.now r) }
    ensures same { ChangesNothing S.tells S.seen S.moment S.may_leave store.old store.new }
    ensures cause { HasCause (S.faults store.old) (S.faults store.new) (result ≡ Err f.Fault) }
{
    let PagesBelow { tails, pages } = read_below(alloc, store, folder, numbers, head)?;
    let name = page_name(alloc, folder, head.page)?;
    let top = Page::look(alloc, store, name.as_str(), head, true)?;
    Ok(Scanned { tails, pages, top })
}
