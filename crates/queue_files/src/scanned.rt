// The pages of a folder whose head slot is known.
ghost use Rattle.std.specs.Prelude.{◌≡◌, ◌≤◌, ◌-◌, ◌+◌, ◌^◌, IsTrue, IfOk, Err};
ghost use Rattle.io_traits.specs.Counts.{HasCause};
ghost use Rattle.io_traits.specs.declared.queue_faults.QueueFault.TheVariants as f;
ghost use Rattle.queue_files.specs.Folders.{page, names_in};
ghost use Rattle.queue_files.specs.Known.{AreStated};
ghost use Rattle.queue_files.specs.Marks.{read_in};
ghost use Rattle.queue_files.specs.Others.{KeepsOthers};
ghost use Rattle.queue_files.specs.Queues.{IsAllAtRest, LeavesRead};
ghost use Rattle.queue_files.specs.Reading.{FindsScanned, KeepsFound};

use crate::naming::page_name;
use crate::page_scan::{PagesBelow, read_below};
use crate::sealed_pages::SealedPage;
use io_traits::{PageState, QueueFault, Store};
use queue_page::Page;
use std::alloc::Global;

/// The pages of a folder.
#[derive(Drop)]
pub struct Scanned {
    /// What the checkpoints tell of the pages below the head.
    pub tails: Vec<SealedPage>,
    /// These pages.
    pub pages: Vec<Page>,
    /// The head page.
    pub top: Page,
}

/// Reads the pages of these numbers below the head, and the head page, of which the head slot says this, up
/// to the first damage. Of the head page the rows behind what is recorded are kept, what is behind them is
/// cut, and the cut is settled.
///
/// A stop at any moment leaves a folder that holds the same. Then, if all was at rest, all is.
pub fn read_pages<S: Store>(
    alloc: Global,
    store: &mut S,
    folder: &str,
    numbers: &[u32],
    head: &PageState,
) -> Result<Scanned, QueueFault>
    requires { head.now.least + head.now.count ≤ 2 ^ 63 - 1 }
    ensures found { IsTrue S.tells → FindsScanned (names_in folder.now)
        (read_in (names_in folder.now) (S.seen store.old)) head.now numbers.now result }
    ensures keeps { KeepsFound S.Store (names_in folder.now) head.now store.old store.new }
    ensures stated { IfOk result (λ r. AreStated head.now r) }
    ensures leaves { IfOk result (λ r. IsAllAtRest S.Store store.old
        → LeavesRead S.Store (names_in folder.now) head.now r store.old store.new) }
    ensures beside { KeepsOthers S.Store (λ n. n ≡ names_in folder.now (page head.now.page))
        store.old store.new }
    ensures cause { HasCause (S.faults store.old) (S.faults store.new) (result ≡ Err f.Fault) }
{
    let PagesBelow { tails, pages } = read_below(alloc, store, folder, numbers, head)?;
    let name = page_name(alloc, folder, head.page)?;
    let top = Page::scan(alloc, store, name.as_str(), head, true)?;
    Ok(Scanned { tails, pages, top })
}
