// The rows of a page file, read one behind the other, whatever was recorded of them.
ghost use Rattle.std.specs.Prelude.{◌≡◌, ◌≤◌, ◌⊎◌, IsTrue, IfOk, IfErr, Some, Err};
ghost use Rattle.io_traits.specs.Counts.{HasCause};
ghost use Rattle.io_traits.specs.Reads.{bytes_of};
ghost use Rattle.io_traits.specs.Calls.{ChangesNothing};
ghost use Rattle.queue_page.specs.Pages.{whole_page};
ghost use Rattle.pq_tools.specs.PageRuns.{BeginsRun, GivesRow, run_from};
ghost use Rattle.pq_tools.specs.declared.fault.RepairFault.TheVariants as r;

use crate::fault::RepairFault;
use io_traits::{QueueFault, Store};
use queue_page::{BLOCK_LEN, Page, PageBuffer, PageRow};
use std::alloc::{AllocError, Global};

/// A run of intact elements of a page, of which the next one is wanted.
#[derive(Drop)]
pub(crate) struct PageRun {
    /// The page, whose extent is its whole file.
    pub(crate) page: Page,
    /// The part of the file that was read last.
    pub(crate) block: PageBuffer,
    /// The place of the next element.
    pub(crate) place: u64,
    /// Its number.
    pub(crate) number: u64,
    /// How many elements may come at most.
    pub(crate) left: u64,
}

/// The run that begins with the first element of a file, whatever number that has; `None` where no element
/// is intact there.
pub(crate) fn begin_run<S: Store>(
    alloc: Global,
    store: &mut S,
    name: &str,
) -> Result<Option<PageRun>, RepairFault>
    ensures rows { IfOk result (λ run. IsTrue S.tells
        → BeginsRun (bytes_of (S.seen store.old name.now)) run) }
    ensures fault { IfErr result (λ fault. (fault ≡ r.Store) ⊎ (fault ≡ r.Memory)) }
    ensures same { ChangesNothing S.tells S.seen S.moment S.may_leave store.old store.new }
    ensures cause { HasCause (S.faults store.old) (S.faults store.new) (result ≡ Err r.Store) }
{
    match Page::whole(store, name)? {
        Some(page) => begin_page(alloc, store, name, page),
        None => Ok(None),
    }
}

/// The same of a file that begins with a version.
fn begin_page<S: Store>(
    alloc: Global,
    store: &mut S,
    name: &str,
    page: Page,
) -> Result<Option<PageRun>, RepairFault>
    requires { 1 ≤ page.state.length }
    ensures rows { IfOk result (λ run. IsTrue S.tells
        → whole_page (bytes_of (S.seen store.old name.now)) ≡ Some page
        → BeginsRun (bytes_of (S.seen store.old name.now)) run) }
    ensures fault { IfErr result (λ fault. (fault ≡ r.Store) ⊎ (fault ≡ r.Memory)) }
    ensures same { ChangesNothing S.tells S.seen S.moment S.may_leave store.old store.new }
    ensures cause { HasCause (S.faults store.old) (S.faults store.new) (result ≡ Err r.Store) }
{
    match page.read_row(alloc, store, name, 1) {
        Ok(row) => Ok(Some(run_of(alloc, page, row.number)?)),
        Err(QueueFault::Damaged(_)) => Ok(None),
        Err(QueueFault::Fault) => Err(RepairFault::Store),
        Err(QueueFault::Memory) => Err(RepairFault::Memory),
    }
}

/// The run of a page whose first element has this number.
fn run_of(alloc: Global, page: Page, number: u64) -> Result<PageRun, AllocError>
    ensures run { IfOk result (λ run. run ≡ run_from page number) }
{
    let behind = (u64::MAX - number).saturating_add(1);
    let block = PageBuffer::new(alloc, BLOCK_LEN)?;
    Ok(PageRun {
        page,
        block,
        place: 1,
        number,
        left: page.state().length.min(behind),
    })
}

/// The next row of a run; `None` where no further element is intact.
pub(crate) fn next_row<S: Store>(
    alloc: Global,
    store: &mut S,
    name: &str,
    run: &mut PageRun,
) -> Result<Option<PageRow>, RepairFault>
    ensures row { IfOk result (λ row. IsTrue S.tells
        → GivesRow (bytes_of (S.seen store.old name.now)) run.old run.new row) }
    ensures fault { IfErr result (λ fault. (fault ≡ r.Store) ⊎ (fault ≡ r.Memory)) }
    ensures same { ChangesNothing S.tells S.seen S.moment S.may_leave store.old store.new }
    ensures cause { HasCause (S.faults store.old) (S.faults store.new) (result ≡ Err r.Store) }
{
    let page = run.page;
    if run.left == 0 {
        return Ok(None);
    }
    if run.place >= page.state().length {
        return Ok(None);
    }
    match page.read_next(alloc, store, name, &mut run.block, run.place, run.number) {
        Ok(row) => {
            run.left -= 1;
            run.place = row.next;
            run.number = run.number.saturating_add(1);
            Ok(Some(row))
        }
        Err(QueueFault::Damaged(_)) => {
            run.left = 0;
            Ok(None)
        }
        Err(QueueFault::Fault) => Err(RepairFault::Store),
        Err(QueueFault::Memory) => Err(RepairFault::Memory),
    }
}
