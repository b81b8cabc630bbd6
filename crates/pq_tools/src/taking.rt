// The rows of a folder's pages, written to a new queue.
ghost use Rattle.std.specs.Prelude.{◌≡◌, ◌≢◌, ◌⊎◌, ◌≤◌, ℕ, ◌+◌, ◌∷◌, ◌&&◌, List, [], length, max, nat_lt, not, IsTrue, IfOk, IfErr, OnOk, Err};
ghost use Rattle.io_traits.specs.Counts.{HasCause};
ghost use Rattle.io_traits.specs.Folders.{folder_start};
ghost use Rattle.io_traits.specs.Reads.{bytes_of};
ghost use Rattle.io_traits.specs.Calls.{ChangesNothing};
ghost use Rattle.slot_files.specs.Checkpoints.{newest_in};
ghost use Rattle.queue_files.specs.Folders.{IsOwn, checkpoint, head, names_in, page};
ghost use Rattle.queue_files.specs.Found.{row_of};
ghost use Rattle.queue_files.specs.Listing.{IsListed};
ghost use Rattle.queue_files.specs.Marks.{read_in};
ghost use Rattle.queue_files.specs.Others.{KeepsOthers};
ghost use Rattle.queue_core.specs.Opens.{IsReady};
ghost use Rattle.pq_tools.specs.PageRuns.{IsFirstRun, IsRun, rows_left};
ghost use Rattle.pq_tools.specs.Repairs.{Adds, AreDifferent, Numbered, Spends, Steps, given, row_if, salvaged_of};
ghost use Rattle.pq_tools.specs.Salvage as spec;
ghost use Rattle.pq_tools.specs.Salvage.{by_head, by_own, end_with, named, rows_in, salvage, taken};
ghost use Rattle.pq_tools.specs.declared.fault.RepairFault.TheVariants as r;

use crate::fault::RepairFault;
use crate::salvaging::{PageRun, begin_run, next_row};
use element_code::Origin;
use io_traits::{PageState, QueueFault, Store};
use queue_core::{Queue, WriteFault};
use queue_files::{Listing, checkpoint_name, head_name, list_folder, page_name};
use queue_page::PageRow;
use slot_files::Checkpoint;
use std::alloc::Global;

/// The input of rows whose page names none.
const UNKNOWN: &str = "unknown";

/// The most bytes that the id of an input has.
const MOST_ID: usize = 255;

/// Writes the rows that a repair takes of a folder, whose path ends with a slash, behind those of a queue.
pub(crate) fn take_pages<S: Store>(
    alloc: Global,
    store: &mut S,
    folder: &str,
    queue: &mut Queue,
) -> Result<(), RepairFault>
    requires slash { folder_start folder.now ≡ folder.now }
    requires ready { IsReady S.Store queue.old store.old }
    requires apart { AreDifferent folder.now queue.old.folder }
    ensures adds { OnOk result (Adds S.Store
        (salvage (read_in (names_in folder.now) (S.seen store.old)))
        queue.old queue.new store.old store.new) }
    ensures spent { result ≡ Err r.NumbersSpent → Spends S.Store
        (salvage (read_in (names_in folder.now) (S.seen store.old))) queue.old }
    ensures ready { OnOk result (IsReady S.Store queue.new store.new) }
    ensures folder { queue.new.folder ≡ queue.old.folder }
    ensures beside { KeepsOthers S.Store (IsOwn (names_in queue.old.folder)) store.old store.new }
    ensures fault { IfErr result (λ fault. fault ≢ r.NotNew) }
    ensures cause { HasCause (S.faults store.old) (S.faults store.new) (result ≡ Err r.Store) }
{
    match list_folder(alloc, store, folder) {
        Ok(listing) => take_all(alloc, store, folder, &listing, queue),
        Err(QueueFault::Fault) => Err(RepairFault::Store),
        Err(_) => Err(RepairFault::Memory),
    }
}

/// The same of a folder that was listed.
fn take_all<S: Store>(
    alloc: Global,
    store: &mut S,
    folder: &str,
    listing: &Listing,
    queue: &mut Queue,
) -> Result<(), RepairFault>
    requires ready { IsReady S.Store queue.old store.old }
    requires apart { AreDifferent folder.now queue.old.folder }
    ensures adds { OnOk result
        (IsListed (read_in (names_in folder.now) (S.seen store.old)) listing.now → Adds S.Store
        (salvage (read_in (names_in folder.now) (S.seen store.old)))
        queue.old queue.new store.old store.new) }
    ensures spent { result ≡ Err r.NumbersSpent
        → IsListed (read_in (names_in folder.now) (S.seen store.old)) listing.now → Spends S.Store
        (salvage (read_in (names_in folder.now) (S.seen store.old))) queue.old }
    ensures ready { OnOk result (IsReady S.Store queue.new store.new) }
    ensures folder { queue.new.folder ≡ queue.old.folder }
    ensures beside { KeepsOthers S.Store (IsOwn (names_in queue.old.folder)) store.old store.new }
    ensures fault { IfErr result (λ fault. fault ≢ r.NotNew) }
    ensures cause { HasCause (S.faults store.old) (S.faults store.new) (result ≡ Err r.Store) }
{
    let head = head_name(alloc, folder)?;
    let slots = Checkpoint::newest(store, head.as_str())?;
    let numbers = listing.pages.as_slice();
    take_listed(alloc, store, folder, numbers, slots.newest, queue)
}

/// The same of the pages of these numbers, where the newest slot of the head says this.
fn take_listed<S: Store>(
    alloc: Global,
    store: &mut S,
    folder: &str,
    numbers: &[u32],
    newest: Option<(u64, PageState)>,
    queue: &mut Queue,
) -> Result<(), RepairFault>
    requires ready { IsReady S.Store queue.old store.old }
    requires apart { AreDifferent folder.now queue.old.folder }
    ensures adds { IsTrue S.tells
        → newest_in (bytes_of (S.seen store.old (names_in folder.now head))) ≡ newest
        → OnOk result (Adds S.Store
        (salvaged_of (read_in (names_in folder.now) (S.seen store.old)) 0 numbers.now)
        queue.old queue.new store.old store.new) }
    ensures spent { result ≡ Err r.NumbersSpent
        → newest_in (bytes_of (S.seen store.old (names_in folder.now head))) ≡ newest
        → Spends S.Store
        (salvaged_of (read_in (names_in folder.now) (S.seen store.old)) 0 numbers.now) queue.old }
    ensures ready { OnOk result (IsReady S.Store queue.new store.new) }
    ensures folder { queue.new.folder ≡ queue.old.folder }
    ensures beside { KeepsOthers S.Store (IsOwn (names_in queue.old.folder)) store.old store.new }
    ensures fault { IfErr result (λ fault. fault ≢ r.NotNew) }
    ensures cause { HasCause (S.faults store.old) (S.faults store.new) (result ≡ Err r.Store) }
{
    let mut end = 0;
    for number in numbers {
        let behind = take_numbered(alloc, store, folder, *number, newest, end, queue)?;
        end = behind;
    }
    Ok(())
}

/// The same of the page of this number; and the end behind all numbers of its run and those before.
fn take_numbered<S: Store>(
    alloc: Global,
    store: &mut S,
    folder: &str,
    number: u32,
    newest: Option<(u64, PageState)>,
    end: u128,
    queue: &mut Queue,
) -> Result<u128, RepairFault>
    requires ready { IsReady S.Store queue.old store.old }
    requires apart { AreDifferent folder.now queue.old.folder }
    ensures taken { IfOk result (λ behind. Numbered S.Store folder.now number newest end behind
        queue.old queue.new store.old store.new) }
    ensures spent { result ≡ Err r.NumbersSpent
        → newest_in (bytes_of (S.seen store.old (names_in folder.now head))) ≡ newest
        → (numbers : List ℕ) → Spends S.Store
        (salvaged_of (read_in (names_in folder.now) (S.seen store.old)) end (number ∷ numbers))
        queue.old }
    ensures ready { OnOk result (IsReady S.Store queue.new store.new) }
    ensures folder { queue.new.folder ≡ queue.old.folder }
    ensures beside { KeepsOthers S.Store (IsOwn (names_in queue.old.folder)) store.old store.new }
    ensures fault { IfErr result (λ fault. fault ≢ r.NotNew) }
    ensures cause { HasCause (S.faults store.old) (S.faults store.new) (result ≡ Err r.Store) }
{
    let from = open_from(alloc, store, folder, number, newest)?;
    let name = page_name(alloc, folder, number)?;
    take_page(alloc, store, name.as_str(), from, end, queue)
}

/// The first number of a page that isn't recorded as acknowledged, where the newest slot of the head says this.
fn open_from<S: Store>(
    alloc: Global,
    store: &mut S,
    folder: &str,
    number: u32,
    newest: Option<(u64, PageState)>,
) -> Result<u64, RepairFault>
    ensures from { IfOk result (λ from. IsTrue S.tells
        → from ≡ by_own
        (newest_in (bytes_of (S.seen store.old (names_in folder.now (checkpoint number)))))
        (by_head number newest)) }
    ensures same { ChangesNothing S.tells S.seen S.moment S.may_leave store.old store.new }
    ensures fault { IfErr result (λ fault. (fault ≡ r.Store) ⊎ (fault ≡ r.Memory)) }
    ensures cause { HasCause (S.faults store.old) (S.faults store.new) (result ≡ Err r.Store) }
{
    let name = checkpoint_name(alloc, folder, number)?;
    let slots = Checkpoint::newest(store, name.as_str())?;
    Ok(match slots.newest {
        Some((_, state)) => state.first_open,
        None => by_head(number, newest),
    })
}

/// What the newest slot of the head says of this page, if it names it.
fn by_head(number: u32, newest: Option<(u64, PageState)>) -> u64
    ensures { result ≡ spec.by_head number newest }
{
    match newest {
        Some((_, state)) => {
            if state.page == number {
                state.first_open
            } else {
                0
            }
        }
        None => 0,
    }
}

/// Writes the rows of a page from this number on, unless its first number is below that behind all before;
/// and gives the number behind all of these and those before.
fn take_page<S: Store>(
    alloc: Global,
    store: &mut S,
    name: &str,
    from: u64,
    end: u128,
    queue: &mut Queue,
) -> Result<u128, RepairFault>
    requires ready { IsReady S.Store queue.old store.old }
    requires apart { IsOwn (names_in queue.old.folder) name.now → ⊥ }
    ensures adds { OnOk result (Adds S.Store
        (taken end from (rows_in (bytes_of (S.seen store.old name.now))))
        queue.old queue.new store.old store.new) }
    ensures end { IfOk result (λ behind. IsTrue S.tells
        → behind ≡ end_with end (rows_in (bytes_of (S.seen store.old name.now)))) }
    ensures spent { result ≡ Err r.NumbersSpent → Spends S.Store
        (taken end from (rows_in (bytes_of (S.seen store.old name.now)))) queue.old }
    ensures ready { OnOk result (IsReady S.Store queue.new store.new) }
    ensures folder { queue.new.folder ≡ queue.old.folder }
    ensures beside { KeepsOthers S.Store (IsOwn (names_in queue.old.folder)) store.old store.new }
    ensures fault { IfErr result (λ fault. fault ≢ r.NotNew) }
    ensures cause { HasCause (S.faults store.old) (S.faults store.new) (result ≡ Err r.Store) }
{
    match begin_run(alloc, store, name)? {
        Some(begun) => take_run(alloc, store, name, begun, from, end, queue),
        None => Ok(end),
    }
}

/// The same of a run that begins with the first element of a page.
fn take_run<S: Store>(
    alloc: Global,
    store: &mut S,
    name: &str,
    run: PageRun,
    from: u64,
    end: u128,
    queue: &mut Queue,
) -> Result<u128, RepairFault>
    requires ready { IsReady S.Store queue.old store.old }
    requires apart { IsOwn (names_in queue.old.folder) name.now → ⊥ }
    ensures adds { OnOk result (IsFirstRun (bytes_of (S.seen store.old name.now)) run
        → Adds S.Store (taken end from (rows_in (bytes_of (S.seen store.old name.now))))
        queue.old queue.new store.old store.new) }
    ensures end { IfOk result (λ behind. IsTrue S.tells
        → IsFirstRun (bytes_of (S.seen store.old name.now)) run
        → behind ≡ end_with end (rows_in (bytes_of (S.seen store.old name.now)))) }
    ensures spent { result ≡ Err r.NumbersSpent
        → IsFirstRun (bytes_of (S.seen store.old name.now)) run → Spends S.Store
        (taken end from (rows_in (bytes_of (S.seen store.old name.now)))) queue.old }
    ensures ready { OnOk result (IsReady S.Store queue.new store.new) }
    ensures folder { queue.new.folder ≡ queue.old.folder }
    ensures beside { KeepsOthers S.Store (IsOwn (names_in queue.old.folder)) store.old store.new }
    ensures fault { IfErr result (λ fault. fault ≢ r.NotNew) }
    ensures cause { HasCause (S.faults store.old) (S.faults store.new) (result ≡ Err r.Store) }
{
    let first = run.number;
    let gives = is_behind(first, end);
    let count = take_rows(alloc, store, name, run, gives, from, queue)?;
    Ok(later(end, first, count))
}

/// Whether a number isn't below an end.
fn is_behind(number: u64, end: u128) -> bool
    ensures { result ≡ not (nat_lt number end) }
{
    u128::from(number) >= end
}

/// The end of so many numbers, the first of which is this, or another where that is later.
fn later(end: u128, first: u64, count: u64) -> u128
    ensures { result ≡ max end (first + count) }
{
    let behind = u128::from(first) + u128::from(count);
    end.max(behind)
}

/// Writes the rows of a run from this number on, if it gives any, and counts all rows of the run.
fn take_rows<S: Store>(
    alloc: Global,
    store: &mut S,
    name: &str,
    first: PageRun,
    gives: bool,
    from: u64,
    queue: &mut Queue,
) -> Result<u64, RepairFault>
    requires ready { IsReady S.Store queue.old store.old }
    requires apart { IsOwn (names_in queue.old.folder) name.now → ⊥ }
    ensures adds { OnOk result (IsRun (bytes_of (S.seen store.old name.now)) first
        → Adds S.Store
        (given gives from (rows_left (bytes_of (S.seen store.old name.now)) first))
        queue.old queue.new store.old store.new) }
    ensures count { IfOk result (λ count. IsTrue S.tells
        → IsRun (bytes_of (S.seen store.old name.now)) first
        → count ≡ length (rows_left (bytes_of (S.seen store.old name.now)) first)) }
    ensures few { IfOk result (λ count. count ≤ first.left) }
    ensures spent { result ≡ Err r.NumbersSpent
        → IsRun (bytes_of (S.seen store.old name.now)) first → Spends S.Store
        (given gives from (rows_left (bytes_of (S.seen store.old name.now)) first)) queue.old }
    ensures ready { OnOk result (IsReady S.Store queue.new store.new) }
    ensures folder { queue.new.folder ≡ queue.old.folder }
    ensures beside { KeepsOthers S.Store (IsOwn (names_in queue.old.folder)) store.old store.new }
    ensures fault { IfErr result (λ fault. fault ≢ r.NotNew) }
    ensures cause { HasCause (S.faults store.old) (S.faults store.new) (result ≡ Err r.Store) }
{
    let most = first.left;
    let mut run = first;
    let mut count = 0;
    for _ in 0..most {
        let more = take_row(alloc, store, name, &mut run, gives, from, queue)?;
        if more {
            count += 1;
        } else {
            return Ok(count);
        }
    }
    Ok(count)
}

/// Writes the next row of a run from this number on, if it gives any; `false` where no row is left.
fn take_row<S: Store>(
    alloc: Global,
    store: &mut S,
    name: &str,
    run: &mut PageRun,
    gives: bool,
    from: u64,
    queue: &mut Queue,
) -> Result<bool, RepairFault>
    requires ready { IsReady S.Store queue.old store.old }
    ensures step { IfOk result (λ more. Steps S.Store (bytes_of (S.seen store.old name.now)) gives from
        run.old run.new queue.old queue.new store.old store.new more) }
    ensures spent { result ≡ Err r.NumbersSpent
        → IsRun (bytes_of (S.seen store.old name.now)) run.old → Spends S.Store
        (given gives from (rows_left (bytes_of (S.seen store.old name.now)) run.old)) queue.old }
    ensures ready { OnOk result (IsReady S.Store queue.new store.new) }
    ensures folder { queue.new.folder ≡ queue.old.folder }
    ensures beside { KeepsOthers S.Store (IsOwn (names_in queue.old.folder)) store.old store.new }
    ensures fault { IfErr result (λ fault. fault ≢ r.NotNew) }
    ensures cause { HasCause (S.faults store.old) (S.faults store.new) (result ≡ Err r.Store) }
{
    match next_row(alloc, store, name, run)? {
        Some(row) => {
            let given = is_given(gives, from, &row);
            write_given(alloc, store, given, &row, queue)?;
            Ok(true)
        }
        None => Ok(false),
    }
}

/// Whether a row is written: one with a number from this on, of a run that gives any.
fn is_given(gives: bool, from: u64, row: &PageRow) -> bool
    ensures { result ≡ gives && not (nat_lt row.now.number from) }
{
    gives && row.number >= from
}

/// Writes a row, if it is to be written.
fn write_given<S: Store>(
    alloc: Global,
    store: &mut S,
    gives: bool,
    row: &PageRow,
    queue: &mut Queue,
) -> Result<(), RepairFault>
    requires ready { IsReady S.Store queue.old store.old }
    ensures adds { OnOk result (Adds S.Store (row_if gives row.now)
        queue.old queue.new store.old store.new) }
    ensures spent { result ≡ Err r.NumbersSpent → Spends S.Store (row_if gives row.now) queue.old }
    ensures ready { OnOk result (IsReady S.Store queue.new store.new) }
    ensures folder { queue.new.folder ≡ queue.old.folder }
    ensures beside { KeepsOthers S.Store (IsOwn (names_in queue.old.folder)) store.old store.new }
    ensures fault { IfErr result (λ fault. fault ≢ r.NotNew) }
    ensures cause { HasCause (S.faults store.old) (S.faults store.new) (result ≡ Err r.Store) }
{
    if gives {
        write_row(alloc, store, row, queue)
    } else {
        Ok(())
    }
}

/// Writes a row behind those of a queue.
fn write_row<S: Store>(
    alloc: Global,
    store: &mut S,
    row: &PageRow,
    queue: &mut Queue,
) -> Result<(), RepairFault>
    requires ready { IsReady S.Store queue.old store.old }
    ensures adds { OnOk result (Adds S.Store (row_of row.now ∷ [])
        queue.old queue.new store.old store.new) }
    ensures spent { result ≡ Err r.NumbersSpent → Spends S.Store (row_of row.now ∷ []) queue.old }
    ensures ready { OnOk result (IsReady S.Store queue.new store.new) }
    ensures folder { queue.new.folder ≡ queue.old.folder }
    ensures beside { KeepsOthers S.Store (IsOwn (names_in queue.old.folder)) store.old store.new }
    ensures fault { IfErr result (λ fault. fault ≢ r.NotNew) }
    ensures cause { HasCause (S.faults store.old) (S.faults store.new) (result ≡ Err r.Store) }
{
    match queue.write(alloc, store, id_of(&row.origin), &row.event) {
        Ok(_) => Ok(()),
        Err(WriteFault::NumbersSpent) => Err(RepairFault::NumbersSpent),
        // A queue without a limit isn't full: its pages have fewer bytes than a number of 64 bits says.
        Err(WriteFault::Full) | Err(WriteFault::Memory) => Err(RepairFault::Memory),
        Err(WriteFault::Fault) => Err(RepairFault::Store),
    }
}

/// The id of the input of a row, as it is written.
fn id_of(origin: &Origin) -> &str
    ensures id { result.now ≡ named origin.now }
    ensures some { 1 ≤ length result.now }
    ensures short { length result.now ≤ 255 }
{
    match origin {
        Origin::Id(id) => named_or(id.as_str()),
        Origin::Unknown => UNKNOWN,
    }
}

/// An id as pages may have it, or that of rows whose page names none.
fn named_or(id: &str) -> &str
    ensures id { result.now ≡ spec.or_unknown id.now }
    ensures some { 1 ≤ length result.now }
    ensures short { length result.now ≤ 255 }
{
    if id.is_empty() {
        return UNKNOWN;
    }
    if id.len() > MOST_ID {
        return UNKNOWN;
    }
    id
}
