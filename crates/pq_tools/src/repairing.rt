// `--pqrepair`: writes the intact rows of a queue into a new one.
ghost use Rattle.std.specs.Prelude.{◌≡◌, ◌≢◌, ◌==◌, length, IsTrue, IfOk, IfErr, OnOk, Err, List, [], map, string_bytes, true, false};
ghost use Rattle.io_traits.specs.Counts.{HasCause};
ghost use Rattle.io_traits.specs.Folders.{Lists, folder_start};
ghost use Rattle.io_traits.specs.Moments.{EachMoment, LeavesBeside, ReadsBeside};
ghost use Rattle.queue_files.specs.Folders.{IsOwn, names_in};
ghost use Rattle.queue_files.specs.Found.{Row};
ghost use Rattle.queue_files.specs.Marks.{read_in};
ghost use Rattle.queue_files.specs.Others.{KeepsOthers};
ghost use Rattle.queue_core.specs.Opens.{IsReady};
ghost use Rattle.logstash_settings.specs.Words.{answer_of};
ghost use Rattle.pq_tools.specs.Numbers.{runs_out, spends_numbers};
ghost use Rattle.pq_tools.specs.Orders.{repaired};
ghost use Rattle.pq_tools.specs.Repairs.{AreDifferent, HasFile, HasRows, Holds, IsMade, IsOfRepair, IsRepaired, LeavesQueue, OpensNew, Repairs, RepairsAs, Salvages, Spends, by_queue, status_by};
ghost use Rattle.pq_tools.specs.Salvage.{salvage};
ghost use Rattle.pq_tools.specs.Statuses.{is_store_fault};
ghost use Rattle.pq_tools.specs.declared.fault.RepairFault.TheVariants as r;
ghost use Rattle.pq_tools.specs.declared.status.ToolStatus.TheVariants as s;

use crate::checking::tell_rows;
use crate::fault::RepairFault;
use crate::orders::{ToolOrder, repair_ordered};
use crate::status::ToolStatus;
use crate::taking::take_pages;
use io_traits::{ListFault, QueueFault, Sink, Store};
use plain_data::Text;
use queue_core::{Limits, Queue};
use std::alloc::Global;

/// How large the pages of a new queue become, and that the queue as a whole has no limit.
const LIMITS: Limits = Limits {
    page_capacity: 67_108_864,
    max_bytes: u64::MAX,
};

/// Writes what is intact of the queue that the words name by `--pqrepair` into a new queue: the queue stands in
/// the folder `<path.data>/<id>/`, the new one in `<path.data>/<id>.repaired/`, and no file of the former is
/// changed.
///
/// Of each page, in rising order of their numbers, the longest run of intact elements with consecutive
/// numbers from its first element on is taken, but for rows that are recorded as acknowledged; of a page whose
/// first number isn't above all numbers before, nothing is. In the new queue the rows have numbers from 1 on,
/// and those of pages that name no inputs come by `unknown`.
///
/// At `Done` the output took `rows <n>` and a newline, with the number of rows of the new queue, which are
/// settled. `NotNew` comes exactly where the folder of the new queue has a file, and `NumbersSpent` exactly where
/// the new queue has no number left for one of these rows, or none for the page that the row needs; but for a
/// fault of the store, and want of memory.
pub fn pqrepair<S: Store, O: Sink>(
    alloc: Global,
    words: &[String],
    store: &mut S,
    out: &mut O,
) -> ToolStatus
    ensures ends { RepairsAs S.Store O.Sink
        (repaired (answer_of (map string_bytes words.now)))
        store.old store.new out.old out.new result }

    // All files but those of the new queue read as before, and a stop leaves them as it might have left them. So it
    // leaves the queue that is to be repaired.
    ensures beside { ReadsBeside S.Store
        (IsOfRepair (repaired (answer_of (map string_bytes words.now)))) store.old store.new }
    ensures beside_moments { EachMoment S.Store store.old store.new (LeavesBeside S.Store
        (IsOfRepair (repaired (answer_of (map string_bytes words.now)))) store.old) }
    ensures queue_moments { EachMoment S.Store store.old store.new (LeavesQueue S.Store
        (repaired (answer_of (map string_bytes words.now))) store.old) }

    ensures store { HasCause (S.faults store.old) (S.faults store.new)
        (is_store_fault result ≡ true) }
    ensures out { HasCause (O.faults out.old) (O.faults out.new) (result ≡ s.OutputFault) }
{
    match repair_ordered(alloc, words) {
        Ok(order) => repair(alloc, order, store, out),
        Err(refusal) => refusal,
    }
}

/// Repairs the queue of an order.
fn repair<S: Store, O: Sink>(
    alloc: Global,
    order: ToolOrder,
    store: &mut S,
    out: &mut O,
) -> ToolStatus
    requires folder { folder_start order.folder ≡ order.folder }
    requires repaired { folder_start order.repaired ≡ order.repaired }
    requires apart { AreDifferent order.folder order.repaired }
    ensures ends { Repairs S.Store O.Sink order store.old store.new out.old out.new result }
    ensures beside { KeepsOthers S.Store (IsOwn (names_in order.repaired)) store.old store.new }
    ensures store { HasCause (S.faults store.old) (S.faults store.new)
        (is_store_fault result ≡ true) }
    ensures out { HasCause (O.faults out.old) (O.faults out.new) (result ≡ s.OutputFault) }
{
    let ToolOrder {
        id,
        folder,
        repaired,
    } = order;
    match salvage(alloc, store, folder.as_str(), repaired.as_str()) {
        Ok(rows) => tell_rows(alloc, rows, out),
        Err(fault) => status_of(id, repaired, fault),
    }
}

/// The status of a fault, for the queue of this pipeline and a new one in this folder.
fn status_of(id: Text, repaired: Text, fault: RepairFault) -> ToolStatus
    ensures { result ≡ status_by id repaired fault }
{
    match fault {
        RepairFault::Store => ToolStatus::StoreFault(id),
        RepairFault::Memory => ToolStatus::NoMemory,
        RepairFault::NumbersSpent => ToolStatus::NumbersSpent(id),
        RepairFault::NotNew => ToolStatus::NotNew(repaired),
    }
}

/// Writes the rows that are taken of one folder to a new queue in another, settles them, and counts them.
fn salvage<S: Store>(
    alloc: Global,
    store: &mut S,
    folder: &str,
    repaired: &str,
) -> Result<u64, RepairFault>
    requires folder { folder_start folder.now ≡ folder.now }
    requires repaired { folder_start repaired.now ≡ repaired.now }
    requires apart { AreDifferent folder.now repaired.now }
    ensures rows { IsTrue S.tells → Salvages (HasFile repaired.now (S.seen store.old))
        (spends_numbers repaired.now (read_in (names_in folder.now) (S.seen store.old)))
        (IsRepaired (read_in (names_in folder.now) (S.seen store.old))
        (read_in (names_in repaired.now) (S.seen store.new))) result }
    ensures beside { KeepsOthers S.Store (IsOwn (names_in repaired.now)) store.old store.new }
    ensures cause { HasCause (S.faults store.old) (S.faults store.new) (result ≡ Err r.Store) }
{
    match open_new(alloc, store, repaired) {
        Ok(queue) => fill(alloc, store, folder, queue),
        Err(fault) => Err(fault),
    }
}

/// Writes the rows that are taken of a folder to a new queue, settles them, and counts them.
fn fill<S: Store>(
    alloc: Global,
    store: &mut S,
    folder: &str,
    queue: Queue,
) -> Result<u64, RepairFault>
    requires slash { folder_start folder.now ≡ folder.now }
    requires ready { IsReady S.Store queue store.old }
    requires apart { AreDifferent folder.now queue.folder }
    ensures rows { IfOk result (λ count. IsTrue S.tells → Holds S.Store queue [] store.old
        → IsRepaired (read_in (names_in folder.now) (S.seen store.old))
        (read_in (names_in queue.folder) (S.seen store.new)) count) }
    ensures fits { OnOk result (IsTrue S.tells
        → runs_out queue (salvage (read_in (names_in folder.now) (S.seen store.old))) ≡ false) }
    ensures spent { result ≡ Err r.NumbersSpent → Spends S.Store
        (salvage (read_in (names_in folder.now) (S.seen store.old))) queue }
    ensures fault { IfErr result (λ fault. fault ≢ r.NotNew) }
    ensures beside { KeepsOthers S.Store (IsOwn (names_in queue.folder)) store.old store.new }
    ensures cause { HasCause (S.faults store.old) (S.faults store.new) (result ≡ Err r.Store) }
{
    let mut queue = queue;
    match take_pages(alloc, store, folder, &mut queue) {
        Ok(()) => settle(store, &mut queue),
        Err(fault) => Err(fault),
    }
}

/// Settles the rows of a queue, and counts them.
fn settle<S: Store>(store: &mut S, queue: &mut Queue) -> Result<u64, RepairFault>
    requires { IsReady S.Store queue.old store.old }
    ensures rows { IfOk result (λ count. IsTrue S.tells → (rows : List Row)
        → Holds S.Store queue.old rows store.old
        → HasRows (read_in (names_in queue.old.folder) (S.seen store.new)) rows count) }
    ensures fault { IfErr result (λ fault. fault ≡ r.Store) }
    ensures beside { KeepsOthers S.Store (IsOwn (names_in queue.old.folder)) store.old store.new }
    ensures cause { HasCause (S.faults store.old) (S.faults store.new) (result ≡ Err r.Store) }
{
    match queue.mark(store) {
        Ok(count) => Ok(count),
        Err(_) => Err(RepairFault::Store),
    }
}

/// Makes a queue in a folder that has no file.
fn open_new<S: Store>(alloc: Global, store: &mut S, folder: &str) -> Result<Queue, RepairFault>
    requires { folder_start folder.now ≡ folder.now }
    ensures made { IsTrue S.tells → OpensNew (HasFile folder.now (S.seen store.old))
        (λ queue. IsMade S.Store folder.now queue store.new) result }
    ensures ready { IfOk result (λ queue. IsReady S.Store queue store.new) }
    ensures folder { IfOk result (λ queue. queue.folder ≡ folder.now) }
    ensures beside { KeepsOthers S.Store (IsOwn (names_in folder.now)) store.old store.new }
    ensures cause { HasCause (S.faults store.old) (S.faults store.new) (result ≡ Err r.Store) }
{
    match store.list(alloc, folder) {
        Ok(names) => open_listed(alloc, store, folder, names.as_slice()),
        Err(ListFault::Failed) => Err(RepairFault::Store),
        Err(ListFault::Memory) => Err(RepairFault::Memory),
    }
}

/// The same of a folder that has the files of these names.
fn open_listed<S: Store>(
    alloc: Global,
    store: &mut S,
    folder: &str,
    names: &[Text],
) -> Result<Queue, RepairFault>
    requires { folder_start folder.now ≡ folder.now }
    ensures made { IsTrue S.tells → Lists (S.seen store.old) folder.now names.now
        → OpensNew (HasFile folder.now (S.seen store.old))
        (λ queue. IsMade S.Store folder.now queue store.new) result }
    ensures ready { IfOk result (λ queue. IsReady S.Store queue store.new) }
    ensures folder { IfOk result (λ queue. queue.folder ≡ folder.now) }
    ensures beside { KeepsOthers S.Store (IsOwn (names_in folder.now)) store.old store.new }
    ensures cause { HasCause (S.faults store.old) (S.faults store.new) (result ≡ Err r.Store) }
{
    if are_none(names) {
        open_empty(alloc, store, folder)
    } else {
        Err(RepairFault::NotNew)
    }
}

/// Whether there are no names.
fn are_none(names: &[Text]) -> bool
    ensures { result ≡ (length names.now == 0) }
{
    names.is_empty()
}

/// Makes a queue in a folder whose files were listed: there is none.
fn open_empty<S: Store>(alloc: Global, store: &mut S, folder: &str) -> Result<Queue, RepairFault>
    requires { folder_start folder.now ≡ folder.now }
    ensures made { IsTrue S.tells → Lists (S.seen store.old) folder.now []
        → OpensNew (HasFile folder.now (S.seen store.old))
        (λ queue. IsMade S.Store folder.now queue store.new) result }
    ensures ready { IfOk result (λ queue. IsReady S.Store queue store.new) }
    ensures folder { IfOk result (λ queue. queue.folder ≡ folder.now) }
    ensures beside { KeepsOthers S.Store (IsOwn (names_in folder.now)) store.old store.new }
    ensures cause { HasCause (S.faults store.old) (S.faults store.new) (result ≡ Err r.Store) }
{
    match Queue::open_on(alloc, store, folder, LIMITS) {
        Ok(queue) => Ok(queue),
        Err(fault) => Err(fault_of(fault)),
    }
}

/// Why a queue was not opened in a folder that had no file.
fn fault_of(fault: QueueFault) -> RepairFault
    ensures { result ≡ by_queue fault }
{
    match fault {
        QueueFault::Fault => RepairFault::Store,
        QueueFault::Memory => RepairFault::Memory,
        // What is damaged stands there.
        QueueFault::Damaged(_) => RepairFault::NotNew,
    }
}
