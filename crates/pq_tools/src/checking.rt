// `--pqcheck`: counts the rows of a queue, or tells its first damage.
ghost use Rattle.std.specs.Prelude.{◌≡◌, ◌≢◌, IsTrue, Err, map, string_bytes, true};
ghost use Rattle.io_traits.specs.Counts.{HasCause};
ghost use Rattle.io_traits.specs.Folders.{folder_start};
ghost use Rattle.io_traits.specs.Calls.{ChangesNothing};
ghost use Rattle.io_traits.specs.declared.queue_faults.QueueFault.TheVariants as f;
ghost use Rattle.logstash_settings.specs.Words.{answer_of};
ghost use Rattle.pq_tools.specs.Checks.{ChecksAs, Counts, Prints, PrintsOr, Tells, said_in};
ghost use Rattle.pq_tools.specs.Orders.{checked};
ghost use Rattle.pq_tools.specs.Statuses as spec;
ghost use Rattle.pq_tools.specs.Statuses.{is_store_fault};
ghost use Rattle.pq_tools.specs.declared.status.ToolStatus.TheVariants as s;

use crate::counting::open_rows;
use crate::orders::{ToolOrder, check_ordered};
use crate::printing::{print, rows_line, status_line};
use crate::status::ToolStatus;
use io_traits::{Damage, QueueFault, Sink, Store};
use plain_data::Text;
use queue_files::read_folder;
use std::alloc::Global;

/// Says how many rows the queue has that the words name by `--pqcheck`, or how it is damaged first, as an
/// opening of the queue would find it. The queue stands in the folder `<path.data>/<id>/`.
///
/// It changes no file. At `Done` the output took `rows <n>` and a newline, at `Damaged` the line of that
/// status; and `Done` comes exactly where the folder holds rows, `Damaged` where it is damaged, unless
/// memory, the store or the output fails. All rows are read, and a folder that isn't there has none.
pub fn pqcheck<S: Store, O: Sink>(
    alloc: Global,
    words: &[String],
    store: &mut S,
    out: &mut O,
) -> ToolStatus
    ensures ends { ChecksAs O.Sink (checked (answer_of (map string_bytes words.now)))
        (λ order said. IsTrue S.tells → said ≡ said_in order.folder (S.seen store.old))
        out.old out.new result }
    ensures same { ChangesNothing S.tells S.seen S.moment S.may_leave store.old store.new }
    ensures store { HasCause (S.faults store.old) (S.faults store.new)
        (is_store_fault result ≡ true) }
    ensures out { HasCause (O.faults out.old) (O.faults out.new) (result ≡ s.OutputFault) }
{
    match check_ordered(alloc, words) {
        Ok(order) => check(alloc, order, store, out),
        Err(refusal) => refusal,
    }
}

/// Checks the queue of an order.
fn check<S: Store, O: Sink>(
    alloc: Global,
    order: ToolOrder,
    store: &mut S,
    out: &mut O,
) -> ToolStatus
    requires { folder_start order.folder ≡ order.folder }
    ensures ends { Tells O.Sink order.id
        (λ said. IsTrue S.tells → said ≡ said_in order.folder (S.seen store.old))
        out.old out.new result }
    ensures same { ChangesNothing S.tells S.seen S.moment S.may_leave store.old store.new }
    ensures store { HasCause (S.faults store.old) (S.faults store.new)
        (is_store_fault result ≡ true) }
    ensures out { HasCause (O.faults out.old) (O.faults out.new) (result ≡ s.OutputFault) }
{
    let ToolOrder { id, folder, .. } = order;
    match count_rows(alloc, store, folder.as_str()) {
        Ok(rows) => tell_rows(alloc, rows, out),
        Err(QueueFault::Damaged(damage)) => tell_damage(alloc, id, damage, out),
        Err(QueueFault::Fault) => ToolStatus::StoreFault(id),
        Err(QueueFault::Memory) => ToolStatus::NoMemory,
    }
}

/// How many rows a folder holds, or its first damage.
fn count_rows<S: Store>(alloc: Global, store: &mut S, folder: &str) -> Result<u64, QueueFault>
    requires { folder_start folder.now ≡ folder.now }
    ensures rows { IsTrue S.tells → Counts result (said_in folder.now (S.seen store.old)) }
    ensures same { ChangesNothing S.tells S.seen S.moment S.may_leave store.old store.new }
    ensures cause { HasCause (S.faults store.old) (S.faults store.new) (result ≡ Err f.Fault) }
{
    let opened = read_folder(alloc, store, folder)?;
    Ok(open_rows(&opened))
}

/// Tells how many rows there are.
pub(crate) fn tell_rows<O: Sink>(alloc: Global, rows: u64, out: &mut O) -> ToolStatus
    ensures ends { PrintsOr O.Sink (spec.rows_line rows) s.Done out.old out.new result }
    ensures out { HasCause (O.faults out.old) (O.faults out.new) (result ≡ s.OutputFault) }
{
    match rows_line(alloc, rows) {
        Ok(line) => tell(line.as_str(), ToolStatus::Done, out),
        Err(_) => ToolStatus::NoMemory,
    }
}

/// Tells where a queue is damaged.
fn tell_damage<O: Sink>(alloc: Global, id: Text, damage: Damage, out: &mut O) -> ToolStatus
    ensures ends { PrintsOr O.Sink (spec.status_line (s.Damaged id damage)) (s.Damaged id damage)
        out.old out.new result }
    ensures out { HasCause (O.faults out.old) (O.faults out.new) (result ≡ s.OutputFault) }
{
    let status = ToolStatus::Damaged(id, damage);
    match status_line(alloc, &status) {
        Ok(line) => tell(line.as_str(), status, out),
        Err(_) => ToolStatus::NoMemory,
    }
}

/// Prints a line; then this is the status, unless the output failed.
fn tell<O: Sink>(line: &str, status: ToolStatus, out: &mut O) -> ToolStatus
    requires { status ≢ s.OutputFault }
    ensures ends { Prints O.Sink line.now status out.old out.new result }
    ensures out { HasCause (O.faults out.old) (O.faults out.new) (result ≡ s.OutputFault) }
{
    match print(line, out) {
        Ok(()) => status,
        Err(_) => ToolStatus::OutputFault,
    }
}
