// Calls of a persistent queue, of any store and without clauses on what they answer.
ghost use Rattle.std.specs.Prelude.{IsTrue, IfOk};
ghost use Rattle.io_traits.specs.Folders.{Content};
ghost use Rattle.queue_core.specs.Opens.{IsReady, IsSlotted};

use crate::files::add_damage;
use crate::queues::FOLDER;
use event_tree::Event;
use io_traits::{QueueFault, Store};
use queue_core::{Limits, Numbers, Queue, WriteFault};
use std::alloc::AllocError;

/// How many bytes an origin may have.
const MOST_ORIGIN_BYTES: usize = 255;

/// Adds what the calls of runs answer, which stand between semicolons. Each run begins with an opening, and ends
/// behind the first call that fails.
pub fn add_runs<S: Store>(
    to: &mut String,
    store: &mut S,
    limits: Limits,
    runs: &str,
) -> Result<(), AllocError> {
    for calls in runs.split(';') {
        match Queue::open_on(*to.allocator(), store, FOLDER, limits) {
            Ok(queue) => add_calls(to, store, queue, calls)?,
            Err(fault) => add_fault(to, &fault)?,
        }
    }
    Ok(())
}

fn add_calls<S: Store>(
    to: &mut String,
    store: &mut S,
    mut queue: Queue,
    calls: &str,
) -> Result<(), AllocError>
    requires { IsReady S.Store queue store.old }
{
    to.push_str("open; ")?;
    for call in calls.split_whitespace() {
        if !add_call(to, store, &mut queue, call)? {
            return Ok(());
        }
    }
    Ok(())
}

// Adds what a call answers, if it answers anything. Behind false the queue takes no more calls.
fn add_call<S: Store>(
    to: &mut String,
    store: &mut S,
    queue: &mut Queue,
    call: &str,
) -> Result<bool, AllocError>
    requires { IsReady S.Store queue.old store.old }
    ensures { IfOk result (λ more. IsTrue more → IsReady S.Store queue.new store.new) }
{
    let (kind, what) = call.split_once(':').unwrap_or((call, ""));
    match kind {
        "w" => return add_written(to, store, queue, what),
        "k" => return add_kept(to, store, queue, what),
        "t" => return add_batch(to, store, queue, what.parse().unwrap_or(1)),
        "m" => return add_marked(to, store, queue),
        "p" => return add_purged(to, store, queue),
        "a" => acknowledge(queue, what),
        _ => write!(to, "{}; ", queue.unread())?,
    }
    Ok(true)
}

/// Writes an empty event, with what stands behind the kind of the call as its origin.
fn add_written<S: Store>(
    to: &mut String,
    store: &mut S,
    queue: &mut Queue,
    origin: &str,
) -> Result<bool, AllocError>
    requires { IsReady S.Store queue.old store.old }
    ensures { IfOk result (λ more. IsTrue more → IsReady S.Store queue.new store.new) }
{
    if origin.is_empty() || origin.len() > MOST_ORIGIN_BYTES {
        return Ok(false);
    }
    let alloc = *to.allocator();
    match queue.write(alloc, store, origin, &Event::new(alloc)) {
        Ok(number) => {
            write!(to, "{number}; ")?;
            Ok(true)
        }
        Err(fault) => {
            to.push_str(refusal(&fault)?)?;
            Ok(false)
        }
    }
}

/// Writes an empty event in the same way, which is kept for its batch.
fn add_kept<S: Store>(
    to: &mut String,
    store: &mut S,
    queue: &mut Queue,
    origin: &str,
) -> Result<bool, AllocError>
    requires { IsReady S.Store queue.old store.old }
    ensures { IfOk result (λ more. IsTrue more → IsReady S.Store queue.new store.new) }
{
    if origin.is_empty() || origin.len() > MOST_ORIGIN_BYTES {
        return Ok(false);
    }
    let alloc = *to.allocator();
    match queue.write_and_keep(alloc, store, origin, Event::new(alloc)) {
        Ok(number) => {
            write!(to, "{number}; ")?;
            Ok(true)
        }
        Err(unwritten) => {
            to.push_str(refusal(&unwritten.cause)?)?;
            Ok(false)
        }
    }
}

fn refusal(fault: &WriteFault) -> Result<&'static str, AllocError> {
    match fault {
        WriteFault::NumbersSpent => Ok("spent; "),
        WriteFault::Full => Ok("full; "),
        WriteFault::Fault => Ok("fault; "),
        WriteFault::Memory => Err(AllocError),
    }
}

fn add_batch<S: Store>(
    to: &mut String,
    store: &mut S,
    queue: &mut Queue,
    most: u32,
) -> Result<bool, AllocError>
    requires { IsReady S.Store queue.old store.old }
    ensures { IfOk result (λ more. IsTrue more → IsReady S.Store queue.new store.new) }
{
    match queue.take_batch(*to.allocator(), store, most.max(1)) {
        Ok(None) => to.push_str("none; ")?,
        Ok(Some(batch)) => add_rows(to, batch.rows.as_slice())?,
        Err(fault) => {
            add_fault(to, &fault)?;
            return Ok(false);
        }
    }
    Ok(true)
}

fn add_rows(to: &mut String, rows: &[u64]) -> Result<(), AllocError> {
    for (at, row) in rows.iter().enumerate() {
        to.push_str(if at > 0 { " " } else { "" })?;
        write!(to, "{row}")?;
    }
    to.push_str("; ")
}

fn acknowledge(queue: &mut Queue, numbers: &str)
    ensures { (content : Content) → IsSlotted queue.old content → IsSlotted queue.new content }
{
    let (first, behind) = numbers.split_once('-').unwrap_or((numbers, ""));
    queue.acknowledge(Numbers {
        first: first.parse().unwrap_or(0),
        behind: behind.parse().unwrap_or(0),
    });
}

fn add_marked<S: Store>(
    to: &mut String,
    store: &mut S,
    queue: &mut Queue,
) -> Result<bool, AllocError>
    requires { IsReady S.Store queue.old store.old }
    ensures { IfOk result (λ more. IsTrue more → IsReady S.Store queue.new store.new) }
{
    let Ok(number) = queue.mark(store) else {
        to.push_str("fault; ")?;
        return Ok(false);
    };
    write!(to, "{number}; ")?;
    Ok(true)
}

fn add_purged<S: Store>(
    to: &mut String,
    store: &mut S,
    queue: &mut Queue,
) -> Result<bool, AllocError>
    requires { IsReady S.Store queue.old store.old }
    ensures { IfOk result (λ more. IsTrue more → IsReady S.Store queue.new store.new) }
{
    match queue.purge(store) {
        Ok(Some(number)) => write!(to, "{number}; ")?,
        Ok(None) => to.push_str("none; ")?,
        Err(_) => {
            to.push_str("fault; ")?;
            return Ok(false);
        }
    }
    Ok(true)
}

fn add_fault(to: &mut String, fault: &QueueFault) -> Result<(), AllocError> {
    match fault {
        QueueFault::Damaged(damage) => add_damage(to, damage)?,
        QueueFault::Fault => to.push_str("fault")?,
        QueueFault::Memory => return Err(AllocError),
    }
    to.push_str("; ")
}
