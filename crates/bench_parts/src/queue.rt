//! Writes rows into a queue in a `FileStore`, kept for their batch or not, takes them in batches, acknowledges, marks and
//! purges, or opens the queue (bench/queue.sh).

use crate::elements;
use event_tree::Event;
use io_real::FileStore;
use plain_data::Items;
use queue_core::{Limits, Queue};
use std::alloc::Global;

/// The folder of the queue, in the one in which the program is run.
const FOLDER: &str = "queue/";

/// The input of all rows.
const ORIGIN: &str = "input_1";

/// How many rows a batch has.
const BATCH: u32 = 125;

/// Behind how many rows the queue is marked.
const EVERY: u32 = 1024;

/// The texts of an event of which a row of a page has 300 bytes, with their paths.
const TEXTS: [(&str, &str); 4] = [
    ("@version", "1"),
    (
        "message",
        "10.1.2.3 - alice [05/Mar/2024:00:00:00 +0000] \"GET /shop/item/1234?page=5 HTTP/1.1\" 200 48213 0.1",
    ),
    ("[host][name]", "web-07.example.org"),
    ("[log][file][path]", "/var/log/nginx/access.log"),
];

/// How many bytes so many rounds encode or decode; or how many rows a queue still has to give, whose pages have so
/// many bytes: when it was opened, when so many were written, or when these were given too, and the pages that are
/// wholly acknowledged were kept or purged.
pub fn run(rt: &HostRuntime, words: &[String]) -> Option<u64> {
    let event = event(rt.alloc())?;
    if let [call, rounds] = words {
        let rounds = rounds.as_str().parse::<u32>().ok()?;
        return elements::coded(rt.alloc(), &event, call.as_str(), rounds);
    }
    let [call, capacity, rows] = words else {
        return None;
    };
    let limits = Limits {
        page_capacity: capacity.as_str().parse::<u64>().ok()?,
        max_bytes: u64::MAX,
    };
    let rows = rows.as_str().parse::<u32>().ok()?;
    let mut store = FileStore::new(rt.alloc(), rt);
    let mut queue = Queue::open_on(rt.alloc(), &mut store, FOLDER, limits).ok()?;
    match call.as_str() {
        "fill" => fill(rt.alloc(), &mut store, &mut queue, &event, rows)?,
        "keep" => pass(rt.alloc(), &mut store, &mut queue, &event, rows, false)?,
        "hold" => hold(rt.alloc(), &mut store, &mut queue, rows)?,
        "purge" => pass(rt.alloc(), &mut store, &mut queue, &event, rows, true)?,
        _ => {}
    }
    Some(queue.unread())
}

/// An event like that of a line of a short access log.
fn event(alloc: Global) -> Option<Event> {
    let mut event = Event::new(alloc);
    elements::put_texts(alloc, &mut event, &TEXTS)?;
    elements::put_moment(alloc, &mut event)?;
    Some(event)
}

/// Writes so many rows, and marks the queue.
fn fill(
    alloc: Global,
    store: &mut FileStore<&HostRuntime>,
    queue: &mut Queue,
    event: &Event,
    rows: u32,
) -> Option<()> {
    for _ in 0..rows {
        queue.write(alloc, store, ORIGIN, event).ok()?;
    }
    queue.mark(store).ok()?;
    Some(())
}

/// Writes so many rows, takes and acknowledges each batch of them, and marks the queue behind every so many.
fn pass(
    alloc: Global,
    store: &mut FileStore<&HostRuntime>,
    queue: &mut Queue,
    event: &Event,
    rows: u32,
    purges: bool,
) -> Option<()> {
    for row in 0..rows {
        queue.write(alloc, store, ORIGIN, event).ok()?;
        let written = row.wrapping_add(1);
        if written % BATCH == 0 {
            let batch = queue.take_batch(alloc, store, BATCH).ok()??;
            queue.acknowledge(batch.numbers);
        }
        if written % EVERY == 0 {
            queue.mark(store).ok()?;
            if purges {
                purge(store, queue)?;
            }
        }
    }
    Some(())
}

/// The same with rows that are kept for their batch: the events that a batch gives are those of the next rows.
fn hold(
    alloc: Global,
    store: &mut FileStore<&HostRuntime>,
    queue: &mut Queue,
    rows: u32,
) -> Option<()> {
    let mut events = Items::new(alloc);
    for _ in 0..BATCH {
        events.push(event(alloc)?).ok()?;
    }
    for row in 0..rows {
        let event = events.pop()?;
        queue.write_and_keep(alloc, store, ORIGIN, event).ok()?;
        let written = row.wrapping_add(1);
        if written % BATCH == 0 {
            let batch = queue.take_batch(alloc, store, BATCH).ok()??;
            queue.acknowledge(batch.numbers);
            events = batch.events;
        }
        if written % EVERY == 0 {
            queue.mark(store).ok()?;
        }
    }
    Some(())
}

/// Purges all pages that can be.
fn purge(store: &mut FileStore<&HostRuntime>, queue: &mut Queue) -> Option<()> {
    for _ in 0..u32::MAX {
        if queue.purge(store).ok()?.is_none() {
            break;
        }
    }
    Some(())
}
