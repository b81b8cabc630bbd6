//! Writes the rows of a page of a queue into a file of a `FileStore`, with a sync every so many, and opens the page
//! again (bench/page.sh).

ghost use Rattle.std.specs.Prelude.{◌+◌, ◌-◌, ◌^◌, ◌≤◌};

use crate::elements;
use event_tree::Event;
use io_real::FileStore;
use io_traits::{PageState, Store};
use queue_page::{Page, frame_row};
use std::alloc::Global;

/// The version of pages whose rows name their inputs.
const LAST_VERSION: u8 = 2;

/// The input of all rows.
const ORIGIN: &str = "input_1";

/// How many rows were written into a file, or are found in it.
pub fn run(rt: &HostRuntime, words: &[String]) -> Option<u64> {
    let [call, file, rows, every] = words else {
        return None;
    };
    let rows = rows.as_str().parse::<u32>().ok()?;
    let every = every.as_str().parse::<u32>().ok()?;
    let mut store = FileStore::new(rt.alloc(), rt);
    if call.as_str() != "write" {
        return scan(rt.alloc(), &mut store, file.as_str(), rows);
    }
    let event = elements::event(rt.alloc())?;
    write(rt.alloc(), &mut store, file.as_str(), &event, rows, every)
}

/// How a page with so many rows from number 1 on is recorded.
fn recorded(count: u32, length: u64) -> PageState
    ensures { result.least + result.count ≤ 2 ^ 63 - 1 }
{
    PageState {
        page: 0,
        first_open: 1,
        least: 1,
        count,
        length,
    }
}

/// Writes a new page with so many rows of this event.
fn write<S: Store>(
    alloc: Global,
    store: &mut S,
    name: &str,
    event: &Event,
    rows: u32,
    every: u32,
) -> Option<u64> {
    store.append(name, &[LAST_VERSION]).ok()?;
    let mut page = Page::start(recorded(0, 1));
    let mut frame = Vec::new(alloc);
    for row in 0..rows {
        append(store, name, &mut page, event, &mut frame)?;
        if row.wrapping_add(1).checked_rem(every) == Some(0) {
            store.sync().ok()?;
        }
    }
    store.sync().ok()?;
    Some(u64::from(page.state().count))
}

/// Appends a row, whose element is made in this room; none where the page takes no more.
fn append<S: Store>(
    store: &mut S,
    name: &str,
    page: &mut Page,
    event: &Event,
    frame: &mut Vec<u8>,
) -> Option<()> {
    let state = *page.state();
    if page.version() != LAST_VERSION || state.count == u32::MAX {
        return None;
    }
    let Some(number) = state.least.checked_add(u64::from(state.count)) else {
        return None;
    };
    frame.clear();
    let Ok(()) = frame_row(number, ORIGIN, event, frame) else {
        return None;
    };
    if state.length > u64::MAX - frame.len() as u64 {
        return None;
    }
    page.append_row(store, name, frame).ok()
}

/// Opens a page in which so many rows are recorded.
fn scan<S: Store>(alloc: Global, store: &mut S, name: &str, rows: u32) -> Option<u64> {
    let length = store.length(name).ok()??;
    let page = Page::scan(alloc, store, name, &recorded(rows, length), false).ok()?;
    Some(u64::from(page.state().count))
}
