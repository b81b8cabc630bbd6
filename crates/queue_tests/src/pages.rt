// Page files of a queue, with calls that fail.
use crate::files::{add_fault, state_of, store_with};
use crc_frame::frame;
use element_code::{Origin, encode, encode_row};
use event_json::write_json;
use event_tree::{Event, Value};
use io_traits::{PageState, QueueFault};
use queue_page::{BLOCK_LEN, Page, PageBuffer, PageRow, frame_row};
use std::alloc::{AllocError, Global};
use std::str;
use store_memory::MemoryStore;
use table_rows::{add_bytes, bytes_of, first_number, first_word};

/// The name of the file.
const NAME: &str = "page.0";

/// The number that no row has any more.
const NUMBERS_END: u64 = 0x7FFF_FFFF_FFFF_FFFF;

/// The version of pages whose rows name their inputs.
const LAST_VERSION: u8 = 2;

/// How many bytes an origin may have.
const MOST_ORIGIN_BYTES: usize = 255;

/// How many bytes of JSON are shown; of a longer text its length is.
const SHOWN: usize = 100;

/// A page in its store, as it is recorded.
struct PageCase {
    store: MemoryStore,
    state: PageState,
    head: bool,
}

// Written out, so that it is one call wherever an error is handed on.
impl Drop for PageCase {
    fn drop(self) {
        let PageCase {
            store: _store,
            state: _,
            head: _,
        } = self;
    }
}

/// Adds what a row's page says where the first call of its store fails that is named.
pub fn add_failing(to: &mut String, row: &str) -> Result<(), AllocError> {
    let (failing, row) = first_number(row);
    add_opened(to, failing, row)
}

/// Adds what a row's page says, with all its rows.
pub fn add_opened(to: &mut String, failing: u64, row: &str) -> Result<(), AllocError> {
    let alloc = *to.allocator();
    let mut case = case_of(alloc, failing, row)?;
    match scan(alloc, &mut case) {
        Ok(page) => add_page(to, &mut case.store, &page),
        Err(fault) => add_fault(to, &case.store, &fault),
    }
}

/// Adds the file of a row's page behind an append of an empty event.
pub fn add_appended(to: &mut String, row: &str) -> Result<(), AllocError> {
    let alloc = *to.allocator();
    let (origin, row) = first_word(row);
    let mut case = case_of(alloc, u64::MAX, row)?;
    match scan(alloc, &mut case) {
        Ok(mut page) => {
            let done = append(alloc, &mut case.store, &mut page, origin)?;
            to.push_str(if done { "done" } else { "not done" })?;
            add_file(to, &case.store, &page)
        }
        Err(fault) => add_fault(to, &case.store, &fault),
    }
}

fn case_of(alloc: Global, failing: u64, row: &str) -> Result<PageCase, AllocError> {
    let (kind, row) = first_word(row);
    let (state, row) = state_of(row);
    let bytes = bytes_of(alloc, row)?;
    Ok(PageCase {
        store: store_with(alloc, failing, NAME, &bytes)?,
        state,
        head: kind == "head",
    })
}

// The page, opened. One whose numbers go too far is no call.
fn scan(alloc: Global, case: &mut PageCase) -> Result<Page, QueueFault> {
    let state = case.state;
    let Some(end) = state.least.checked_add(u64::from(state.count)) else {
        return Err(QueueFault::Fault);
    };
    if end > NUMBERS_END {
        return Err(QueueFault::Fault);
    }
    Page::scan(alloc, &mut case.store, NAME, &state, case.head)
}

fn add_page(to: &mut String, store: &mut MemoryStore, page: &Page) -> Result<(), AllocError> {
    let alloc = *to.allocator();
    let state = *page.state();
    let (version, count, end) = (page.version(), state.count, state.length);
    write!(to, "version {version}, {count} rows, {end} of ")?;
    write!(to, "{} bytes", file_of(store).len())?;
    let mut block = PageBuffer::new(alloc, BLOCK_LEN)?;
    let mut spelled = Vec::new(alloc);
    spelled.push(version)?;
    let mut place = 1;
    let mut number = state.least;
    for _ in 0..count {
        if place > page.state().length {
            return to.push_str(" | past the end");
        }
        match page.read_next(alloc, store, NAME, &mut block, place, number) {
            Ok(row) => {
                let alike = is_read_alike(alloc, store, page, place, &row);
                to.push_str(if alike { " | " } else { " | unlike " })?;
                add_row(to, &row)?;
                spell(&mut spelled, &row)?;
                place = row.next;
                number = number.wrapping_add(1);
            }
            Err(fault) => {
                to.push_str(" | ")?;
                return add_fault(to, store, &fault);
            }
        }
    }
    let again = file_of(store).starts_with(&spelled);
    to.push_str(if again { " | again" } else { " | otherwise" })
}

fn file_of(store: &MemoryStore) -> &[u8] {
    store.bytes(NAME).unwrap_or(&[])
}

/// Whether the row is read as this one also by its place alone.
fn is_read_alike(
    alloc: Global,
    store: &mut MemoryStore,
    page: &Page,
    place: u64,
    row: &PageRow,
) -> bool {
    if place > page.state().length {
        return false;
    }
    match page.read_row(alloc, store, NAME, place) {
        Ok(again) => {
            again.number == row.number && again.next == row.next && again.event.same(&row.event)
        }
        Err(_) => false,
    }
}

fn add_row(to: &mut String, row: &PageRow) -> Result<(), AllocError> {
    write!(to, "{} ", row.number)?;
    match &row.origin {
        Origin::Unknown => to.push_str("unknown ")?,
        Origin::Id(id) => write!(to, "{:?} ", id.as_str())?,
    }
    add_json(to, row.event.fields())?;
    to.push('|')?;
    add_json(to, row.event.meta())
}

/// Adds a value as JSON, or how long that is.
pub fn add_json(to: &mut String, value: &Value) -> Result<(), AllocError> {
    let mut bytes = Vec::new(*to.allocator());
    write_json(value, &mut bytes)?;
    if bytes.len() > SHOWN {
        return write!(to, "{} bytes of JSON", bytes.len());
    }
    to.push_str(str::from_utf8(&bytes).unwrap_or("no UTF-8"))
}

/// Adds the element of a row as the tables of the format have it.
fn spell(to: &mut Vec<u8>, row: &PageRow) -> Result<(), AllocError> {
    let mut body = Vec::new(*to.allocator());
    match &row.origin {
        Origin::Unknown => encode(&row.event, &mut body)?,
        Origin::Id(id) => spell_body(&mut body, id.as_str(), &row.event)?,
    }
    if body.len() > u32::MAX as usize {
        return Ok(());
    }
    frame(row.number, &body, to)
}

fn spell_body(to: &mut Vec<u8>, origin: &str, event: &Event) -> Result<(), AllocError> {
    if origin.is_empty() || origin.len() > MOST_ORIGIN_BYTES {
        return Ok(());
    }
    encode_row(origin, event, to)
}

/// Appends an empty event, if the page takes one with this origin.
fn append(
    alloc: Global,
    store: &mut MemoryStore,
    page: &mut Page,
    origin: &str,
) -> Result<bool, AllocError> {
    let state = *page.state();
    if page.version() != LAST_VERSION || state.count == u32::MAX {
        return Ok(false);
    }
    if origin.is_empty() || origin.len() > MOST_ORIGIN_BYTES {
        return Ok(false);
    }
    let Some(number) = state.least.checked_add(u64::from(state.count)) else {
        return Ok(false);
    };
    let mut frame = Vec::new(alloc);
    frame_row(number, origin, &Event::new(alloc), &mut frame)?;
    if state.length > u64::MAX - frame.len() as u64 {
        return Ok(false);
    }
    Ok(page.append_row(store, NAME, &frame).is_ok())
}

fn add_file(to: &mut String, store: &MemoryStore, page: &Page) -> Result<(), AllocError> {
    let (count, length) = (page.state().count, page.state().length);
    write!(to, ", {count} rows, {length} bytes: ")?;
    add_bytes(to, file_of(store))
}
