// Checkpoint files, written and read.
ghost use Rattle.std.specs.Prelude.{◌≡◌};
ghost use Rattle.io_traits.specs.Reads.{file_length};
ghost use Rattle.store_memory.specs.Keeping.{reads_of};

use crate::files::{state_of, store_with};
use io_traits::PageState;
use slot_files::{Checkpoint, Slots};
use std::alloc::AllocError;
use store_memory::MemoryStore;
use table_rows::{add_bytes, bytes_of, first_number};

/// The name of the file.
const NAME: &str = "checkpoint.head";

/// How many bytes a slot has.
const SLOT_LEN: u64 = 48;

/// Adds what a row's checkpoint file says.
pub fn add_newest(to: &mut String, row: &str) -> Result<(), AllocError> {
    let bytes = bytes_of(*to.allocator(), row)?;
    let mut store = store_with(*to.allocator(), u64::MAX, NAME, &bytes)?;
    add_said(to, &mut store)
}

/// Writes the slot that a row says, and adds the file and what it says then.
pub fn add_written(to: &mut String, row: &str) -> Result<(), AllocError> {
    let (turn, row) = first_number(row);
    let (page, row) = first_number(row);
    let (first_open, row) = first_number(row);
    let (state, row) = state_of(row);
    let state = PageState {
        page: u32::try_from(page).unwrap_or(u32::MAX),
        first_open,
        ..state
    };
    let bytes = bytes_of(*to.allocator(), row)?;
    let mut store = store_with(*to.allocator(), u64::MAX, NAME, &bytes)?;
    if !write(&mut store, turn, &state) {
        return to.push_str("not done");
    }
    add_bytes(to, store.bytes(NAME).unwrap_or(&[]))?;
    to.push_str(" | ")?;
    add_said(to, &mut store)
}

/// The length of a file, 0 where it is missing.
pub fn length_of(store: &MemoryStore, name: &str) -> u64
    ensures { result ≡ file_length (reads_of store.now name.now) }
{
    match store.bytes(name) {
        Some(bytes) => bytes.len() as u64,
        None => 0,
    }
}

/// Whether a slot was written; a place behind the end of the file is none.
fn write(store: &mut MemoryStore, turn: u64, state: &PageState) -> bool {
    if turn % 2 == 1 && length_of(store, NAME) < SLOT_LEN {
        return false;
    }
    Checkpoint::write_slot(store, NAME, turn, state).is_ok()
}

fn add_said(to: &mut String, store: &mut MemoryStore) -> Result<(), AllocError> {
    match Checkpoint::newest(store, NAME) {
        Ok(slots) => add_slots(to, &slots),
        Err(_) => to.push_str("fault"),
    }
}

fn add_slots(to: &mut String, slots: &Slots) -> Result<(), AllocError> {
    add_slot(to, slots.newest)?;
    let (version, length, turn) = (slots.version, slots.length, slots.turn);
    write!(to, "; version {version}, {length} bytes, ")?;
    let (stored, computed) = (slots.stored, slots.computed);
    write!(to, "{stored:08x} {computed:08x} {turn}")
}

/// Adds the turn of a slot, and what it says of its page.
fn add_slot(to: &mut String, slot: Option<(u64, PageState)>) -> Result<(), AllocError> {
    let Some((turn, state)) = slot else {
        return to.push_str("none");
    };
    let (page, open) = (state.page, state.first_open);
    write!(to, "turn {turn}: page {page}, open {open}, ")?;
    let (least, count, length) = (state.least, state.count, state.length);
    write!(to, "least {least}, {count} rows, {length} bytes")
}
