// Stores with one file, and faults as they are printed.
use io_memory::Script;
use io_traits::{Damage, PageState, QueueFault};
use plain_data::{Items, Text};
use std::alloc::{AllocError, Global};
use store_memory::{FileTable, MemoryStore};
use table_rows::first_number;

/// A store with one file, of which the call of this number fails.
pub fn store_with(
    alloc: Global,
    failing: u64,
    name: &str,
    bytes: &[u8],
) -> Result<MemoryStore, AllocError> {
    let mut files = FileTable::new(alloc);
    let file = Items::from_vec(Vec::from_slice(alloc, bytes)?);
    let _ = files.insert(Text::of(alloc, name)?, file)?;
    MemoryStore::new(files, Script::new(alloc, &[failing], &[])?, u64::MAX)
}

/// How a page is recorded: its least number, its count and its length. And what stands behind these.
pub fn state_of(row: &str) -> (PageState, &str) {
    let (least, row) = first_number(row);
    let (count, row) = first_number(row);
    let (length, row) = first_number(row);
    let state = PageState {
        page: 0,
        first_open: least,
        least,
        count: u32::try_from(count).unwrap_or(u32::MAX),
        length,
    };
    (state, row)
}

/// Adds why something was not read.
pub fn add_fault(
    to: &mut String,
    store: &MemoryStore,
    fault: &QueueFault,
) -> Result<(), AllocError> {
    match fault {
        QueueFault::Damaged(damage) => add_damage(to, damage),
        QueueFault::Fault => write!(to, "fault, of {}", store.script().faults()),
        QueueFault::Memory => Err(AllocError),
    }
}

/// Adds where something is damaged.
pub fn add_damage(to: &mut String, damage: &Damage) -> Result<(), AllocError> {
    let (place, found, expected) = (damage.place, damage.found, damage.expected);
    write!(
        to,
        "{} at {place}: {found}, not {expected}",
        damage.file.as_str()
    )
}
