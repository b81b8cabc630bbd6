// What the files of a store hold after a stop: the rows of a queue, the content of an output file, a recorded position,
// and the segments of dead letters. Each is None where it is damaged.

use dead_letters::{Counted, Segments, read_segments, segment_name};
use event_tree::Text;
use history_judges::{Fault, Judged};
use io_memory::{FileTable, Script, bytes_in, copy};
use io_traits::QueueFault;
use plain_data::Items;
use queue_core::{BatchReader, QueueRow};
use queue_files::{OpenedQueue, open_folder, page_name};
use queue_page::{BLOCK_LEN, Page, PageBuffer};
use slot_files::{Recorded, read_position};
use std::alloc::Global;
use store_memory::MemoryStore;

/// The place of the first row in the file of a page.
const FIRST_PLACE: u64 = 1;

/// What the folder of a queue holds.
#[derive(Drop)]
pub struct FoundRows {
    /// The rows that aren't recorded as acknowledged.
    pub rows: Items<QueueRow>,
    /// The number of the next row.
    pub next: u64,
    /// The number behind those of which the head page's checkpoint speaks.
    pub recorded: u64,
}

/// What the folder of a queue holds, whose path ends with a slash.
pub fn found_rows(image: &FileTable, folder: &str) -> Judged<Option<FoundRows>> {
    if folder.as_bytes().last().copied().unwrap_or(b'/') != b'/' {
        return Ok(None);
    }
    let mut store = store_of(image)?;
    let Some(opened) = unless_damaged(open_folder(image.allocator(), &mut store, folder))? else {
        return Ok(None);
    };
    let (next, recorded) = numbers_of(&opened);
    Ok(Some(FoundRows {
        rows: rows_of(image.allocator(), &mut store, folder, &opened)?,
        next,
        recorded,
    }))
}

// The number of the next row, and that behind those of which the head page's checkpoint speaks.
fn numbers_of(opened: &OpenedQueue) -> (u64, u64) {
    let head = opened.pages.top.state();
    let next = head.least.saturating_add(u64::from(head.count));
    let recorded = opened
        .state
        .least
        .saturating_add(u64::from(opened.state.count));
    (next, recorded)
}

// The rows of all pages that aren't recorded as acknowledged, in order.
fn rows_of(
    alloc: Global,
    store: &mut MemoryStore,
    folder: &str,
    opened: &OpenedQueue,
) -> Judged<Items<QueueRow>> {
    let mut rows = Items::new(alloc);
    let sealed = opened.pages.tails.as_slice();
    for (tail, page) in sealed.iter().zip(opened.pages.pages.iter()) {
        let from = tail.state.first_open;
        rows.append(page_rows(alloc, store, folder, tail.number, page, from)?)?;
    }
    let from = opened.state.first_open;
    let last = page_rows(
        alloc,
        store,
        folder,
        opened.state.page,
        &opened.pages.top,
        from,
    )?;
    rows.append(last)?;
    Ok(rows)
}

// Those of the page of this number, from a number on.
fn page_rows(
    alloc: Global,
    store: &mut MemoryStore,
    folder: &str,
    number: u32,
    page: &Page,
    from: u64,
) -> Judged<Items<QueueRow>> {
    let state = page.state();
    if state.least.checked_add(u64::from(state.count)).is_none() {
        return Err(Fault::Memory);
    }
    let name = page_name(alloc, folder, number)?;
    let mut block = PageBuffer::new(alloc, BLOCK_LEN)?;
    let mut reader = BatchReader::new(
        Items::new(alloc),
        usize::MAX,
        u64::MAX,
        state.least,
        FIRST_PLACE,
    );
    match reader.read_page(alloc, store, name.as_str(), page, from, &mut block) {
        Ok(()) => Ok(reader.rows),
        Err(_) => Err(Fault::Memory),
    }
}

fn unless_damaged<T: Drop>(read: Result<T, QueueFault>) -> Judged<Option<T>> {
    match read {
        Ok(found) => Ok(Some(found)),
        Err(QueueFault::Damaged(_)) => Ok(None),
        Err(_) => Err(Fault::Memory),
    }
}

/// The content of a file with its position file, which has the name `slot`: its bytes up to the recorded position, or
/// all, where nothing is recorded. None, too, where it ends before its position.
pub fn file_content<'a>(image: &'a FileTable, path: &str, slot: &str) -> Judged<Option<&'a [u8]>> {
    let bytes = bytes_at(image, path);
    match recorded(image, slot, bytes.len() as u64)? {
        Some(count) => Ok(front(bytes, count)),
        None => Ok(None),
    }
}

/// The position that a position file records: `base`, where nothing is recorded.
pub fn recorded(image: &FileTable, slot: &str, base: u64) -> Judged<Option<u64>> {
    let mut store = store_of(image)?;
    match read_position(&mut store, slot) {
        Ok(Recorded::Nothing) => Ok(Some(base)),
        Ok(Recorded::Position(_, position)) => Ok(Some(position)),
        Ok(Recorded::Damaged(_, _)) => Ok(None),
        Err(_) => Err(Fault::Memory),
    }
}

/// The segments of the dead letters that a folder holds, whose path ends with a slash: the number of the oldest, and
/// the bytes of each.
pub fn found_segments(image: &FileTable, folder: &str) -> Judged<Option<(u64, Vec<Vec<u8>>)>> {
    let Some(counted) = counted_segments(image, folder)? else {
        return Ok(None);
    };
    let Segments {
        first,
        last,
        length,
    } = counted;
    let alloc = image.allocator();
    let mut segments = Vec::new(alloc);
    for number in first..last {
        let name = segment_name(image.allocator(), folder, number)?;
        segments.push(Vec::from_slice(alloc, bytes_at(image, name.as_str()))?)?;
    }
    let name = segment_name(image.allocator(), folder, last)?;
    match front(bytes_at(image, name.as_str()), length) {
        Some(newest) => segments.push(Vec::from_slice(alloc, newest)?)?,
        None => return Ok(None),
    }
    Ok(Some((u64::from(first), segments)))
}

// Which segments count; of a queue of the first version, or a new one, the one with the number 0.
fn counted_segments(image: &FileTable, folder: &str) -> Judged<Option<Segments>> {
    let mut store = store_of(image)?;
    let name = in_folder(image, folder, "dead.seg")?;
    match read_segments(&mut store, name.as_str()) {
        Ok(Counted::Count(_, segments)) => Ok(Some(segments)),
        Ok(Counted::Damaged(_, _)) => Ok(None),
        Ok(Counted::Nothing) => first_segment(image, folder),
        Err(_) => Err(Fault::Memory),
    }
}

fn first_segment(image: &FileTable, folder: &str) -> Judged<Option<Segments>> {
    let name = segment_name(image.allocator(), folder, 0)?;
    let slot = in_folder(image, folder, "dead.pos")?;
    let whole = bytes_at(image, name.as_str()).len() as u64;
    let length = recorded(image, slot.as_str(), whole)?;
    Ok(length.map(|length| Segments {
        first: 0,
        last: 0,
        length,
    }))
}

// A store that holds these files, all of them settled.
fn store_of(image: &FileTable) -> Judged<MemoryStore> {
    let script = Script::empty(image.allocator());
    Ok(MemoryStore::new(copy(image)?, script, u64::MAX)?)
}

/// The bytes of a file; a missing one has none.
pub(crate) fn bytes_at<'a>(image: &'a FileTable, name: &str) -> &'a [u8] {
    bytes_in(image, name).unwrap_or(&[])
}

// The first of these bytes, where there are so many.
fn front(bytes: &[u8], count: u64) -> Option<&[u8]> {
    if count <= bytes.len() as u64 {
        Some(&bytes[..count as usize])
    } else {
        None
    }
}

// A name in a folder.
fn in_folder(image: &FileTable, folder: &str, part: &str) -> Judged<Text> {
    Ok(Text::from_string(format!(in image.allocator(); "{folder}{part}")?))
}
