// Segments of dead letters, written and read.
use crate::files::store_with;
use crate::pages::add_json;
use crate::slots::length_of;
use dead_letters::{
    Counted, DeadLetter, ReadFault, Segments, count_segments, read_records, read_segments, shed,
    write_record,
};
use settings_lines::Policy;
use std::alloc::{AllocError, Global};
use store_memory::MemoryStore;
use table_rows::{add_bytes, bytes_of, first_number, first_word};

/// The name of the file that names the segments of a queue.
const NAME: &str = "dead.seg";

/// How many bytes a slot of it has.
const SLOT_LEN: u64 = 32;

/// How many bytes of a text are shown.
const SHOWN: usize = 60;

/// Adds the letters of a row's segment, and whether they are written so; or the record that doesn't read.
pub fn add_read(to: &mut String, row: &str) -> Result<(), AllocError> {
    let bytes = bytes_of(*to.allocator(), row)?;
    match read_records(*to.allocator(), &bytes) {
        Ok(letters) => add_letters(to, letters.as_slice(), &bytes),
        Err(ReadFault::At(fault)) => {
            let (place, found, expected) = (fault.place, fault.found, fault.expected);
            write!(to, "at {place}: {found}, not {expected}")
        }
        Err(ReadFault::Memory) => Err(AllocError),
    }
}

fn add_letters(to: &mut String, letters: &[DeadLetter], bytes: &[u8]) -> Result<(), AllocError> {
    let mut again = Vec::new(*to.allocator());
    for letter in letters {
        add_letter(to, letter)?;
        spell(&mut again, letter)?;
    }
    if again.as_slice() == bytes {
        to.push_str("the same again")
    } else {
        to.push_str("other bytes")
    }
}

fn add_letter(to: &mut String, letter: &DeadLetter) -> Result<(), AllocError> {
    add_text(to, letter.kind.as_str())?;
    add_text(to, letter.id.as_str())?;
    add_text(to, letter.reason.as_str())?;
    write!(to, "{} ", letter.moment.nanos())?;
    add_json(to, letter.event.fields())?;
    to.push('|')?;
    add_json(to, letter.event.meta())?;
    to.push_str("; ")
}

fn add_text(to: &mut String, text: &str) -> Result<(), AllocError> {
    if text.len() > SHOWN {
        return write!(to, "{} bytes, ", text.len());
    }
    write!(to, "{text:?}, ")
}

fn spell(to: &mut Vec<u8>, letter: &DeadLetter) -> Result<(), AllocError> {
    if !letter.fits_record() {
        return Ok(());
    }
    write_record(letter, to)
}

/// Adds what is shed by a row's policy, limit, bytes of segments and bytes of records.
pub fn add_shed(to: &mut String, row: &str) -> Result<(), AllocError> {
    let (policy, row) = first_word(row);
    let (limit, row) = first_number(row);
    let (segments, records) = row.split_once('|').unwrap_or((row, ""));
    let segments = numbers_of(*to.allocator(), segments)?;
    let records = numbers_of(*to.allocator(), records)?;
    let shed = shed(
        *to.allocator(),
        policy_of(policy),
        limit,
        &segments,
        &records,
    )?;
    write!(to, "older {}, newer", shed.older)?;
    for place in shed.newer.as_slice() {
        write!(to, " {place}")?;
    }
    Ok(())
}

/// The policy of a word.
pub fn policy_of(word: &str) -> Policy {
    match word {
        "drop_newer" => Policy::DropNewer,
        "drop_older" => Policy::DropOlder,
        _ => Policy::Hold,
    }
}

fn numbers_of(alloc: Global, words: &str) -> Result<Vec<u64>, AllocError> {
    let mut numbers = Vec::new(alloc);
    for word in words.split_whitespace() {
        numbers.push(word.parse().unwrap_or(0))?;
    }
    Ok(numbers)
}

/// Adds what a row's file says of segments.
pub fn add_counted(to: &mut String, row: &str) -> Result<(), AllocError> {
    let bytes = bytes_of(*to.allocator(), row)?;
    let mut store = store_with(*to.allocator(), u64::MAX, NAME, &bytes)?;
    add_said(to, &mut store, NAME)
}

/// Writes the slot that a row says, and adds the file and what it says then.
pub fn add_written(to: &mut String, row: &str) -> Result<(), AllocError> {
    let (turn, row) = first_number(row);
    let (first, row) = first_number(row);
    let (last, row) = first_number(row);
    let (length, row) = first_number(row);
    let segments = Segments {
        first: u32::try_from(first).unwrap_or(u32::MAX),
        last: u32::try_from(last).unwrap_or(u32::MAX),
        length,
    };
    let bytes = bytes_of(*to.allocator(), row)?;
    let mut store = store_with(*to.allocator(), u64::MAX, NAME, &bytes)?;
    if !write(&mut store, turn, segments) {
        return to.push_str("not done");
    }
    add_bytes(to, store.bytes(NAME).unwrap_or(&[]))?;
    to.push_str(" | ")?;
    add_said(to, &mut store, NAME)
}

/// Whether a slot was written; a place behind the end of the file is none.
fn write(store: &mut MemoryStore, turn: u64, segments: Segments) -> bool {
    if segments.last < segments.first {
        return false;
    }
    if turn % 2 == 1 && length_of(store, NAME) < SLOT_LEN {
        return false;
    }
    count_segments(store, NAME, turn, segments).is_ok()
}

/// Adds what the file of a name says of segments.
pub fn add_said(to: &mut String, store: &mut MemoryStore, name: &str) -> Result<(), AllocError> {
    match read_segments(store, name) {
        Ok(Counted::Nothing) => to.push_str("nothing"),
        Ok(Counted::Count(turn, segments)) => {
            let (first, last, length) = (segments.first, segments.last, segments.length);
            write!(to, "{first} to {last}, {length} bytes, in turn {turn}")
        }
        Ok(Counted::Damaged(found, expected)) => write!(to, "{found}, not {expected}"),
        Err(_) => to.push_str("fault"),
    }
}
