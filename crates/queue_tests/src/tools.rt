// The tools for queues.

use crc_frame::crc32;
use io_memory::{MemorySink, Script};
use io_traits::Store;
use plain_data::{Items, Text};
use pq_tools::{ToolStatus, pqcheck, pqrepair};
use std::alloc::{AllocError, Global};
use std::str;
use store_memory::{FileTable, MemoryStore};
use table_rows::{bytes_of, first_word};

/// The folders whose files are shown.
const FOLDERS: [&str; 2] = ["data/main.repaired/", "data/main/"];

/// Adds how a tool ends with the words of a row, that of repairs where `--pqrepair` comes first, and else that of
/// checks; what it prints; and the files then.
pub fn add_call(to: &mut String, row: &str) -> Result<(), AllocError> {
    let alloc = *to.allocator();
    let (words, files) = row.split_once(';').unwrap_or((row, ""));
    let words = words_of(alloc, words)?;
    let mut store = store_of(alloc, files)?;
    add_ended(to, words.as_slice(), &mut store)?;
    add_files(to, &mut store)
}

fn words_of(alloc: Global, row: &str) -> Result<Vec<String>, AllocError> {
    let mut words = Vec::new(alloc);
    for word in row.split_whitespace() {
        words.push(String::from_str(alloc, word)?)?;
    }
    Ok(words)
}

// A store with the files of a row, which stand between bars, each with its name in front.
fn store_of(alloc: Global, files: &str) -> Result<MemoryStore, AllocError> {
    let mut table = FileTable::new(alloc);
    for file in files.split('|') {
        let (name, digits) = first_word(file.trim());
        if !name.is_empty() {
            let bytes = bytes_of(alloc, digits)?;
            let _ = table.insert(Text::of(alloc, name)?, Items::from_vec(bytes))?;
        }
    }
    MemoryStore::new(table, Script::new(alloc, &[], &[])?, u64::MAX)
}

fn add_ended(to: &mut String, words: &[String], store: &mut MemoryStore) -> Result<(), AllocError> {
    let alloc = *to.allocator();
    let mut out = MemorySink::new(alloc, usize::MAX, Script::new(alloc, &[], &[])?);
    let status = ended(alloc, words, store, &mut out);
    write!(to, "{} {status} [", status.number())?;
    to.push_str(str::from_utf8(out.taken()).unwrap_or("").trim())?;
    to.push_str("] [")
}

fn ended(
    alloc: Global,
    words: &[String],
    store: &mut MemoryStore,
    out: &mut MemorySink,
) -> ToolStatus {
    match words.first() {
        Some(word) if word.as_str() == "--pqrepair" => pqrepair(alloc, words, store, out),
        _ => pqcheck(alloc, words, store, out),
    }
}

// Of each file its name, its length and its CRC-32.
fn add_files(to: &mut String, store: &mut MemoryStore) -> Result<(), AllocError> {
    let mut some = false;
    for folder in FOLDERS {
        let Ok(parts) = store.list(*to.allocator(), folder) else {
            return to.push_str("fault]");
        };
        for part in parts.as_slice() {
            to.push_str(if some { ", " } else { "" })?;
            add_file(to, store, folder, part.as_str())?;
            some = true;
        }
    }
    to.push(']')
}

fn add_file(
    to: &mut String,
    store: &MemoryStore,
    folder: &str,
    part: &str,
) -> Result<(), AllocError> {
    let mut name = String::from_str(*to.allocator(), folder)?;
    name.push_str(part)?;
    let bytes = store.bytes(name.as_str()).unwrap_or(&[]);
    let (length, sum) = (bytes.len(), crc32(bytes));
    write!(to, "{} {length} {sum:08x}", name.as_str())
}
