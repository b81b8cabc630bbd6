// The files that a row says.

use io_memory::{FileTable, MemoryFiles, Script, Showing};
use plain_data::{Items, Names, Text};
use std::alloc::{AllocError, Global};
use store_memory::MemoryStore;

/// The files of a row, as others wrote them, and their paths.
pub fn files_of(alloc: Global, words: &str) -> Result<(MemoryFiles, Names), AllocError> {
    let mut files = FileTable::new(alloc);
    let mut paths = Names::new(alloc);
    for word in words.split_whitespace() {
        let (name, lines) = word.split_once('=').unwrap_or((word, ""));
        let path = Text::from_string(format!(in alloc; "w/{name}")?);
        paths.push(path.copy()?)?;
        let _ = files.insert(path, lines_of(alloc, lines)?)?;
    }
    let mut contents = Vec::new(alloc);
    contents.push(Showing { from: 0, files })?;
    let script = Script::new(alloc, &[], &[])?;
    Ok((MemoryFiles::new(alloc, contents, script), paths))
}

// Lines with commas between them, each with its end.
fn lines_of(alloc: Global, lines: &str) -> Result<Items<u8>, AllocError> {
    let mut bytes = Items::new(alloc);
    for byte in lines.as_bytes() {
        bytes.push(if *byte == b',' { b'\n' } else { *byte })?;
    }
    bytes.push(b'\n')?;
    Ok(bytes)
}

/// A store without files.
pub fn store(alloc: Global) -> Result<MemoryStore, AllocError> {
    MemoryStore::new(
        FileTable::new(alloc),
        Script::new(alloc, &[], &[])?,
        u64::MAX,
    )
}
