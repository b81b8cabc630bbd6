// The outside of a run: its files, its source, its sink and its clock.
use crate::setups::Setup;
use io_memory::{
    ConnectionEvent, FileTable, ListClock, MemoryFiles, MemoryLinks, MemorySink, MemorySource,
    Script, Showing, SourceEvent,
};
use plain_data::{Instant, Items, Text};
use std::alloc::{AllocError, Global};

/// The files that the words of a run name, as others wrote them.
pub fn files_of(alloc: Global, words: &str) -> Result<MemoryFiles, AllocError> {
    let mut files = FileTable::new(alloc);
    for word in words.split_whitespace() {
        if let Some(file) = word.strip_prefix("file:") {
            let (path, lines) = file.split_once('=').unwrap_or((file, ""));
            let _ = files.insert(
                Text::of(alloc, path)?,
                Items::from_vec(lines_of(alloc, lines)?),
            )?;
        }
    }
    let mut contents = Vec::new(alloc);
    contents.push(Showing { from: 0, files })?;
    Ok(MemoryFiles::new(alloc, contents, Script::empty(alloc)))
}

/// The connections that the words of a run name, with what they give, piece by piece, and then their ends.
pub fn links_of(alloc: Global, words: &str) -> Result<MemoryLinks, AllocError> {
    let mut most = 0;
    let mut pieces = Vec::new(alloc);
    for word in words.split_whitespace() {
        if let Some(piece) = word.strip_prefix("conn:") {
            let (number, text) = piece.split_once('=').unwrap_or((piece, ""));
            let conn: u32 = number.parse().unwrap_or(0);
            most = conn.saturating_add(1).max(most);
            let gave = SourceEvent::Bytes(text_of(alloc, text)?);
            pieces.push(ConnectionEvent { conn, gave })?;
        }
    }
    Ok(MemoryLinks::new(alloc, most, pieces, Script::empty(alloc)))
}

/// Stdin, with the lines of a run; a read gives three bytes at most.
pub fn stdin_of(alloc: Global, setup: &Setup<'_>) -> Result<MemorySource, AllocError> {
    let bytes = lines_of(alloc, setup.stdin)?;
    let script = Script::new(alloc, &[setup.stdin_fails], &[])?;
    MemorySource::new(alloc, bytes.as_slice(), 3, script)
}

/// Stdout; a write takes seven bytes at most.
pub fn stdout_of(alloc: Global, setup: &Setup<'_>) -> Result<MemorySink, AllocError> {
    let script = Script::new(alloc, &[setup.stdout_fails], &[])?;
    Ok(MemorySink::new(alloc, 7, script))
}

/// A clock that stands at 2024-01-01T00:00:00Z.
pub fn clock_of(alloc: Global) -> Result<ListClock, AllocError> {
    let start = Instant::from_nanos(1_704_067_200_000_000_000);
    ListClock::new(alloc, &[start.unwrap_or(Instant::epoch())])
}

// A text, with commas for the ends of lines.
fn text_of(alloc: Global, text: &str) -> Result<Vec<u8>, AllocError> {
    let mut bytes = Vec::new(alloc);
    for byte in text.as_bytes() {
        bytes.push(if *byte == b',' { b'\n' } else { *byte })?;
    }
    Ok(bytes)
}

// Lines with commas between them, each with its end; none where there is no text.
fn lines_of(alloc: Global, lines: &str) -> Result<Vec<u8>, AllocError> {
    let mut bytes = text_of(alloc, lines)?;
    if !lines.is_empty() {
        bytes.push(b'\n')?;
    }
    Ok(bytes)
}
