//! Words and bytes as they stand in rows.

use byte_lines::text_of_bytes;
use std::alloc::{AllocError, Global};

/// What stands before a mark, and what stands behind it; all and nothing where there is none.
pub fn cut<'a>(row: &'a str, mark: &str) -> (&'a str, &'a str) {
    row.split_once(mark).unwrap_or((row, ""))
}

/// Words, with ` & ` between them; none where nothing stands.
pub fn words_of(alloc: Global, written: &str) -> Result<Vec<String>, AllocError> {
    let mut words = Vec::new(alloc);
    if written.is_empty() {
        return Ok(words);
    }
    for word in written.split(" & ") {
        words.push(text_of(alloc, word)?)?;
    }
    Ok(words)
}

/// The text of bytes.
pub fn text_of(alloc: Global, written: &str) -> Result<String, AllocError> {
    text_of_bytes(alloc, &bytes_of(alloc, written)?)
}

/// Bytes, in which `%HEX;` are some in base 16, and `%COUNT*TEXT;` is a text so many times.
pub fn bytes_of(alloc: Global, written: &str) -> Result<Vec<u8>, AllocError> {
    let mut bytes = Vec::new(alloc);
    for (at, piece) in written.split('%').enumerate() {
        if at == 0 {
            bytes.extend_from_slice(piece.as_bytes())?;
        } else {
            add_marked(&mut bytes, piece)?;
        }
    }
    Ok(bytes)
}

/// Adds what stands behind a `%`.
fn add_marked(to: &mut Vec<u8>, piece: &str) -> Result<(), AllocError> {
    let (mark, rest) = cut(piece, ";");
    match mark.split_once('*') {
        Some((count, text)) => add_times(to, count.parse().unwrap_or(0), text.as_bytes())?,
        None => add_digits(to, mark)?,
    }
    to.extend_from_slice(rest.as_bytes())
}

fn add_times(to: &mut Vec<u8>, count: u32, bytes: &[u8]) -> Result<(), AllocError> {
    for _ in 0..count {
        to.extend_from_slice(bytes)?;
    }
    Ok(())
}

fn add_digits(to: &mut Vec<u8>, digits: &str) -> Result<(), AllocError> {
    match hex::decode(*to.allocator(), digits) {
        Ok(bytes) => to.extend_from_slice(&bytes),
        Err(_) => Err(AllocError),
    }
}
