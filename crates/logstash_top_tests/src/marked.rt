//! Words and texts as they stand in the rows of what operators set.

use byte_lines::text_of_bytes;
use std::alloc::{AllocError, Global};

/// The words of a row.
pub fn words_of(alloc: Global, row: &str) -> Result<Vec<String>, AllocError> {
    let mut words = Vec::new(alloc);
    if row.is_empty() {
        return Ok(words);
    }
    for word in row.split(' ') {
        words.push(text_in(alloc, word)?)?;
    }
    Ok(words)
}

/// The text that a row writes.
pub fn text_in(alloc: Global, row: &str) -> Result<String, AllocError> {
    let mut bytes = Vec::new(alloc);
    for (at, piece) in row.split('%').enumerate() {
        if at == 0 {
            bytes.extend_from_slice(piece.as_bytes())?;
        } else {
            add_marked(&mut bytes, piece)?;
        }
    }
    text_of_bytes(alloc, &bytes)
}

/// Adds what stands behind a `%`.
fn add_marked(to: &mut Vec<u8>, piece: &str) -> Result<(), AllocError> {
    let [mark, rest @ ..] = piece.as_bytes() else {
        return Ok(());
    };
    match mark_of(*mark) {
        Some(meant) => {
            to.extend_from_slice(meant)?;
            to.extend_from_slice(rest)
        }
        None => add_repeated(to, piece),
    }
}

/// The bytes that a mark means; none of one that means no bytes of its own.
fn mark_of(mark: u8) -> Option<&'static [u8]> {
    match mark {
        b'n' => Some(b"\n"),
        b'r' => Some(b"\r"),
        b't' => Some(b"\t"),
        b's' => Some(b" "),
        b'p' => Some(b"%"),
        b'x' => Some(b"\xff"),
        b'e' => Some(b""),
        _ => None,
    }
}

/// Adds `(N*TEXT)`, and what stands behind it.
fn add_repeated(to: &mut Vec<u8>, piece: &str) -> Result<(), AllocError> {
    let Some((repeated, rest)) = piece.split_once(')') else {
        return Ok(());
    };
    let Some((count, text)) = repeated.split_once('*') else {
        return Ok(());
    };
    let count = count.trim_start_matches('(').parse::<u32>().unwrap_or(0);
    for _ in 0..count {
        to.extend_from_slice(text.as_bytes())?;
    }
    to.extend_from_slice(rest.as_bytes())
}
