// Polls of a TCP input over connections in memory.
use crate::connection_calls::add_calls;
use crate::words::{numbers_of, small_number};
use io_memory::{ConnectionEvent, MemoryLinks, Script, SourceEvent};
use std::alloc::{AllocError, Global};
use table_rows::{bytes_of, part};

/// Adds what the calls of a row answer.
pub fn add_case(to: &mut String, row: &str) -> Result<(), AllocError> {
    let (connections, rest) = part(row);
    let (failing, rest) = part(rest);
    let (pieces, calls) = part(rest);
    let mut links = links_with(*to.allocator(), small_number(connections), failing, pieces)?;
    add_calls(to, &mut links, calls)
}

fn links_with(
    alloc: Global,
    connections: u32,
    failing: &str,
    pieces: &str,
) -> Result<MemoryLinks, AllocError> {
    let script = Script::new(alloc, &numbers_of(alloc, failing)?, &[])?;
    let pieces = pieces_of(alloc, pieces)?;
    Ok(MemoryLinks::new(alloc, connections, pieces, script))
}

fn pieces_of(alloc: Global, words: &str) -> Result<Vec<ConnectionEvent>, AllocError> {
    let mut pieces = Vec::new(alloc);
    for word in words.split_whitespace() {
        let (conn, bytes) = word.split_once(':').unwrap_or(("0", word));
        let gave = gave_of(alloc, bytes)?;
        let sent = ConnectionEvent {
            conn: small_number(conn),
            gave,
        };
        add_piece(&mut pieces, sent)?;
    }
    Ok(pieces)
}

fn gave_of(alloc: Global, word: &str) -> Result<SourceEvent, AllocError> {
    if word == "end" {
        return Ok(SourceEvent::End);
    }
    Ok(SourceEvent::Bytes(bytes_of(alloc, word)?))
}

fn add_piece(pieces: &mut Vec<ConnectionEvent>, sent: ConnectionEvent) -> Result<(), AllocError> {
    match pieces.push(sent) {
        Ok(()) => Ok(()),
        Err(_) => Err(AllocError),
    }
}
