// Tests of connections in memory.
use io_memory::{ConnState, ConnectionEvent, MemoryLinks, Script, SourceEvent};
use io_traits::{Come, Failed, Step};
use std::alloc::{AllocError, Global};

// What a piece of the list is: some bytes, or with None an end.
type LinkPiece = (u32, Option<&'static str>);

fn links_of(
    alloc: Global,
    connections: u32,
    pieces: &[LinkPiece],
    script: Script,
) -> Result<MemoryLinks, AllocError> {
    let mut list = Vec::new(alloc);
    for (conn, bytes) in pieces {
        let gave = match bytes {
            Some(bytes) => SourceEvent::Bytes(Vec::from_slice(alloc, bytes.as_bytes())?),
            None => SourceEvent::End,
        };
        list.push(ConnectionEvent { conn: *conn, gave })?;
    }
    Ok(MemoryLinks::new(alloc, connections, list, script))
}

// A call of the links, with what it answers.
#[derive(Drop)]
enum LinksCall {
    Look(Result<Come, Failed>),
    // A read of a connection into a room of three bytes, and what stands there then.
    Read(u32, Result<Step, Failed>, &'static [u8; 3]),
    Close(u32),
}

fn reads(links: &mut MemoryLinks, conn: u32, want: Result<Step, Failed>, stands: &[u8; 3]) -> bool {
    let mut room = [b'-'; 3];
    u64::from(conn) < links.came() && links.read(conn, &mut room) == want && &room == stands
}

fn answers(links: &mut MemoryLinks, call: &LinksCall) -> bool {
    match call {
        LinksCall::Look(want) => links.accept("localhost", 5044) == *want,
        LinksCall::Read(conn, want, stands) => reads(links, *conn, *want, stands),
        LinksCall::Close(conn) => {
            links.close(*conn);
            true
        }
    }
}

// The number of the first call that answers something else.
fn first_wrong(links: &mut MemoryLinks, calls: &[LinksCall]) -> Option<usize> {
    for (number, call) in calls.iter().enumerate() {
        if !answers(links, call) {
            return Some(number);
        }
    }
    None
}

fn closed(faults: u64, waits: u64) -> ConnState {
    ConnState {
        is_open: false,
        faults,
        waits,
    }
}

// Two connections come, the first of which gives its pieces up to those of the second. Then the pieces
// of both come in turn, and the second is closed before its end.
const CALLS: [LinksCall; 16] = [
    LinksCall::Look(Ok(Come::Conn(0))),
    LinksCall::Look(Ok(Come::NotYet)),
    LinksCall::Look(Err(Failed)),
    LinksCall::Read(0, Ok(Step::Bytes(3)), b"abc"),
    LinksCall::Read(0, Ok(Step::NotYet), b"---"),
    LinksCall::Read(0, Ok(Step::Bytes(2)), b"de-"),
    LinksCall::Read(0, Ok(Step::NotYet), b"---"),
    LinksCall::Look(Ok(Come::Conn(1))),
    LinksCall::Look(Ok(Come::Ended)),
    LinksCall::Read(1, Err(Failed), b"---"),
    LinksCall::Read(1, Ok(Step::Bytes(2)), b"fg-"),
    LinksCall::Read(0, Ok(Step::End), b"---"),
    LinksCall::Read(0, Ok(Step::End), b"---"),
    LinksCall::Read(1, Ok(Step::Bytes(1)), b"h--"),
    LinksCall::Close(1),
    LinksCall::Read(1, Ok(Step::End), b"---"),
];

// What comes on the connections.
const PIECES: [LinkPiece; 7] = [
    (0, Some("abcde")),
    (1, Some("")),
    (1, Some("fg")),
    (0, None),
    (0, Some("x")),
    (1, Some("h")),
    (1, Some("i")),
];

pub(crate) fn give_in_turn(alloc: Global) -> Result<bool, AllocError> {
    let script = Script::new(alloc, &[2, 9], &[1, 4])?;
    let mut links = links_of(alloc, 2, &PIECES, script)?;
    Ok(first_wrong(&mut links, &CALLS).is_none() && are_closed(&links))
}

// What is counted behind all calls.
fn are_closed(links: &MemoryLinks) -> bool {
    let script = links.script();
    (links.given().len(), links.left()) == (7, 0)
        && (links.accept_faults(), links.accept_waits()) == (1, 1)
        && links.state(0) == closed(0, 2)
        && links.state(1) == closed(1, 0)
        && (script.made(), script.faults(), script.waits()) == (15, 2, 3)
}
