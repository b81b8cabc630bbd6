// The calls of a row over a peer in memory.
use crate::calls::{add_calls, add_configured};
use crate::parts::{events_of, part, settings_of};
use crate::replies::replies_of;
use crate::statuses::add_statuses;
use io_memory::Script;
use out_bulk::{Bulk, MemoryPeer};
use std::alloc::{AllocError, Global};

/// Adds what the calls of a row answer.
pub fn add_answer(to: &mut String, row: &str) -> Result<(), AllocError> {
    let (settings, rest) = part(row);
    if settings == "statuses" {
        return add_statuses(to, rest);
    }
    let alloc = *to.allocator();
    let (events, rest) = part(rest);
    let (failing, rest) = part(rest);
    let (replies, calls) = part(rest);
    let settings = settings_of(alloc, settings)?;
    let events = events_of(alloc, events)?;
    let peer = MemoryPeer::new(
        alloc,
        replies_of(alloc, replies)?,
        script_of(alloc, failing)?,
    );
    let mut bulk = Bulk::new(alloc, peer);
    add_configured(to, &mut bulk, &settings)?;
    to.push_str("; ")?;
    add_calls(to, &mut bulk, &settings, &events, calls)
}

fn script_of(alloc: Global, failing: &str) -> Result<Script, AllocError> {
    let mut numbers = Vec::new(alloc);
    for word in failing.split_whitespace() {
        numbers.push(word.parse::<u64>().unwrap_or(0))?;
    }
    Script::new(alloc, &numbers, &[])
}
