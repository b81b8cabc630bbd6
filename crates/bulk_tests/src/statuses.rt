// What becomes of an event for each status of its item.
use crate::calls::{add_configured, add_delivered};
use crate::parts::{event_of, settings_of};
use crate::replies::reply_of;
use event_tree::Event;
use io_memory::Script;
use out_bulk::{Bulk, MemoryPeer};
use std::alloc::{AllocError, Global};

/// Adds what becomes of an event by a reply, for each status from 200 to 599. Statuses beside each other with one answer stand
/// together.
pub fn add_statuses(to: &mut String, reply: &str) -> Result<(), AllocError> {
    let alloc = *to.allocator();
    let event = event_of(alloc, "{\"message\":\"a\"}")?;
    let mut first = 200_u16;
    let mut common = answer_of(alloc, &event, reply, first)?;
    for status in 201..600 {
        let answer = answer_of(alloc, &event, reply, status)?;
        if answer.as_str() != common.as_str() {
            write!(to, "{first} to {}: {common}; ", status - 1)?;
            first = status;
            common = answer;
        }
    }
    write!(to, "{first} to 599: {common}")
}

fn answer_of(alloc: Global, event: &Event, reply: &str, status: u16) -> Result<String, AllocError> {
    let mut replies = Vec::new(alloc);
    let number = format!(in alloc; "{status}")?;
    if replies.push(reply_of(alloc, reply, &number)?).is_err() {
        return Err(AllocError);
    }
    let peer = MemoryPeer::new(alloc, replies, Script::empty(alloc));
    let mut bulk = Bulk::new(alloc, peer);
    let mut answer = String::new(alloc);
    add_configured(
        &mut answer,
        &mut bulk,
        &settings_of(alloc, "{\"hosts\":[\"h:9200\"]}")?,
    )?;
    answer.clear();
    add_delivered(&mut answer, &mut bulk, &[event.copy()?])?;
    Ok(answer)
}
