//! Delivers a batch of events over and over, to a peer that takes each of them, or writes their JSON (bench/bulk.sh).

use crate::calls::add_configured;
use crate::parts::{event_of, settings_of};
use event_text::write_json;
use event_tree::Event;
use foreign_parts::Delivery;
use out_bulk::{Bulk, Peer, PeerFault};
use std::alloc::{AllocError, Global};
use std::fs;

/// A peer that gives one reply to each request, and keeps none.
#[derive(Drop)]
struct FixedPeer {
    reply: Vec<u8>,
}

impl Peer for FixedPeer {
    ghost use Rattle.std.specs.Prelude.{None};

    ghost asked = { λ _. None };

    ghost faults = { λ _. 0 };

    fn ask(&mut self, _host: &str, _request: &[u8], reply: &mut Vec<u8>) -> Result<(), PeerFault> {
        reply.clear();
        reply.extend_from_slice(&self.reply)?;
        Ok(())
    }
}

/// How many events were taken in so many rounds, in each of which those of a file (JSON, one a line) are delivered, and answered with the
/// reply of another file; or, with `json` in the place of that file, how many bytes their JSON has. `None` where the words are not these.
pub fn run(rt: &HostRuntime, words: &[String]) -> Option<usize> {
    let [file, reply, rounds] = words else {
        return None;
    };
    let rounds = rounds.as_str().parse::<u32>().ok()?;
    let text = fs::read_to_string(rt, file.as_str()).ok()?;
    let events = events_in(rt.alloc(), text.as_str()).ok()?;
    if reply.as_str() == "json" {
        return written(rt.alloc(), &events, rounds).ok();
    }
    let reply = fs::read(rt, reply.as_str()).ok()?;
    delivered(rt.alloc(), &events, reply, rounds)
}

fn events_in(alloc: Global, text: &str) -> Result<Vec<Event>, AllocError> {
    let mut events = Vec::new(alloc);
    for line in text.lines() {
        if events.push(event_of(alloc, line)?).is_err() {
            return Err(AllocError);
        }
    }
    Ok(events)
}

fn written(alloc: Global, events: &[Event], rounds: u32) -> Result<usize, AllocError> {
    let mut count = 0_usize;
    let mut line = Vec::new(alloc);
    for _ in 0..rounds {
        for event in events {
            line.clear();
            write_json(event.fields(), &mut line)?;
            count = count.wrapping_add(line.len());
        }
    }
    Ok(count)
}

fn delivered(alloc: Global, events: &[Event], reply: Vec<u8>, rounds: u32) -> Option<usize> {
    let settings = settings_of(alloc, "{\"hosts\":[\"h:9200\"]}").ok()?;
    let mut bulk = Bulk::new(alloc, FixedPeer { reply });
    add_configured(&mut String::new(alloc), &mut bulk, &settings).ok()?;
    let mut count = 0_usize;
    for _ in 0..rounds {
        match bulk.deliver(events) {
            Ok(Delivery::Took(fates)) => count = count.wrapping_add(fates.len()),
            _ => return None,
        }
    }
    Some(count)
}
