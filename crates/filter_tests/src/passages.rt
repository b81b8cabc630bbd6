//! What becomes of events by a configuration without boxes.

use crate::events::{add_event, event_of};
use config_parse::parse;
use config_tree::{Config, FromFault};
use event_tree::{DeadPart, Event, Events};
use foreign_parts::{FilterCall, Place, Verdict};
use plugin_graph::{Graph, Kit, Passage, Sent, run};
use std::alloc::{AllocError, Global};

/// How many events are told; of more the first and the last are.
const TOLD: usize = 100;

/// Adds the answer of a row: `CONFIGURATION on EVENT`, with any number of further events behind ` and `.
pub fn add_answer(to: &mut String, row: &str) -> Result<(), AllocError> {
    let (text, events) = row.split_once(" on ").unwrap_or((row, ""));
    match parse(*to.allocator(), text) {
        Ok(config) => add_run(to, &config, events),
        Err(_) => to.push_str("no configuration"),
    }
}

fn add_run(to: &mut String, config: &Config, events: &str) -> Result<(), AllocError> {
    match passage_of(*to.allocator(), config, events) {
        Ok(passage) => add_passage(to, &passage),
        Err(FromFault::Memory) => Err(AllocError),
        Err(FromFault::Bad(fault)) => write!(to, "refused: {fault}"),
    }
}

fn passage_of(alloc: Global, config: &Config, events: &str) -> Result<Passage, FromFault> {
    let mut kit: Kit<NoBox> = Kit::new(alloc, config, &[])?;
    let graph = Graph::new(alloc, config)?;
    Ok(run(alloc, &graph, &mut kit, events_of(alloc, events)?)?)
}

/// Events that are written with ` and ` between them.
pub fn events_of(alloc: Global, written: &str) -> Result<Events, AllocError> {
    let mut events = Events::new(alloc);
    for event in written.split(" and ") {
        events.push(event_of(alloc, event)?)?;
    }
    Ok(events)
}

/// Adds what came of a batch.
pub fn add_passage(to: &mut String, passage: &Passage) -> Result<(), AllocError> {
    let (sent, dead) = (passage.sent.as_slice(), passage.dead.as_slice());
    if sent.is_empty() && dead.is_empty() {
        return to.push_str("nothing");
    }
    if sent.len() > TOLD {
        write!(to, "{} sent, and of these ", sent.len())?;
    }
    for (index, one) in sent.iter().enumerate() {
        if sent.len() <= TOLD || index == 0 || index + 1 == sent.len() {
            add_sent(to, index > 0, one)?;
        }
    }
    for (index, one) in dead.iter().enumerate() {
        add_dead(to, index > 0 || !sent.is_empty(), one)?;
    }
    Ok(())
}

fn add_sent(to: &mut String, later: bool, sent: &Sent) -> Result<(), AllocError> {
    to.push_str(if later { " | " } else { "" })?;
    let target = sent.target.get();
    write!(to, "{} ", target.output)?;
    add_place(to, &target.place)?;
    add_told(to, &sent.event)
}

fn add_place(to: &mut String, place: &Place) -> Result<(), AllocError> {
    match place {
        Place::Stdout => to.push_str("stdout"),
        Place::File(path) => to.push_str(path.as_str()),
        Place::Address(address) => write!(to, "@{address}"),
        Place::Foreign(number) => write!(to, "box {number}"),
        Place::Discard => to.push_str("nowhere"),
        Place::Dead => to.push_str("dead"),
    }
}

fn add_dead(to: &mut String, later: bool, dead: &DeadPart) -> Result<(), AllocError> {
    to.push_str(if later { " | " } else { "" })?;
    write!(to, "dead {} {}", dead.id, dead.reason)?;
    add_told(to, &dead.event)
}

fn add_told(to: &mut String, event: &Event) -> Result<(), AllocError> {
    to.push(' ')?;
    add_event(to, event)
}

/// No filter of these configurations is a box.
#[derive(Drop)]
pub struct NoBox;

impl FilterCall for NoBox {
    ghost use Rattle.std.specs.Prelude.{⊤};

    ghost may = { λ _ _ _. ⊤ };

    fn ask(&self, _event: &Event) -> Result<Verdict, AllocError> {
        Err(AllocError)
    }
}
