//! Takes batches of events through a configuration, and tests conditions on events, over and over (bench/graphs.sh).

use crate::passages::NoBox;
use built_plugins::{CompiledCondition, NamedCondition};
use config_parse::parse;
use config_tree::{Arm, Condition, Config, Statement};
use event_tree::{Event, Events, Text};
use plugin_graph::{Graph, Kit, run};
use std::alloc::{AllocError, Global};

/// A configuration that is ready to be run.
#[derive(Drop)]
pub struct Prepared {
    graph: Graph,
    kit: Kit<NoBox>,
}

/// The configuration of this text.
pub fn prepare(alloc: Global, text: &str) -> Option<Prepared> {
    let config = parse(alloc, text).ok()?;
    let graph = Graph::new(alloc, &config).ok()?;
    let kit = Kit::new(alloc, &config, &[]).ok()?;
    Some(Prepared { graph, kit })
}

/// How many events are sent where these go through a configuration.
pub fn sent(alloc: Global, prepared: &mut Prepared, events: Events) -> Result<u64, AllocError> {
    let Prepared { graph, kit } = prepared;
    let passage = run(alloc, graph, kit, events)?;
    Ok(passage.sent.as_slice().len() as u64)
}

/// The same events again.
pub fn copies(alloc: Global, batch: &[Event]) -> Result<Events, AllocError> {
    let mut events = Events::with_capacity(alloc, batch.len())?;
    for event in batch {
        events.push(event.copy()?)?;
    }
    Ok(events)
}

/// The condition in front of the block of a text as `if [a] == 1 { }`.
pub fn condition(alloc: Global, text: &str) -> Option<CompiledCondition> {
    let text = format!(in alloc; "filter {{ {text} }}").ok()?;
    let condition = only_condition(parse(alloc, text.as_str()).ok()?)?;
    let id = Text::from_string(String::new(alloc));
    CompiledCondition::new(alloc, NamedCondition { condition, id }).ok()
}

fn only_condition(mut config: Config) -> Option<Condition> {
    match config.filters.pop()? {
        Statement::Branch(mut arms) => first_condition(arms.pop()?),
        Statement::Plugin(_) => None,
    }
}

fn first_condition(arm: Arm) -> Option<Condition> {
    let Arm { condition, .. } = arm;
    condition
}
