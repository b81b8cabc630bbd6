//! Events that go through a configuration as it is written, one by one, and through a graph of it.
ghost use Rattle.std.specs.Prelude.{IfOk};
ghost use Rattle.plugin_graph.specs.Graphs.{contents_of};
ghost use Rattle.plugin_graph.specs.Walks.{IsKitOf};

use crate::crossing::{crossing_graph, crossing_kit};
use crate::passages::{NoBox, add_passage, events_of};
use config_parse::parse;
use config_tree::{Config, FromFault};
use event_tree::Event;
use plugin_graph::{Graph, Kit, run, walk};
use std::alloc::{AllocError, Global};

/// Adds the answer of a row: `CONFIGURATION on EVENT`, with any number of further events behind ` and `. It tells what
/// comes of each event by itself, and by how many what was read from text has risen; and then of all of them as a batch.
pub fn add_answer(to: &mut String, row: &str) -> Result<(), AllocError> {
    let (text, events) = row.split_once(" on ").unwrap_or((row, ""));
    match parse(*to.allocator(), text) {
        Ok(config) => add_both(to, &config, events),
        Err(_) => to.push_str("no configuration"),
    }
}

fn add_both(to: &mut String, config: &Config, events: &str) -> Result<(), AllocError> {
    match kit_of(*to.allocator(), config) {
        Ok(kit) => add_of_kit(to, config, kit, events),
        Err(FromFault::Memory) => Err(AllocError),
        Err(FromFault::Bad(fault)) => write!(to, "refused: {fault}"),
    }
}

fn kit_of(alloc: Global, config: &Config) -> Result<Kit<NoBox>, FromFault>
    ensures { IfOk result (λ kit. IsKitOf config.now (contents_of kit)) }
{
    Kit::new(alloc, config, &[])
}

fn add_of_kit(
    to: &mut String,
    config: &Config,
    kit: Kit<NoBox>,
    events: &str,
) -> Result<(), AllocError>
    requires { IsKitOf config.now (contents_of kit) }
{
    let alloc = *to.allocator();
    let mut kit = crossing_kit(kit);
    let events = events_of(alloc, events)?;
    let before = kit.built();
    add_walks(to, config, &mut kit, events.as_slice())?;
    write!(to, "read {} | ", kit.built().saturating_sub(before))?;
    let before = kit.built();
    let graph = crossing_graph(Graph::new(alloc, config)?);
    let passage = run(alloc, &graph, &mut kit, events)?;
    add_passage(to, &passage)?;
    write!(to, " | read {}", kit.built().saturating_sub(before))
}

fn add_walks(
    to: &mut String,
    config: &Config,
    kit: &mut Kit<NoBox>,
    events: &[Event],
) -> Result<(), AllocError>
    requires { IsKitOf config.now (contents_of kit.old) }
{
    for event in events {
        add_walk(to, config, kit, event)?;
    }
    Ok(())
}

fn add_walk(
    to: &mut String,
    config: &Config,
    kit: &mut Kit<NoBox>,
    event: &Event,
) -> Result<(), AllocError>
    requires { IsKitOf config.now (contents_of kit.old) }
    ensures { IsKitOf config.now (contents_of kit.new) }
{
    let passage = walk(*to.allocator(), config, kit, event)?;
    add_passage(to, &passage)?;
    to.push_str(" | ")
}
