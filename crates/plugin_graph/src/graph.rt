// The steps of a configuration, and batches that run through them.

ghost use Rattle.std.specs.Prelude.{◌≡◌, ℕ, IfOk};
ghost use Rattle.event_tree.specs.Events.{Ev};
ghost use Rattle.config_tree.specs.declared.tree.Config.{Config};
ghost use Rattle.foreign_parts.specs.declared.filter.Verdict.{Verdict};
ghost use Rattle.event_flow.specs.Laying.{AreStepsOf, IsTableOf};
ghost use Rattle.event_flow.specs.Places.{Draws};
ghost use Rattle.plugin_graph.specs.Graphs.{steps_in, contents_of, built_in, boxes_in};
ghost use Rattle.plugin_graph.specs.Kits.{table_of, MayAt};
ghost use Rattle.built_plugins.specs.Makes.{makes};
ghost use Rattle.plugin_graph.specs.Passages.{IsPassageOf};

use crate::kit::Kit;
use crate::passage::Passage;
use config_tree::Config;
use event_flow::{FlowStep, flatten_config};
use event_tree::{Events, Items};
use foreign_parts::FilterCall;
use std::alloc::{AllocError, Global};

/// The statements of a configuration, laid out flat. It names plugins and conditions by the numbers
/// that they have in a kit of the same configuration.
#[derive(Drop)]
pub struct Graph {
    steps: Items<FlowStep>,
}

impl Graph {
    /// The graph of a configuration.
    pub fn new(alloc: Global, config: &Config) -> Result<Graph, AllocError>
        ensures { IfOk result (λ graph. AreStepsOf config.now (steps_in graph)) }
    {
        Ok(Graph {
            steps: flatten_config(alloc, config)?,
        })
    }
}

/// Takes a batch through a graph, all of it through one step after the other. By a graph and a kit of
/// one configuration it does what the configuration means. It reads nothing from text.
///
/// An event is moved through the steps, and copied where `clone`, `split` or a box does, or where it
/// goes to more than one target. Where memory runs out the events are lost.
pub fn run<X: FilterCall>(
    alloc: Global,
    graph: &Graph,
    kit: &mut Kit<X>,
    events: Events,
) -> Result<Passage, AllocError>
    ensures passage { IfOk result (λ passage. (config : Config) (draws : Draws)
        → AreStepsOf config (steps_in graph.now)
        → IsTableOf makes config draws (table_of (contents_of kit.old))
        → IsPassageOf (MayAt X.may (boxes_in kit.old)) makes config draws events passage) }
    ensures table { table_of (contents_of kit.new) ≡ table_of (contents_of kit.old) }
    ensures boxes { boxes_in kit.new ≡ boxes_in kit.old }
    ensures may { (k : ℕ) (e : Ev) (v : Verdict)
        → MayAt X.may (boxes_in kit.new) k e v
        → MayAt X.may (boxes_in kit.old) k e v }
    ensures built { built_in kit.new ≡ built_in kit.old }
{
    let cells = event_flow::run(alloc, &mut kit.parts, graph.steps.as_slice(), events)?;
    Passage::of_cells(alloc, &kit.parts, cells)
}
