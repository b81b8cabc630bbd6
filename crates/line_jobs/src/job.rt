// Jobs: batches that go through a graph, each with a kit of its own.
ghost use Rattle.std.specs.Prelude.{◌≡◌, IfOk};
ghost use Rattle.plugin_graph.specs.Graphs.{boxes_in, built_in, contents_of};
ghost use Rattle.plugin_graph.specs.Kits.{table_of};
ghost use Rattle.line_jobs.specs.Results.{IsDone, IsResultOf};

use crate::batch_result::BatchResult;
use batch_shop::Task;
use built_plugins::Shared;
use event_tree::Events;
use foreign_parts::FilterCall;
use graph_checks::PlannedOutputs;
use plugin_graph::{Graph, Kit};
use std::alloc::AllocError;

/// A batch that a worker takes through a graph, with a kit of the same configuration.
#[derive(Drop)]
pub struct Job<X> {
    /// Which line gave it.
    pub line: usize,
    /// The number of the batch in that line.
    pub batch: u64,
    /// The number of the configuration that runs it.
    pub generation: u64,
    pub events: Events,
    pub kit: Kit<X>,
    pub graph: Shared<Graph>,
    pub outgoing: Shared<PlannedOutputs>,
}

/// What a job gives.
#[derive(Drop)]
pub struct JobDone<X> {
    /// Which line gave the job.
    pub line: usize,
    /// The number of the batch in that line.
    pub batch: u64,
    /// The number of the configuration that ran it.
    pub generation: u64,
    /// The kit as it went out.
    pub kit: Kit<X>,
    /// What came of the batch. Where memory ran out its events are lost to the job: who gave the job keeps a copy
    /// where one is needed.
    pub result: Result<BatchResult, AllocError>,
}

impl<X: FilterCall> Task for Job<X> {
    type Done = JobDone<X>;

    ghost gives = { IsDone X.may };

    fn work(self) -> JobDone<X> {
        let Job {
            line,
            batch,
            generation,
            events,
            mut kit,
            graph,
            outgoing,
        } = self;
        let result = run_batch(graph.get(), &mut kit, events, outgoing.get());
        JobDone {
            line,
            batch,
            generation,
            kit,
            result,
        }
    }
}

// Takes events through a graph, and makes the result of what came of them.
fn run_batch<X: FilterCall>(
    graph: &Graph,
    kit: &mut Kit<X>,
    events: Events,
    outgoing: &PlannedOutputs,
) -> Result<BatchResult, AllocError>
    ensures result { IfOk result (IsResultOf X.may graph.now kit.old outgoing.now events) }
    ensures table { table_of (contents_of kit.new) ≡ table_of (contents_of kit.old) }
    ensures boxes { boxes_in kit.new ≡ boxes_in kit.old }
    ensures built { built_in kit.new ≡ built_in kit.old }
{
    let alloc = events.allocator();
    let passage = plugin_graph::run(alloc, graph, kit, events)?;
    BatchResult::of_passage(alloc, passage, outgoing)
}
