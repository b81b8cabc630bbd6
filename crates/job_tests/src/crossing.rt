//! That a job and what it gives may go to another thread: what is here is proved where that is so.
ghost use Rattle.std.specs.Prelude.{◌≡◌, ⊤};

use built_plugins::Shared;
use event_tree::{Event, Events};
use foreign_parts::{FilterCall, Verdict};
use graph_checks::PlannedOutputs;
use line_jobs::{BatchResult, Job, JobDone};
use plugin_graph::{Graph, Kit};
use std::alloc::AllocError;

/// What stands for a box, where a configuration has none.
#[derive(Drop)]
pub struct NoFilter;

impl FilterCall for NoFilter {
    ghost may = { λ _ _ _. ⊤ };

    fn ask(&self, _event: &Event) -> Result<Verdict, AllocError> {
        Err(AllocError)
    }
}

/// Takes what may go to another thread, and gives it back.
fn crossing<T: Send>(value: T) -> T
    ensures { result ≡ value }
{
    value
}

/// Events may go to another thread.
pub fn crossing_events(events: Events) -> Events
    ensures { result ≡ events }
{
    crossing(events)
}

/// A graph that is shared may go to another thread.
pub fn crossing_graph(graph: Shared<Graph>) -> Shared<Graph>
    ensures { result ≡ graph }
{
    crossing(graph)
}

/// Outputs that are shared may go to another thread.
pub fn crossing_outgoing(outgoing: Shared<PlannedOutputs>) -> Shared<PlannedOutputs>
    ensures { result ≡ outgoing }
{
    crossing(outgoing)
}

/// The result of a batch may go to another thread.
pub fn crossing_result(made: BatchResult) -> BatchResult
    ensures { result ≡ made }
{
    crossing(made)
}

/// A kit whose boxes may go to another thread may go there.
pub fn crossing_kit(kit: Kit<NoFilter>) -> Kit<NoFilter>
    ensures { result ≡ kit }
{
    crossing(kit)
}

/// A job whose boxes may go to another thread may go there.
pub fn crossing_job(job: Job<NoFilter>) -> Job<NoFilter>
    ensures { result ≡ job }
{
    crossing(job)
}

/// What it gives may go back.
pub fn crossing_done(done: JobDone<NoFilter>) -> JobDone<NoFilter>
    ensures { result ≡ done }
{
    crossing(done)
}
