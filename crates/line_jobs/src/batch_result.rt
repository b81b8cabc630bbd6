// What came of a batch, ready to be delivered.
ghost use Rattle.std.specs.Prelude.{◌≡◌, IfOk};
ghost use Rattle.line_jobs.specs.Results.{result_of};

use crate::sorting::deliveries;
use built_plugins::{Shared, Target};
use event_tree::{DeadList, Events};
use foreign_parts::Verdict;
use graph_checks::PlannedOutputs;
use plain_data::Items;
use plugin_graph::Passage;
use std::alloc::{AllocError, Global};

/// The events that an output sends to one of its places, of which there is one at least.
#[derive(Drop)]
pub struct DueDelivery {
    /// The output and the place, which the plan has, too.
    pub target: Shared<Target>,
    pub events: Events,
    /// What the output's codec writes of them, where it writes to stdout or a file, and else nothing.
    pub bytes: Items<u8>,
}

/// What came of a batch.
#[derive(Drop)]
pub struct BatchResult {
    /// The events that are dead, since a condition had no truth of them.
    pub dead: DeadList,
    /// The verdicts of boxed filters that were used.
    pub verdicts: Items<Verdict>,
    /// What is due to be delivered: of each output in the order of the text and of each of its places in order, the
    /// events that it sends there. Where there are none the place is left out.
    pub due: Items<DueDelivery>,
}

impl BatchResult {
    /// The result of what came of a batch. No event is copied. Where memory runs out the events are lost.
    pub fn of_passage(
        alloc: Global,
        passage: Passage,
        outgoing: &PlannedOutputs,
    ) -> Result<BatchResult, AllocError>
        ensures { IfOk result (λ made. made ≡ result_of outgoing.now passage) }
    {
        let Passage {
            sent,
            dead,
            verdicts,
        } = passage;
        let due = deliveries(alloc, outgoing, sent)?;
        Ok(BatchResult {
            dead,
            verdicts,
            due,
        })
    }
}
