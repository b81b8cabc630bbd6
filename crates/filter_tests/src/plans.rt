//! Plans of configurations, run.

use crate::events::event_of;
use event_tree::Events;
use foreign_parts::FilterCall;
use graph_checks::{Drawn, Plan};
use plugin_graph::{Graph, Kit, run};
use std::alloc::AllocError;

/// Adds what comes of an event in each kit of a plan, and the addresses of its links.
pub fn add_run<F: FilterCall, O: Drop>(
    to: &mut String,
    plan: Plan<F, O>,
) -> Result<(), AllocError> {
    let Plan {
        graph,
        kits,
        links,
        ..
    } = plan;
    for kit in kits {
        add_passage(to, graph.get(), kit)?;
    }
    for (address, _taker) in links {
        write!(to, "; link {}", address.as_str())?;
    }
    Ok(())
}

fn add_passage<F: FilterCall>(
    to: &mut String,
    graph: &Graph,
    kit: Kit<Drawn<F>>,
) -> Result<(), AllocError> {
    let alloc = *to.allocator();
    let mut kit = kit;
    let mut events = Events::new(alloc);
    events.push(event_of(alloc, "{\"message\":\"a\"}")?)?;
    let passage = run(alloc, graph, &mut kit, events)?;
    write!(
        to,
        "; {} sent, {} asked",
        passage.sent.len(),
        passage.verdicts.len()
    )
}
