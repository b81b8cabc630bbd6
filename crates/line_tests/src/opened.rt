// A line that is opened, served and closed.
ghost use Rattle.std.specs.Prelude.{◌≡◌, ◌≤◌, ◌<◌, ℕ, IsTrue, codes};
ghost use Rattle.std.specs.List.{AllByRecursion};
ghost use Rattle.graph_checks.specs.Plans.{IsPlanOf};
ghost use Rattle.line_core.specs.Openings.{AreOutside, IsPlaceOutside};
ghost use Rattle.line_outputs.specs.OpenFiles.{IsOutside};
ghost use Rattle.built_plugins.specs.declared.output.Target.{Target as TargetValue};

use crate::serving::{Around, End, Tally, serve};
use crate::setups::WORKERS;
use batch_shop::InlineShop;
use built_plugins::{Shared, Target};
use foreign_parts::{FilterCall, Place};
use graph_checks::{Drawn, Plan};
use history_book::BlankBook;
use io_traits::{Clock, Files, Links, Sink, Source, Store};
use line_core::laws::planned_inputs_have_short_ids;
use line_core::{Line, LineLimits};
use line_jobs::{Close, Job};
use line_machine::LineFault;
use line_outputs::OutputCall;
use std::alloc::{AllocError, Global};

/// The folder of the pipeline.
pub const FOLDER: &str = "q/";

/// What a run came to.
#[derive(Drop)]
pub enum Ran {
    /// An output writes into the folder of the pipeline.
    Inside,
    /// It wasn't opened.
    Closed(LineFault),
    /// It was opened, and served up to an end.
    Served(End, Tally),
}

/// Runs a pipeline by a plan, up to so many steps.
pub fn run<
    F: FilterCall + Close,
    O: OutputCall,
    S: Store,
    I: Source,
    P: Files,
    L: Links,
    T: Sink,
    K: Clock,
>(
    alloc: Global,
    plan: Plan<F, O>,
    limits: LineLimits,
    store: &mut S,
    around: &mut Around<I, P, L, T, K>,
    most: u64,
) -> Result<Ran, AllocError>
    requires { (workers : ℕ) × IsPlanOf O.number plan.config workers plan }
{
    if !are_outside(plan.outgoing.get().outputs.targets.as_slice()) {
        return Ok(Ran::Inside);
    }
    planned_inputs_have_short_ids();
    let _many = plan.config.inputs.len();
    let mut shop = InlineShop::<Job<Drawn<F>>>::new(alloc, WORKERS)?;
    let mut tally = Tally::new();
    let files = &mut around.files;
    match Line::open_on(alloc, 0, limits, FOLDER, plan, store, files, &mut BlankBook) {
        Err(fault) => Ok(Ran::Closed(fault)),
        Ok(mut line) => {
            let end = serve(&mut line, store, around, &mut shop, &mut tally, most);
            line.close();
            Ok(Ran::Served(end, tally))
        }
    }
}

// Whether no target is a file of the folder.
fn are_outside(targets: &[Shared<Target>]) -> bool
    ensures { IsTrue result
        → AllByRecursion (λ (t : TargetValue). IsPlaceOutside (codes "q/") t.place) targets.now }
{
    for target in targets {
        if !is_outside(&target.get().place) {
            return false;
        }
    }
    true
}

fn is_outside(place: &Place) -> bool
    ensures { IsTrue result → IsPlaceOutside (codes "q/") place.now }
{
    match place {
        Place::File(path) => begins_otherwise(path.as_str().as_bytes()),
        _ => true,
    }
}

// Whether a path begins otherwise than that of the folder, by its first byte.
fn begins_otherwise(path: &[u8]) -> bool
    ensures { IsTrue result → IsOutside (codes "q/") path.now }
{
    match path.first() {
        Some(first) => *first != b'q',
        None => true,
    }
}
