// The top call: runs what the words of the command line ask for.
ghost use Rattle.std.specs.Prelude.{◌≡◌, ◌<◌, ◌⊎◌, ◌+◌, ◌^◌, [], ℕ, length, List, Err, IfOk, OnOk, map, string_bytes, Contains};
ghost use Rattle.foreign_parts.specs.Boxes.{Keeps};
ghost use Rattle.graph_checks.specs.Plans.{IsPlanOf};
ghost use Rattle.graph_checks.specs.Whole.{given_by};
ghost use Rattle.io_traits.specs.Counts.{HasCause, HasCauseUnless};
ghost use Rattle.line_core.specs.Openings.{AreOutside};
ghost use Rattle.line_machine.specs.declared.calls.LineFault.TheVariants as stop;
ghost use Rattle.settings_lines.specs.Own.{folder_of};
ghost use Rattle.logstash_top.specs.declared.start.Checked.{Checked as CheckedValue};
ghost use Rattle.logstash_top.specs.Answers.{AnswersBy};
ghost use Rattle.logstash_top.specs.Outcomes.{FilesFaultHasCause, IsStoreFault, IsUntouched, MayRun, StoreFaultHasCause, ids_from};
ghost use Rattle.logstash_top.specs.Sinks.{Took, TookInPart, AllFlushed, Faulted};
ghost use Rattle.logstash_top.specs.Status.{IsRefused, line_of};

use crate::line::tell;
use crate::serve::serve;
use crate::start::{Checked, refused, start};
use crate::status::Status;
use crate::world::World;
use batch_shop::Shop;
use built_plugins::plugin_id;
use config_tree::Plugin;
use foreign_parts::{BoxPool, FilterCall};
use graph_checks::{Drawn, Plan, compile};
use history_book::Book;
use io_traits::{Clock, Files, Links, Sink, Source, Store};
use line_core::laws::planned_inputs_have_short_ids;
use line_core::{Line, LineLimits};
use line_jobs::{Close, Job};
use line_machine::LineFault;
use line_outputs::OutputCall;
use plain_data::{Names, Text};
use settings_lines::PipelineSettings;
use std::alloc::{AllocError, Global};
use std::rt::Clock as RuntimeClock;
use std::sync::Wait;

/// Does what the words of the command line ask for: runs the one pipeline of `-e` or `-f` until each of its inputs is at its end, all
/// that came is delivered, its rows are acknowledged and marked, and its inputs are told so. An input of connections, or of
/// files that are followed, has no end.
///
/// Each event stands in the pipeline's queue, in the folder `<path.data>/<id>/`, before a filter sees it; a run that was stopped anywhere
/// goes on in the next one over the same folder. Jobs are done by the shop, in which none may be out; boxes are drawn from the rack for as
/// many workers as the words want, and those of kits at home and of outputs are closed at the end. `-t` changes nothing here: a test
/// is `test_config`'s, and `which` says what the words are for. The line of the status goes to stderr and is flushed there,
/// unless a fault of stderr was counted; such a fault changes nothing else.
///
/// - `Status::BadWords` comes exactly where `logstash_settings::read_words` refuses the words, with that fault, and
///   `Status::WordsNotBuilt` exactly where they read and have `-r`, `--sample`, `--apart` or a tool, or neither `-e` nor `-f`.
/// - `Status::FilesFault` names a path exactly where no file of `-f` is there, or none has such a name, as calls of the files showed; it
///   names none only where the count of the files' faults rose.
/// - `Status::BadConfig`, `Status::Refused` and `Status::NotBuilt` come exactly where the text is no configuration, fails a
///   check (that no `file` output writes into the folder of the queues among them), or passes them all and has an input or output
///   that isn't built. Behind these refusals nothing of the outside was touched but files that were read, and the rack is as it was.
/// - `Status::StoreFault` comes only where the count of the store's faults rose in this call.
/// - `Status::InputFault` names an input of the configuration. That it, `Status::OutputFault`, `Status::Damaged`, `Status::NumbersSpent` and
///   `Status::DeadLettersFull` have their causes is a clause of the line's calls, and not of this one.
/// - `Status::NoMemory` may come anywhere, in the place of each of these too.
///
/// What stands in destinations, and that all is done at `Status::Done`, is no clause of this call yet: it is tested.
pub fn logstash<
    R: Wait + RuntimeClock,
    S: Store,
    P: Files,
    I: Source,
    L: Links,
    O: Sink,
    K: Clock,
    F: FilterCall + Close,
    X: OutputCall,
    B: BoxPool<Filter = F, Output = X>,
    W: Shop<Job<Drawn<F>>>,
    H: Book,
>(
    rt: &R,
    alloc: Global,
    words: &[String],
    world: &mut World<S, P, I, L, O, K>,
    rack: &mut B,
    shop: &mut W,
    book: &mut H,
) -> Status
    requires idle { W.out shop.old ≡ [] }
    requires numbers { B.output_number ≡ X.number }
    ensures answers { AnswersBy (given_by B.stand B.links rack.old) P.Files
        (map string_bytes words.now) world.old.files world.new.files MayRun result }
    ensures refused { IsRefused result → IsUntouched world.old world.new }
    ensures keeps { IsRefused result → Keeps B.stand B.links rack.old rack.new }

    // When a fault comes.
    ensures store_fault { StoreFaultHasCause S.Store world.old world.new result }
    ensures files_fault { FilesFaultHasCause P.Files world.old world.new result }

    // What stderr holds.
    ensures line { TookInPart O.Sink world.old.stderr world.new.stderr (line_of result) }
    ensures told { Faulted O.Sink world.old.stderr world.new.stderr
        ⊎ Took O.Sink world.old.stderr world.new.stderr (line_of result) }
    ensures told_flushed { Faulted O.Sink world.old.stderr world.new.stderr
        ⊎ AllFlushed O.Sink world.new.stderr }
{
    let status = outcome(rt, alloc, words, world, rack, shop, book);
    let _ = tell(&status, &mut world.stderr);
    status
}

/// The status, before its line is told.
fn outcome<
    R: Wait + RuntimeClock,
    S: Store,
    P: Files,
    I: Source,
    L: Links,
    O: Sink,
    K: Clock,
    F: FilterCall + Close,
    X: OutputCall,
    B: BoxPool<Filter = F, Output = X>,
    W: Shop<Job<Drawn<F>>>,
    H: Book,
>(
    rt: &R,
    alloc: Global,
    words: &[String],
    world: &mut World<S, P, I, L, O, K>,
    rack: &mut B,
    shop: &mut W,
    book: &mut H,
) -> Status
    requires idle { W.out shop.old ≡ [] }
    requires numbers { B.output_number ≡ X.number }
    ensures answers { AnswersBy (given_by B.stand B.links rack.old) P.Files
        (map string_bytes words.now) world.old.files world.new.files MayRun result }
    ensures refused { IsRefused result → IsUntouched world.old world.new }
    ensures keeps { IsRefused result → Keeps B.stand B.links rack.old rack.new }
    ensures store_fault { StoreFaultHasCause S.Store world.old world.new result }
    ensures files_fault { FilesFaultHasCause P.Files world.old world.new result }
    ensures stderr { world.new.stderr ≡ world.old.stderr }
{
    let Checked { settings, config } = match start(alloc, words, &mut world.files, rack) {
        Ok(checked) => checked,
        Err(status) => return status,
    };
    match compile(alloc, config, rack, settings.workers) {
        Ok(plan) => run_plan(rt, alloc, settings, plan, world, shop, book),
        Err(fault) => refused(settings.pipeline_id, fault),
    }
}

/// Runs a plan as the pipeline of these settings.
fn run_plan<
    R: Wait + RuntimeClock,
    S: Store,
    P: Files,
    I: Source,
    L: Links,
    O: Sink,
    K: Clock,
    F: FilterCall + Close,
    X: OutputCall,
    W: Shop<Job<Drawn<F>>>,
    H: Book,
>(
    rt: &R,
    alloc: Global,
    settings: PipelineSettings,
    plan: Plan<F, X>,
    world: &mut World<S, P, I, L, O, K>,
    shop: &mut W,
    book: &mut H,
) -> Status
    requires idle { W.out shop.old ≡ [] }
    requires plan { IsPlanOf X.number plan.config settings.workers plan }
    requires outside { AreOutside (folder_of settings) plan.outgoing }
    ensures may { MayRun (record { settings = settings; config = plan.config }) result }
    ensures store_fault { StoreFaultHasCause S.Store world.old world.new result }
    ensures stderr { world.new.stderr ≡ world.old.stderr }
{
    let Ok(ids) = input_ids(alloc, plan.config.inputs.as_slice()) else {
        return Status::NoMemory;
    };
    match run_line(rt, alloc, &settings, plan, world, shop, book) {
        Ok(()) => Status::Done,
        Err(fault) => stopped(settings.pipeline_id, ids, fault),
    }
}

/// Opens the line of a plan, serves it and closes it.
fn run_line<
    R: Wait + RuntimeClock,
    S: Store,
    P: Files,
    I: Source,
    L: Links,
    O: Sink,
    K: Clock,
    F: FilterCall + Close,
    X: OutputCall,
    W: Shop<Job<Drawn<F>>>,
    H: Book,
>(
    rt: &R,
    alloc: Global,
    settings: &PipelineSettings,
    plan: Plan<F, X>,
    world: &mut World<S, P, I, L, O, K>,
    shop: &mut W,
    book: &mut H,
) -> Result<(), LineFault>
    requires idle { W.out shop.old ≡ [] }
    requires plan { IsPlanOf X.number plan.config settings.now.workers plan }
    requires outside { AreOutside (folder_of settings.now) plan.outgoing }
    requires few { length plan.config.inputs < 2 ^ 64 }
    ensures cause { HasCause (S.faults world.old.store) (S.faults world.new.store)
        (result ≡ Err stop.Store) }
    ensures stderr { world.new.stderr ≡ world.old.stderr }
{
    planned_inputs_have_short_ids();
    let folder = settings.folder()?;
    let mut line = Line::open_on(
        alloc,
        0,
        LineLimits::of(settings),
        folder.as_str(),
        plan,
        &mut world.store,
        &mut world.files,
        book,
    )?;
    let served = serve(rt, &mut line, world, shop, book);
    line.close();
    served
}

/// The ids of the inputs of a configuration.
fn input_ids(alloc: Global, inputs: &[Plugin]) -> Result<Names, AllocError>
    ensures ids { IfOk result (λ ids. ids ≡ ids_from 1 inputs.now) }
    ensures few { length inputs.now < 2 ^ 64 }
{
    let count = inputs.len();
    let mut ids = Names::with_capacity(alloc, count)?;
    for at in 0..count {
        ids.push(plugin_id(alloc, "input", at as u64 + 1, &inputs[at])?)?;
    }
    Ok(ids)
}

/// The status of a pipeline whose run stopped by a fault.
fn stopped(pipeline: Text, ids: Names, fault: LineFault) -> Status
    ensures may { (c : CheckedValue) → pipeline ≡ c.settings.pipeline_id
        → ids ≡ ids_from 1 c.config.inputs → MayRun c result }
    ensures store { IsStoreFault result → fault ≡ stop.Store }
{
    match fault {
        LineFault::Store => Status::StoreFault(pipeline),
        LineFault::Input(input) => input_fault(pipeline, ids.as_slice(), input),
        LineFault::Output(output) => Status::OutputFault(output),
        LineFault::Damaged(damage) => Status::Damaged(pipeline, damage),
        LineFault::NumbersSpent => Status::NumbersSpent(pipeline),
        LineFault::DeadFull { size, added, limit } => {
            Status::DeadLettersFull(pipeline, size, added, limit)
        }
        LineFault::Memory => Status::NoMemory,
    }
}

fn input_fault(pipeline: Text, ids: &[Text], input: usize) -> Status
    ensures { (result ≡ Status.NoMemory)
        ⊎ ((id : List ℕ) × (result ≡ Status.InputFault pipeline id) × Contains ids.now id) }
{
    match ids.get(input) {
        Some(id) => match id.copy() {
            Ok(id) => Status::InputFault(pipeline, id),
            Err(_) => Status::NoMemory,
        },
        None => Status::NoMemory,
    }
}
