// A cell that takes a step in its place. An event is moved by the plugins alone that it meets.
ghost use Rattle.std.specs.Prelude.{◌≡◌, ℕ, List, ◌++◌, [], OnOk};
ghost use Rattle.event_tree.specs.Events.{Ev};
ghost use Rattle.foreign_parts.specs.declared.filter.Verdict.{Verdict};
ghost use Rattle.event_flow.specs.Steps.{Table};
ghost use Rattle.event_flow.specs.Marks.{StepsAll, marks, marks_of, led_cell};
ghost use Rattle.event_flow.specs.Stepped.{Passes};
ghost use Rattle.event_flow.specs.Stepped as spec;
ghost use Rattle.event_flow.specs.declared.cell.Cell.TheVariants as variant;
ghost use Rattle.event_flow.specs.declared.step.FlowStep.TheVariants as step;

use crate::cell::{Cell, Outcome};
use crate::running::Plugins;
use crate::step::FlowStep;
use crate::targets::Targets;
use condition_eval::Truth;
use event_tree::{Event, Items};
use std::alloc::{AllocError, Global};
use std::mem;

/// A cell takes a step. The first that comes of it stands in its place, and the others in `others`,
/// where nothing was.
pub(crate) fn step_cell<K: Plugins>(
    alloc: Global,
    kit: &mut K,
    step: FlowStep,
    cell: &mut Cell,
    others: &mut Items<Cell>,
) -> Result<(), AllocError>
    requires stands { K.stands kit.old }
    requires none { others.old ≡ [] }
    ensures stands { K.stands kit.new }
    ensures ok { OnOk result (StepsAll (K.may kit.old) (K.table kit.old) step
        (marks_of (K.table kit.old) cell.old)
        (marks_of (K.table kit.old) cell.new ++ marks (K.table kit.old) others.new)) }
    ensures table { K.table kit.new ≡ K.table kit.old }
    ensures boxes { K.boxes kit.new ≡ K.boxes kit.old }
    ensures may { (k : ℕ) (e : Ev) (v : Verdict) → K.may kit.new k e v → K.may kit.old k e v }
{
    if passes(cell) {
        return Ok(());
    }
    meet_step(alloc, kit, step, cell, others)
}

// Passes over a step, where no event of the cell meets it. Whether that is so.
fn passes(cell: &mut Cell) -> bool
    ensures { Passes result cell.old cell.new }
{
    match cell {
        Cell::At(skip, _, _) => {
            if *skip == 0 {
                return false;
            }
            *skip -= 1;
            true
        }
        Cell::Came(_) => true,
    }
}

// The event of a cell meets a step.
fn meet_step<K: Plugins>(
    alloc: Global,
    kit: &mut K,
    step: FlowStep,
    cell: &mut Cell,
    others: &mut Items<Cell>,
) -> Result<(), AllocError>
    requires stands { K.stands kit.old }
    requires none { others.old ≡ [] }
    ensures stands { K.stands kit.new }
    ensures ok { OnOk result ((e : Ev) (targets : List ℕ) → cell.old ≡ variant.At 0 e targets
        → StepsAll (K.may kit.old) (K.table kit.old) step
        (marks_of (K.table kit.old) cell.old)
        (marks_of (K.table kit.old) cell.new ++ marks (K.table kit.old) others.new)) }
    ensures table { K.table kit.new ≡ K.table kit.old }
    ensures boxes { K.boxes kit.new ≡ K.boxes kit.old }
    ensures may { (k : ℕ) (e : Ev) (v : Verdict) → K.may kit.new k e v → K.may kit.old k e v }
{
    match step {
        FlowStep::Plugin(number) => meet_plugin(alloc, kit, number, cell, others),
        FlowStep::Test(number, over) => meet_condition(alloc, kit, number, over, cell),
        FlowStep::Skip(over) => {
            pass_over(cell, over);
            Ok(())
        }
    }
}

// The event of a cell meets a condition, which leads it.
fn meet_condition<K: Plugins>(
    alloc: Global,
    kit: &mut K,
    number: u64,
    over: u64,
    cell: &mut Cell,
) -> Result<(), AllocError>
    requires { K.stands kit.old }
    ensures stands { K.stands kit.new }
    ensures ok { OnOk result ((e : Ev) (targets : List ℕ) → cell.old ≡ variant.At 0 e targets
        → cell.new ≡ led_cell ((K.table kit.old).says number e) number over e targets) }
    ensures table { K.table kit.new ≡ K.table kit.old }
    ensures boxes { K.boxes kit.new ≡ K.boxes kit.old }
    ensures may { (k : ℕ) (e : Ev) (v : Verdict) → K.may kit.new k e v → K.may kit.old k e v }
{
    let Cell::At(_, event, _) = cell else {
        return Ok(());
    };
    let truth = kit.test(number, event)?;
    lead(alloc, truth, number, over, cell);
    Ok(())
}

fn pass_over(cell: &mut Cell, over: u64)
    ensures { cell.new ≡ spec.passing over cell.old }
{
    match cell {
        Cell::At(skip, _, _) => *skip = over,
        Cell::Came(_) => {}
    }
}

// A condition leads the event of a cell.
fn lead(alloc: Global, truth: Truth, number: u64, over: u64, cell: &mut Cell)
    ensures { (e : Ev) (targets : List ℕ) → cell.old ≡ variant.At 0 e targets
        → cell.new ≡ led_cell truth number over e targets }
{
    match truth {
        Truth::Yes => {}
        Truth::No => pass_over(cell, over),
        Truth::Wrong(reason) => {
            if let Cell::At(_, event, targets) = mem::replace(cell, nothing(alloc)) {
                *cell = Cell::Came(Outcome::Dead(number, reason, event, targets));
            }
        }
    }
}

// An event meets a plugin.
fn meet_plugin<K: Plugins>(
    alloc: Global,
    kit: &mut K,
    number: u64,
    cell: &mut Cell,
    others: &mut Items<Cell>,
) -> Result<(), AllocError>
    requires stands { K.stands kit.old }
    requires none { others.old ≡ [] }
    ensures stands { K.stands kit.new }
    ensures ok { OnOk result ((e : Ev) (targets : List ℕ) → cell.old ≡ variant.At 0 e targets
        → StepsAll (K.may kit.old) (K.table kit.old) (step.Plugin number)
        (marks_of (K.table kit.old) cell.old)
        (marks_of (K.table kit.old) cell.new ++ marks (K.table kit.old) others.new)) }
    ensures table { K.table kit.new ≡ K.table kit.old }
    ensures boxes { K.boxes kit.new ≡ K.boxes kit.old }
    ensures may { (k : ℕ) (e : Ev) (v : Verdict) → K.may kit.new k e v → K.may kit.old k e v }
{
    match cell {
        Cell::At(_, event, targets) => {
            if kit.act(number, event, targets, others)? {
                return Ok(());
            }
            put_first(alloc, cell, others);
            Ok(())
        }
        Cell::Came(_) => Ok(()),
    }
}

// A cell that says nothing.
fn nothing(alloc: Global) -> Cell
    ensures { (table : Table) → marks_of table result ≡ [] }
{
    Cell::Came(Outcome::Consumed(Event::new(alloc), Targets::new(alloc)))
}

// The first of the others, if there is one, in the place of a cell.
fn put_first(alloc: Global, cell: &mut Cell, others: &mut Items<Cell>)
    ensures { (table : Table)
        → marks table others.old ≡ marks_of table cell.new ++ marks table others.new }
{
    *cell = if others.is_empty() {
        nothing(alloc)
    } else {
        others.remove(0)
    };
}
