// Running a batch through all steps, and the trait of what the steps act by.
ghost use Rattle.std.specs.Prelude.{◌≡◌, ℕ, ◌<◌, ◌≤◌, ◌++◌, [], IfOk, OnOk, map, length, take, drop};
ghost use Rattle.event_tree.specs.Events.{Ev};
ghost use Rattle.foreign_parts.specs.declared.filter.Verdict.{Verdict};
ghost use Rattle.event_flow.specs.Flows.{each, nothing};
ghost use Rattle.config_tree.specs.declared.tree.Config.{Config};
ghost use Rattle.event_flow.specs.Laying.{AreStepsOf, IsTableOf};
ghost use Rattle.event_flow.specs.Meaning.{Makes, flow_of};
ghost use Rattle.event_flow.specs.Places.{Draws};
ghost use Rattle.event_flow.specs.Steps.{from};
ghost use Rattle.event_flow.specs.Marks.{Meets, StepsAll, Derives, Adds, Yields, marks, marks_of};
ghost use Rattle.event_flow.specs.Stepped.{Takes};
ghost use Rattle.event_flow.specs.declared.cell.Cell.TheVariants as cell;

use crate::cell::Cell;
use crate::step::FlowStep;
use crate::stepping::step_cell;
use crate::targets::Targets;
use condition_eval::Truth;
use event_tree::{Event, Events, Items};
use std::alloc::{AllocError, Global};

/// Filters, outputs and conditions, by their numbers in the steps.
pub trait Plugins {
    ghost use Rattle.event_tree.specs.Events.{Ev};
    ghost use Rattle.foreign_parts.specs.declared.filter.Verdict.{Verdict};
    ghost use Rattle.event_flow.specs.Steps.{Table};
    ghost use Rattle.std.specs.Prelude.{◌≡◌, ℕ, List, Option, IfOk};

    /// What its plugins do to events, and what its conditions say of them.
    ghost table: { Self → Table };

    /// Whether the k-th filter, a boxed one, may answer so to an event.
    ghost may: { Self → ℕ → Ev → Verdict → Type 0 };

    /// What it keeps, so that it can be asked.
    ghost stands: { Self → Type 0 };

    /// A boxed filter.
    type Plugged;

    /// The boxes of its filters, where these are boxed ones and their boxes were put in.
    ghost boxes: { Self → List (Option Self.Plugged) };

    /// Has an event, which was sent to these targets so far, meet a plugin. Where one event comes of
    /// it, sent to some targets, and nothing else, that can be put in its place: then it is true. Else
    /// what comes of it is put behind the last cell, and nothing is said of what is in its place.
    fn act(
        &mut self,
        number: u64,
        event: &mut Event,
        targets: &mut Targets,
        to: &mut Items<Cell>,
    ) -> Result<bool, AllocError>
        requires { stands self.old }
        ensures stands { stands self.new }
        ensures ok { IfOk result (λ stays. Yields
            (Meets (may self.old) (table self.old) number event.old targets.old)
            (table self.old) stays event.new targets.new to.old to.new) }
        ensures table { table self.new ≡ table self.old }
        ensures boxes { boxes self.new ≡ boxes self.old }
        ensures may { (k : ℕ) (e : Ev) (v : Verdict) → may self.new k e v → may self.old k e v };

    /// What a condition says of an event.
    fn test(&mut self, number: u64, event: &Event) -> Result<Truth, AllocError>
        requires { stands self.old }
        ensures stands { stands self.new }
        ensures truth { IfOk result (λ truth. truth ≡ (table self.old).says number event.now) }
        ensures table { table self.new ≡ table self.old }
        ensures boxes { boxes self.new ≡ boxes self.old }
        ensures may { (k : ℕ) (e : Ev) (v : Verdict) → may self.new k e v → may self.old k e v };
}

/// Takes a batch through the steps, one after the other. The cells say, in order, what was derived,
/// and which verdicts were used: with these verdicts, each event in order derives this. By the steps
/// of a configuration, and a kit that has its plugins, this is what the configuration means.
///
/// An event stands in its place and is moved only by the plugins that it meets, once for each,
/// whatever its size. Where more than one cell comes of an event, those behind it are moved too.
pub fn run<K: Plugins>(
    alloc: Global,
    kit: &mut K,
    steps: &[FlowStep],
    events: Events,
) -> Result<Items<Cell>, AllocError>
    requires { K.stands kit.old }
    ensures stands { K.stands kit.new }
    ensures table { K.table kit.new ≡ K.table kit.old }
    ensures boxes { K.boxes kit.new ≡ K.boxes kit.old }
    ensures may { (k : ℕ) (e : Ev) (v : Verdict) → K.may kit.new k e v → K.may kit.old k e v }
    ensures ran { IfOk result (λ cells. Derives (K.may kit.old)
        (each (from (K.table kit.old) steps.now 0 (λ _. nothing)) events)
        (marks (K.table kit.old) cells)) }
    ensures derived { IfOk result (λ cells. (makes : Makes) (config : Config) (draws : Draws)
        → AreStepsOf config steps.now → IsTableOf makes config draws (K.table kit.old)
        → Derives (K.may kit.old) (each (flow_of makes config draws) events)
        (marks (K.table kit.old) cells)) }
{
    let mut cells = started(alloc, events)?;
    for step in steps {
        cells = one_step(alloc, kit, *step, cells)?;
    }
    Ok(cells)
}

fn started(alloc: Global, events: Events) -> Result<Items<Cell>, AllocError>
    ensures { IfOk result (λ cells. cells ≡ map (λ e. cell.At 0 e []) events) }
{
    let mut cells = Items::with_capacity(alloc, events.len())?;
    for event in events.into_vec() {
        cells.push(Cell::At(0, event, Targets::new(alloc)))?;
    }
    Ok(cells)
}

fn one_step<K: Plugins>(
    alloc: Global,
    kit: &mut K,
    step: FlowStep,
    cells: Items<Cell>,
) -> Result<Items<Cell>, AllocError>
    requires { K.stands kit.old }
    ensures stands { K.stands kit.new }
    ensures ok { IfOk result (λ out. StepsAll (K.may kit.old) (K.table kit.old) step
        (marks (K.table kit.old) cells) (marks (K.table kit.old) out)) }
    ensures table { K.table kit.new ≡ K.table kit.old }
    ensures boxes { K.boxes kit.new ≡ K.boxes kit.old }
    ensures may { (k : ℕ) (e : Ev) (v : Verdict) → K.may kit.new k e v → K.may kit.old k e v }
{
    let mut cells = cells;
    let mut others = Items::new(alloc);
    for index in 0..cells.len() {
        step_at(alloc, kit, step, &mut cells, index, &mut others)?;
        if !others.is_empty() {
            return step_rest(alloc, kit, step, cells, index + 1, others);
        }
    }
    Ok(cells)
}

fn step_at<K: Plugins>(
    alloc: Global,
    kit: &mut K,
    step: FlowStep,
    cells: &mut Items<Cell>,
    index: usize,
    others: &mut Items<Cell>,
) -> Result<(), AllocError>
    requires stands { K.stands kit.old }
    requires within { index < length cells.old }
    requires none { others.old ≡ [] }
    ensures stands { K.stands kit.new }
    ensures ok { OnOk result (Takes (K.may kit.old) (K.table kit.old) step index
        cells.old cells.new others.new) }
    ensures table { K.table kit.new ≡ K.table kit.old }
    ensures boxes { K.boxes kit.new ≡ K.boxes kit.old }
    ensures may { (k : ℕ) (e : Ev) (v : Verdict) → K.may kit.new k e v → K.may kit.old k e v }
{
    match cells.get_mut(index) {
        Some(cell) => step_cell(alloc, kit, step, cell, others),
        None => Err(AllocError),
    }
}

// Takes the cells from this number on through the step, where more than one came of the cell in
// front of them: the others stand behind that. From here on each cell is moved.
fn step_rest<K: Plugins>(
    alloc: Global,
    kit: &mut K,
    step: FlowStep,
    cells: Items<Cell>,
    from: usize,
    others: Items<Cell>,
) -> Result<Items<Cell>, AllocError>
    requires stands { K.stands kit.old }
    requires within { from ≤ length cells }
    ensures stands { K.stands kit.new }
    ensures ok { IfOk result (λ out. Adds
        (StepsAll (K.may kit.old) (K.table kit.old) step
        (marks (K.table kit.old) (drop from cells)))
        (marks (K.table kit.old) (take from cells ++ others)) (marks (K.table kit.old) out)) }
    ensures table { K.table kit.new ≡ K.table kit.old }
    ensures boxes { K.boxes kit.new ≡ K.boxes kit.old }
    ensures may { (k : ℕ) (e : Ev) (v : Verdict) → K.may kit.new k e v → K.may kit.old k e v }
{
    let mut front = cells.into_vec();
    let rest = front.split_off(from)?;
    let mut out = Items::from_vec(front);
    out.append(others)?;
    for cell in rest {
        add_step(alloc, kit, step, cell, &mut out)?;
    }
    Ok(out)
}

// What comes of a cell is put behind the others.
fn add_step<K: Plugins>(
    alloc: Global,
    kit: &mut K,
    step: FlowStep,
    cell: Cell,
    out: &mut Items<Cell>,
) -> Result<(), AllocError>
    requires { K.stands kit.old }
    ensures stands { K.stands kit.new }
    ensures ok { OnOk result (Adds
        (StepsAll (K.may kit.old) (K.table kit.old) step (marks_of (K.table kit.old) cell))
        (marks (K.table kit.old) out.old) (marks (K.table kit.old) out.new)) }
    ensures table { K.table kit.new ≡ K.table kit.old }
    ensures boxes { K.boxes kit.new ≡ K.boxes kit.old }
    ensures may { (k : ℕ) (e : Ev) (v : Verdict) → K.may kit.new k e v → K.may kit.old k e v }
{
    let mut cell = cell;
    let mut others = Items::new(alloc);
    step_cell(alloc, kit, step, &mut cell, &mut others)?;
    out.push(cell)?;
    out.append(others)
}
