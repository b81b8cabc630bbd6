// What came of a batch.

ghost use Rattle.std.specs.Prelude.{◌≡◌, ◌++◌, ◌∷◌, [], IfOk, OnOk};
ghost use Rattle.condition_eval.specs.Texts.{reason_text};
ghost use Rattle.event_flow.specs.Flows.{To, Dead, wrong_letter};
ghost use Rattle.event_flow.specs.Marks.{marks, marks_of, outcome_marks, sent_to};
ghost use Rattle.plugin_graph.specs.KitParts.{contents_in};
ghost use Rattle.plugin_graph.specs.Kits.{id_at, table_of, target_at};
ghost use Rattle.plugin_graph.specs.Passages as spec;

use crate::parts::Parts;
use built_plugins::{Shared, Target};
use condition_eval::Reason;
use event_flow::{Cell, Outcome};
use event_tree::{DeadList, DeadPart, Event, Events, Items, Text};
use foreign_parts::Verdict;
use std::alloc::{AllocError, Global};
use std::mem;

// Room for the text of most reasons.
const REASON_BYTES: usize = 32;

/// An event that an output sends to a place.
pub struct Sent {
    /// The output and the place, which the kit has, too.
    pub target: Shared<Target>,
    pub event: Event,
}

// Written out, so that it is one call wherever an error is handed on while it is held.
impl Drop for Sent {
    fn drop(self) {
        let Sent {
            target: _target,
            event: _event,
        } = self;
    }
}

/// What came of a batch, each list in the order in which it came.
#[derive(Drop)]
pub struct Passage {
    /// The events that outputs send to their places.
    pub sent: Items<Sent>,
    /// The events that are dead, since a condition had no truth of them.
    pub dead: DeadList,
    /// The verdicts of boxed filters that were used.
    pub verdicts: Items<Verdict>,
}

impl Passage {
    /// What came of a batch, by its cells. An event is copied for each target that it has beyond the
    /// first, and once more where it is dead.
    pub(crate) fn of_cells<X: Drop>(
        alloc: Global,
        parts: &Parts<X>,
        cells: Items<Cell>,
    ) -> Result<Passage, AllocError>
        ensures { IfOk result (λ passage. passage
            ≡ spec.passage_of (marks (table_of (contents_in parts.now)) cells)) }
    {
        let sent = Items::with_capacity(alloc, cells.len())?;
        let mut passage = Passage {
            sent,
            dead: DeadList::new(alloc),
            verdicts: Items::new(alloc),
        };
        for cell in cells.into_vec() {
            passage.add_cell(parts, cell)?;
        }
        Ok(passage)
    }

    fn add_cell<X: Drop>(&mut self, parts: &Parts<X>, cell: Cell) -> Result<(), AllocError>
        ensures { OnOk result (self.new ≡ spec.with_marks self.old
            (marks_of (table_of (contents_in parts.now)) cell)) }
    {
        match cell {
            Cell::At(_, event, targets) => send(parts, event, targets.as_slice(), &mut self.sent),
            Cell::Came(outcome) => self.add_outcome(parts, outcome),
        }
    }

    fn add_outcome<X: Drop>(&mut self, parts: &Parts<X>, outcome: Outcome) -> Result<(), AllocError>
        ensures { OnOk result (self.new ≡ spec.with_marks self.old
            (outcome_marks (table_of (contents_in parts.now)) outcome)) }
    {
        let alloc = self.sent.allocator();
        let mut outcome = outcome;
        match &mut outcome {
            Outcome::Consumed(event, targets) => {
                send(
                    parts,
                    taken(alloc, event),
                    targets.as_slice(),
                    &mut self.sent,
                )
            }
            Outcome::Dead(number, reason, event, targets) => {
                send_copies(parts, event, targets.as_slice(), &mut self.sent)?;
                self.dead
                    .push(letter(parts, *number, reason, taken(alloc, event))?)
            }
            Outcome::Verdict(verdict) => self.verdicts.push(taken_verdict(alloc, verdict)),
        }
    }
}

// An event is moved out of an outcome, and an empty one left there.
pub(crate) fn taken(alloc: Global, event: &mut Event) -> Event
    ensures { result ≡ event.old }
{
    mem::replace(event, Event::new(alloc))
}

fn taken_verdict(alloc: Global, verdict: &mut Verdict) -> Verdict
    ensures { result ≡ verdict.old }
{
    let none = Verdict {
        events: Events::new(alloc),
        matched: false,
    };
    mem::replace(verdict, none)
}

// Sends an event to each of its targets.
fn send<X: Drop>(
    parts: &Parts<X>,
    event: Event,
    targets: &[u64],
    to: &mut Items<Sent>,
) -> Result<(), AllocError>
    ensures { OnOk result (to.new ≡ to.old
        ++ spec.sent_of (sent_to (table_of (contents_in parts.now)) targets.now event)) }
{
    let Some((last, others)) = targets.split_last() else {
        return Ok(());
    };
    send_copies(parts, &event, others, to)?;
    send_one(parts, event, *last, to)
}

fn send_copies<X: Drop>(
    parts: &Parts<X>,
    event: &Event,
    targets: &[u64],
    to: &mut Items<Sent>,
) -> Result<(), AllocError>
    ensures { OnOk result (to.new ≡ to.old
        ++ spec.sent_of (sent_to (table_of (contents_in parts.now)) targets.now event.now)) }
{
    for target in targets {
        send_one(parts, event.copy()?, *target, to)?;
    }
    Ok(())
}

// Sends an event to a target. No event has one that isn't there.
fn send_one<X: Drop>(
    parts: &Parts<X>,
    event: Event,
    number: u64,
    to: &mut Items<Sent>,
) -> Result<(), AllocError>
    ensures { OnOk result (to.new ≡ to.old
        ++ spec.sent_of (sent_to (table_of (contents_in parts.now)) (number ∷ []) event)) }
{
    let Some(target) = parts.targets.get(number as usize) else {
        return Err(AllocError);
    };
    let target = target.share()?;
    to.push(Sent { target, event })
}

// The letter of an event whose condition is wrong.
fn letter<X: Drop>(
    parts: &Parts<X>,
    number: u64,
    reason: &Reason,
    event: Event,
) -> Result<DeadPart, AllocError>
    ensures { IfOk result (λ letter. letter ≡ wrong_letter
        (id_at (contents_in parts.now).conditions number) reason.now event) }
{
    let Some(condition) = parts.conditions.get(number as usize) else {
        return Err(AllocError);
    };
    let alloc = parts.targets.allocator();
    let kind = Text::of(alloc, "if")?;
    let id = condition.id().copy()?;
    let reason = reason_text(alloc, reason)?;
    Ok(DeadPart {
        kind,
        id,
        reason,
        event,
    })
}

fn reason_text(alloc: Global, reason: &Reason) -> Result<Text, AllocError>
    ensures { IfOk result (λ text. text ≡ reason_text reason.now) }
{
    let mut text = String::with_capacity(alloc, REASON_BYTES)?;
    write!(text, "{reason}")?;
    Ok(Text::from_string(text))
}
