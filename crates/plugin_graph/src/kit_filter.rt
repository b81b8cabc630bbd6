// A filter of a kit with its box, and the events that meet it.

ghost use Rattle.std.specs.Prelude.{◌≡◌, ℕ, ◌++◌, [], map, IfOk, OnOk};
ghost use Rattle.event_text.specs.Options as spec;
ghost use Rattle.event_flow.specs.Marks.{At, Came, Yields, at_once, dids, marks, sent_to};
ghost use Rattle.event_flow.specs.Steps.{Table};
ghost use Rattle.event_flow.specs.declared.cell.Cell.TheVariants as cell;
ghost use Rattle.plugin_graph.specs.Meetings.{Answered, Meeting, MayAnswer, filter_act};
ghost use Rattle.built_plugins.specs.Makes.{applied, optioned};

use crate::passage::taken;
use built_plugins::{BoxedFilter, BuiltFilter, Filter};
use event_flow::{Cell, Outcome, Targets};
use event_text::Options;
use event_tree::{Event, Events, Items};
use filter_settings::Applied;
use foreign_parts::{FilterCall, Verdict};
use std::alloc::AllocError;
use std::mem;

/// A filter of a kit, with its box, if it is a boxed one and the box was put in.
#[derive(Drop)]
pub struct KitFilter<X> {
    pub filter: Filter,
    pub plugged: Option<X>,
}

impl<X: FilterCall> KitFilter<X> {
    /// Has an event meet the filter, which was sent to these targets so far. Where one event alone comes
    /// of it, that is put in its place: then it is true. Else what comes of it is put behind the last
    /// cell. A boxed filter without its box answers as where memory ran out.
    pub fn meet(
        &mut self,
        event: &mut Event,
        targets: &mut Targets,
        to: &mut Items<Cell>,
    ) -> Result<bool, AllocError>
        ensures ok { IfOk result (λ stays. (table : Table) (k : ℕ) → Yields
            (Meeting (λ _ e v. MayAnswer
            X.may self.old.plugged e v)
            (filter_act k self.old.filter event.old) table event.old targets.old)
            table stays event.new targets.new to.old to.new) }
        ensures same { self.new ≡ self.old }
    {
        match &mut self.filter {
            Filter::Built(filter) => meet(filter, event, targets, to),
            Filter::Boxed(filter) => match &self.plugged {
                Some(plugged) => {
                    let targets = mem::replace(targets, Targets::new(to.allocator()));
                    ask(filter, plugged, event, targets, to)?;
                    Ok(false)
                }
                None => Err(AllocError),
            },
        }
    }
}

// Has an event meet a built-in filter. Where one event comes of one that was sent nowhere so far, that
// is put in its place.
pub(crate) fn meet(
    filter: &mut BuiltFilter,
    event: &mut Event,
    targets: &mut Targets,
    to: &mut Items<Cell>,
) -> Result<bool, AllocError>
    ensures ok { IfOk result (λ stays. (table : Table) → Came
        table stays event.new targets.new to.old to.new
        (dids (sent_to table targets.old event.old)
        ++ at_once (applied filter.old event.old).events)) }
    ensures same { filter.new ≡ filter.old }
{
    let alloc = to.allocator();
    if targets.is_empty() {
        let Applied { events, .. } = filter.apply(taken(alloc, event))?;
        return put(events, event, to);
    }
    push_consumed(event, mem::replace(targets, Targets::new(alloc)), to)?;
    let Applied { events, .. } = filter.apply(taken(alloc, event))?;
    push_next(events, to)?;
    Ok(false)
}

// A single event is put in this place, and others go on behind the last cell.
fn put(events: Events, event: &mut Event, to: &mut Items<Cell>) -> Result<bool, AllocError>
    ensures { IfOk result (λ stays. (table : Table) → Came
        table stays event.new [] to.old to.new (at_once events)) }
{
    let mut events = events;
    if events.len() == 1 {
        *event = events.remove(0);
        return Ok(true);
    }
    push_next(events, to)?;
    Ok(false)
}

// Asks a box about an event.
fn ask<X: FilterCall>(
    filter: &BoxedFilter,
    plugged: &X,
    event: &Event,
    targets: Targets,
    to: &mut Items<Cell>,
) -> Result<(), AllocError>
    ensures { OnOk result (Answered
        (X.may plugged.now event.now)
        filter.now event.now targets to.old to.new) }
{
    push_consumed(event, targets, to)?;
    let verdict = plugged.ask(event)?;
    let events = events_of(filter, &verdict)?;
    to.push(Cell::Came(Outcome::Verdict(verdict)))?;
    push_next(events, to)
}

// The events of a verdict.
fn events_of(filter: &BoxedFilter, verdict: &Verdict) -> Result<Events, AllocError>
    ensures { IfOk result (λ events. events ≡ optioned filter.now verdict.now) }
{
    let Verdict { events, matched } = verdict.copy()?;
    if matched {
        with_options(&filter.options, events)
    } else {
        Ok(events)
    }
}

fn with_options(options: &Options, events: Events) -> Result<Events, AllocError>
    ensures { IfOk result (λ changed. changed ≡ map (spec.with_options options.now) events) }
{
    let mut changed = Events::with_capacity(events.allocator(), events.len())?;
    for event in events.into_vec() {
        changed.push(options.apply(event)?)?;
    }
    Ok(changed)
}

// What is left of an event that was sent to targets, and is no more.
fn push_consumed(event: &Event, targets: Targets, to: &mut Items<Cell>) -> Result<(), AllocError>
    ensures { OnOk result ((table : Table) → marks table to.new
        ≡ marks table to.old ++ dids (sent_to table targets event.now)) }
{
    if targets.is_empty() {
        return Ok(());
    }
    to.push(Cell::Came(Outcome::Consumed(event.copy()?, targets)))
}

// Events that were sent nowhere so far go on with the next step.
fn push_next(events: Events, to: &mut Items<Cell>) -> Result<(), AllocError>
    ensures { OnOk result (to.new ≡ to.old ++ map (λ e. cell.At 0 e []) events) }
{
    for event in events.into_vec() {
        let targets = Targets::new(to.allocator());
        to.push(Cell::At(0, event, targets))?;
    }
    Ok(())
}
