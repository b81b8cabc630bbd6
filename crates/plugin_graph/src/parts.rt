// The plugins and conditions of a kit, by their numbers.

ghost use Rattle.std.specs.Prelude.{◌≡◌, IfOk};
ghost use Rattle.event_flow.specs.Marks.{Yields};
ghost use Rattle.event_flow.specs.Steps.{Table};
ghost use Rattle.event_flow.specs.declared.cell.Cell.TheVariants as cell;
ghost use Rattle.event_flow.specs.declared.cell.Outcome.TheVariants as outcome;
ghost use Rattle.plugin_graph.specs.Kits.{HaveOwnTargets, MayAt, boxes_of, filter_acts};
ghost use Rattle.plugin_graph.specs.Meetings.{Meeting};

use crate::kit_filter::KitFilter;
use crate::passage::taken;
use built_plugins::{CompiledCondition, OutputTargets, Shared, Target};
use condition_eval::Truth;
use event_flow::{Cell, Outcome, Plugins, Targets};
use event_tree::{Event, Items};
use foreign_parts::FilterCall;
use std::alloc::{AllocError, Global};
use std::mem;

/// The plugins and conditions of a kit, by their numbers: those of the filters first.
#[derive(Drop)]
pub struct Parts<X> {
    pub filters: Items<KitFilter<X>>,
    pub outputs: Items<OutputTargets>,
    pub targets: Items<Shared<Target>>,
    pub conditions: Items<CompiledCondition>,
    ghost own: { HaveOwnTargets targets outputs },
}

impl<X: Drop> Parts<X> {
    /// No plugin and no condition.
    pub(crate) fn new(alloc: Global) -> Parts<X> {
        Parts {
            filters: Items::new(alloc),
            outputs: Items::new(alloc),
            targets: Items::new(alloc),
            conditions: Items::new(alloc),
        }
    }
}

impl<X: FilterCall> Plugins for Parts<X> {
    ghost use Rattle.plugin_graph.specs.KitParts.{contents_in};
    ghost use Rattle.plugin_graph.specs.Kits.{table_of, MayAt, boxes_of};

    ghost table = { λ parts. table_of (contents_in parts) };

    ghost may = { λ parts. MayAt X.may (boxes_of parts.filters) };

    ghost stands = { λ parts. Unit {0} };

    type Plugged = X;

    ghost boxes = { λ parts. boxes_of parts.filters };

    fn act(
        &mut self,
        number: u64,
        event: &mut Event,
        targets: &mut Targets,
        to: &mut Items<Cell>,
    ) -> Result<bool, AllocError> {
        let at = number as usize;
        match at.checked_sub(self.filters.len()) {
            None => meet(&mut self.filters, at, event, targets, to),
            Some(place) => match self.outputs.get(place) {
                Some(output) => {
                    output.send(targets)?;
                    Ok(true)
                }
                None => {
                    to.push(gone(to.allocator(), event, targets))?;
                    Ok(false)
                }
            },
        }
    }

    fn test(&mut self, number: u64, event: &Event) -> Result<Truth, AllocError> {
        match self.conditions.get_mut(number as usize) {
            Some(condition) => condition.test(event),
            None => Ok(Truth::No),
        }
    }
}

// An event is moved out of its place, and goes no further.
fn gone(alloc: Global, event: &mut Event, targets: &mut Targets) -> Cell
    ensures { result ≡ cell.Came (outcome.Consumed event.old targets.old) }
{
    let targets = mem::replace(targets, Targets::new(alloc));
    Cell::Came(Outcome::Consumed(taken(alloc, event), targets))
}

// Has an event meet the filter of a number.
fn meet<X: FilterCall>(
    filters: &mut Items<KitFilter<X>>,
    at: usize,
    event: &mut Event,
    targets: &mut Targets,
    to: &mut Items<Cell>,
) -> Result<bool, AllocError>
    ensures ok { IfOk result (λ stays. (table : Table) → Yields (Meeting
        (MayAt X.may (boxes_of filters.old))
        (filter_acts filters.old at event.old) table event.old targets.old)
        table stays event.new targets.new to.old to.new) }
    ensures same { filters.new ≡ filters.old }
{
    match filters.get_mut(at) {
        Some(filter) => filter.meet(event, targets, to),
        None => Err(AllocError),
    }
}
