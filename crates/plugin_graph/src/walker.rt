// A kit whose filters without patterns are read anew for each event.

ghost use Rattle.std.specs.Prelude.{◌≡◌, ℕ, ◌∷◌, [], false, map, slice_get, IfOk};
ghost use Rattle.event_tree.specs.Events.{Ev};
ghost use Rattle.event_tree.specs.Paths.{over};
ghost use Rattle.foreign_parts.specs.declared.filter.Verdict.{Verdict};
ghost use Rattle.event_flow.specs.Laying.{IsTableOf};
ghost use Rattle.event_flow.specs.Parts.{parts_of};
ghost use Rattle.event_flow.specs.Places.{Draws};
ghost use Rattle.plugin_graph.specs.KitParts.{contents_in};
ghost use Rattle.plugin_graph.specs.Kits.{MayAt, boxes_of, table_of};
ghost use Rattle.built_plugins.specs.Makes.{makes};
ghost use Rattle.plugin_graph.specs.Passages.{IsPassageOf};
ghost use Rattle.plugin_graph.specs.Walks as spec;
ghost use Rattle.plugin_graph.specs.Walks.{IsRead, MetAnew, ReadsAlike};

use crate::kit_filter::{KitFilter, meet};
use crate::parts::Parts;
use crate::passage::Passage;
use built_plugins::{BuiltFilter, Filter, Flat};
use condition_eval::Truth;
use config_tree::{Config, Plugin, copy_statements};
use event_flow::{Cell, Plugins, Targets, flatten_config};
use event_tree::{Event, Events, Items};
use foreign_parts::FilterCall;
use std::alloc::{AllocError, Global};

/// The parts of a kit, with the plugins of its filters. Some of the filters are read anew from their
/// plugins, each time an event meets one.
#[derive(Drop)]
pub(crate) struct Walker<X> {
    pub parts: Parts<X>,
    pub plugins: Items<Plugin>,
    /// Which filters are read anew.
    pub plain: Items<bool>,
    /// How many times one was read.
    pub reads: u64,
}

impl<X: FilterCall> Plugins for Walker<X> {
    ghost use Rattle.plugin_graph.specs.KitParts.{contents_in};
    ghost use Rattle.plugin_graph.specs.Kits.{table_of, MayAt, boxes_of};
    ghost use Rattle.plugin_graph.specs.Walks.{ReadsAlike};

    ghost table = { λ w. table_of (contents_in w.parts) };

    ghost may = { λ w. MayAt X.may (boxes_of w.parts.filters) };

    ghost stands = { λ w. ReadsAlike w.plugins w.plain (table_of (contents_in w.parts)) };

    type Plugged = X;

    ghost boxes = { λ w. boxes_of w.parts.filters };

    fn act(
        &mut self,
        number: u64,
        event: &mut Event,
        targets: &mut Targets,
        to: &mut Items<Cell>,
    ) -> Result<bool, AllocError> {
        let at = number as usize;
        if is_marked(self.plain.as_slice(), at) {
            self.reads = self.reads.saturating_add(1);
            apply_from_text(self.plugins.as_slice(), at, event, targets, to)
        } else {
            self.parts.act(number, event, targets, to)
        }
    }

    fn test(&mut self, number: u64, event: &Event) -> Result<Truth, AllocError> {
        self.parts.test(number, event)
    }
}

impl<X: FilterCall> Walker<X> {
    /// Takes an event through a configuration, of which these are the parts of a kit.
    pub(crate) fn pass(
        &mut self,
        alloc: Global,
        config: &Config,
        event: &Event,
    ) -> Result<Passage, AllocError>
        requires { ReadsAlike self.old.plugins self.old.plain
            (table_of (contents_in self.old.parts)) }
        ensures passage { IfOk result (λ passage. (draws : Draws)
            → IsTableOf makes config.now draws (table_of (contents_in self.old.parts))
            → IsPassageOf (MayAt X.may (boxes_of self.old.parts.filters))
            makes config.now draws (event.now ∷ []) passage) }
        ensures table { table_of (contents_in self.new.parts)
            ≡ table_of (contents_in self.old.parts) }
        ensures boxes { boxes_of self.new.parts.filters ≡ boxes_of self.old.parts.filters }
        ensures may { (k : ℕ) (e : Ev) (v : Verdict)
            → MayAt X.may (boxes_of self.new.parts.filters) k e v
            → MayAt X.may (boxes_of self.old.parts.filters) k e v }
    {
        let steps = flatten_config(alloc, config)?;
        let events = alone(alloc, event)?;
        let cells = event_flow::run(alloc, self, steps.as_slice(), events)?;
        Passage::of_cells(alloc, &self.parts, cells)
    }
}

/// The plugins of the filter section of a configuration, in the order of the text.
pub(crate) fn filter_plugins(alloc: Global, config: &Config) -> Result<Items<Plugin>, AllocError>
    ensures { IfOk result (λ plugins. plugins ≡ (parts_of config.now.filters).plugins) }
{
    let filters = copy_statements(alloc, config.filters.as_slice())?;
    let Flat { plugins, .. } = Flat::of_statements(alloc, filters)?;
    Ok(plugins)
}

/// Marks the filters that are built in and have no pattern.
#[tactic(auto, using(event_text::proofs::Going::going))]
pub(crate) fn plain_filters<X: Drop>(
    alloc: Global,
    filters: &[KitFilter<X>],
) -> Result<Items<bool>, AllocError>
    ensures { IfOk result (λ plain. plain ≡ map (λ f. spec.is_plain f.filter) filters.now) }
{
    let mut plain = Items::with_capacity(alloc, filters.len())?;
    for filter in filters {
        plain.push(is_plain(&filter.filter)?)?;
    }
    Ok(plain)
}

fn is_plain(filter: &Filter) -> Result<bool, AllocError>
    ensures { IfOk result (λ plain. plain ≡ spec.is_plain filter.now) }
{
    match filter {
        Filter::Built(filter) => Ok(filter.count_patterns()? == 0),
        Filter::Boxed(_) => Ok(false),
    }
}

fn is_marked(plain: &[bool], at: usize) -> bool
    ensures { result ≡ over (λ marked. marked) false (slice_get plain.now at) }
{
    match plain.get(at) {
        Some(marked) => *marked,
        None => false,
    }
}

fn alone(alloc: Global, event: &Event) -> Result<Events, AllocError>
    ensures { IfOk result (λ events. events ≡ event.now ∷ []) }
{
    let mut events = Events::with_capacity(alloc, 1)?;
    events.push(event.copy()?)?;
    Ok(events)
}

// Has an event meet the built-in filter that the plugin of a number is.
fn apply_from_text(
    plugins: &[Plugin],
    at: usize,
    event: &mut Event,
    targets: &mut Targets,
    to: &mut Items<Cell>,
) -> Result<bool, AllocError>
    ensures { IfOk result (λ stays. MetAnew plugins.now at event.old targets.old
        stays event.new targets.new to.old to.new) }
{
    let mut filter = read_anew(plugins, at)?;
    meet(&mut filter, event, targets, to)
}

// The built-in filter that the plugin of a number is. No other plugin is marked.
fn read_anew(plugins: &[Plugin], at: usize) -> Result<BuiltFilter, AllocError>
    ensures { IfOk result (λ filter. IsRead plugins.now at filter) }
{
    let Some(plugin) = plugins.get(at) else {
        return Err(AllocError);
    };
    match BuiltFilter::from_plugin(plugin) {
        Ok(Some(filter)) => Ok(filter),
        Ok(None) | Err(_) => Err(AllocError),
    }
}
