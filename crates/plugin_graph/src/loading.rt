// The parts of a kit, made from a configuration.

ghost use Rattle.std.specs.Prelude.{◌≡◌, ◌++◌, IfOk, IfErr, codes, map};
ghost use Rattle.event_flow.specs.Parts.{parts_of};
ghost use Rattle.filter_settings.specs.Settings.{Gives, Refuses};
ghost use Rattle.built_plugins.specs.Conditions.{compiled};
ghost use Rattle.built_plugins.specs.Each.{each_made, named};
ghost use Rattle.built_plugins.specs.Flats.{flat_of};
ghost use Rattle.plugin_graph.specs.KitParts.{contents_in};
ghost use Rattle.plugin_graph.specs.Kits.{boxes_of, no_boxes};
ghost use Rattle.plugin_graph.specs.Loads as spec;
ghost use Rattle.built_plugins.specs.Makes.{filter_of};
ghost use Rattle.built_plugins.specs.Numbering.{outputs_of};

use crate::kit_filter::KitFilter;
use crate::parts::Parts;
use built_plugins::{
    CompiledCondition, Filter, Flat, NamedCondition, Outputs, add_named, compile_conditions,
    read_filters,
};
use config_tree::{Condition, Config, FromFault, Plugin, copy_statements};
use plain_data::{Items, Text};
use std::alloc::{AllocError, Global};

/// The filter and output sections of a configuration.
#[derive(Drop)]
struct Sections {
    filters: Flat,
    outputs: Flat,
}

/// The parts of a kit of a configuration.
pub(crate) fn load<X: Drop>(
    alloc: Global,
    config: &Config,
    draws: &[(Text, u64)],
) -> Result<Parts<X>, FromFault>
    ensures ok { IfOk result (λ parts. spec.IsLoaded draws.now config.now (contents_in parts)) }
    ensures boxes { IfOk result
        (λ parts. boxes_of parts.filters ≡ no_boxes (contents_in parts).filters) }
    ensures refused { IfErr result (λ fault. Refuses fault (spec.loaded draws.now config.now)) }
{
    let Sections { filters, outputs } = Sections::of_config(alloc, config)?;
    let Flat {
        plugins,
        conditions,
    } = filters;
    let read = filters_of(alloc, plugins)?;
    let conditions = conditions_of(alloc, conditions, outputs.conditions)?;
    Ok(parts_of(alloc, draws, read, outputs.plugins, conditions)?)
}

// The filters that plugins are.
fn filters_of(alloc: Global, plugins: Items<Plugin>) -> Result<Items<Filter>, FromFault>
    ensures { Gives result (each_made filter_of plugins) }
{
    read_filters(alloc, plugins.as_slice())
}

// The conditions of both sections, with their patterns.
fn conditions_of(
    alloc: Global,
    filters: Items<Condition>,
    outputs: Items<Condition>,
) -> Result<Items<CompiledCondition>, FromFault>
    ensures { Gives result (each_made compiled (named (codes "filter") 1 filters
        ++ named (codes "output") 1 outputs)) }
{
    let named = named_conditions(alloc, filters, outputs)?;
    compile_conditions(alloc, named)
}

fn parts_of<X: Drop>(
    alloc: Global,
    draws: &[(Text, u64)],
    filters: Items<Filter>,
    plugins: Items<Plugin>,
    conditions: Items<CompiledCondition>,
) -> Result<Parts<X>, AllocError>
    ensures filters { IfOk result (λ parts. map (λ f. f.filter) parts.filters ≡ filters) }
    ensures boxes { IfOk result (λ parts. boxes_of parts.filters ≡ no_boxes filters) }
    ensures outputs { IfOk result (λ parts. parts.outputs
        ≡ (outputs_of draws.now plugins).outputs) }
    ensures targets { IfOk result (λ parts. parts.targets
        ≡ (outputs_of draws.now plugins).targets) }
    ensures conditions { IfOk result (λ parts. parts.conditions ≡ conditions) }
{
    let filters = kit_filters(alloc, filters)?;
    let Outputs { outputs, targets } = Outputs::of_plugins(alloc, draws, plugins.as_slice())?;
    Ok(Parts {
        filters,
        outputs,
        targets,
        conditions,
    })
}

impl Sections {
    fn of_config(alloc: Global, config: &Config) -> Result<Sections, AllocError>
        ensures filters { IfOk result
            (λ sections. sections.filters ≡ flat_of (parts_of config.now.filters)) }
        ensures outputs { IfOk result
            (λ sections. sections.outputs ≡ flat_of (parts_of config.now.outputs)) }
    {
        let filters = copy_statements(alloc, config.filters.as_slice())?;
        let outputs = copy_statements(alloc, config.outputs.as_slice())?;
        Ok(Sections {
            filters: Flat::of_statements(alloc, filters)?,
            outputs: Flat::of_statements(alloc, outputs)?,
        })
    }
}

fn kit_filters<X: Drop>(
    alloc: Global,
    filters: Items<Filter>,
) -> Result<Items<KitFilter<X>>, AllocError>
    ensures filters { IfOk result (λ found. map (λ f. f.filter) found ≡ filters) }
    ensures boxes { IfOk result (λ found. boxes_of found ≡ no_boxes filters) }
{
    let mut found = Items::with_capacity(alloc, filters.len())?;
    for filter in filters.into_vec() {
        found.push(KitFilter {
            filter,
            plugged: None,
        })?;
    }
    Ok(found)
}

// The conditions of both sections, with their ids.
fn named_conditions(
    alloc: Global,
    filters: Items<Condition>,
    outputs: Items<Condition>,
) -> Result<Items<NamedCondition>, AllocError>
    ensures { IfOk result (λ found. found ≡ named (codes "filter") 1 filters
        ++ named (codes "output") 1 outputs) }
{
    let mut found = Items::new(alloc);
    add_named(alloc, "filter", filters, &mut found)?;
    add_named(alloc, "output", outputs, &mut found)?;
    Ok(found)
}
