// Lists of filters and conditions that are read one after another, up to the first fault.

ghost use Rattle.std.specs.Prelude.{◌≡◌, ◌+◌, ◌++◌, ◌∷◌, [], IfOk, OnOk};
ghost use Rattle.filter_settings.specs.Settings.{Gives};
ghost use Rattle.built_plugins.specs.Conditions.{compiled};
ghost use Rattle.built_plugins.specs.Each as spec;
ghost use Rattle.built_plugins.specs.Makes.{filter_of};

use crate::condition::{CompiledCondition, NamedCondition};
use crate::filter::Filter;
use crate::ids::condition_id;
use config_tree::{Condition, FromFault, Plugin};
use plain_data::Items;
use std::alloc::{AllocError, Global};

/// The filters that plugins are. The fault is that of the first setting that is refused, in the order
/// of the text.
#[tactic(auto, using(crate::proofs::Making::making))]
pub fn read_filters(alloc: Global, plugins: &[Plugin]) -> Result<Items<Filter>, FromFault>
    ensures { Gives result (spec.each_made filter_of plugins.now) }
{
    let mut filters = Items::with_capacity(alloc, plugins.len())?;
    for plugin in plugins {
        filters.push(Filter::from_plugin(plugin)?)?;
    }
    Ok(filters)
}

/// Adds the conditions of a section, with their ids.
pub fn add_named(
    alloc: Global,
    section: &str,
    conditions: Items<Condition>,
    to: &mut Items<NamedCondition>,
) -> Result<(), AllocError>
    ensures { OnOk result (to.new ≡ to.old ++ spec.named section.now 1 conditions) }
{
    let mut number: u64 = 1;
    for condition in conditions.into_vec() {
        add_condition(alloc, section, number, condition, to)?;
        number = next_number(number)?;
    }
    Ok(())
}

fn add_condition(
    alloc: Global,
    section: &str,
    number: u64,
    condition: Condition,
    to: &mut Items<NamedCondition>,
) -> Result<(), AllocError>
    ensures { OnOk result (to.new
        ≡ to.old ++ spec.named section.now number (condition ∷ [])) }
{
    let id = condition_id(alloc, section, number)?;
    to.push(NamedCondition { condition, id })
}

fn next_number(number: u64) -> Result<u64, AllocError>
    ensures { IfOk result (λ next. next ≡ number + 1) }
{
    match number.checked_add(1) {
        Some(next) => Ok(next),
        None => Err(AllocError),
    }
}

/// Conditions with their patterns. It is refused where a text of one of them is no pattern.
#[tactic(auto, using(crate::proofs::Making::making))]
pub fn compile_conditions(
    alloc: Global,
    conditions: Items<NamedCondition>,
) -> Result<Items<CompiledCondition>, FromFault>
    ensures { Gives result (spec.each_made compiled conditions) }
{
    let mut found = Items::with_capacity(alloc, conditions.len())?;
    for condition in conditions.into_vec() {
        found.push(CompiledCondition::new(alloc, condition)?)?;
    }
    Ok(found)
}
