// How many patterns stand in the parts of a kit.

ghost use Rattle.std.specs.Prelude.{◌≡◌, IfOk};
ghost use Rattle.std.specs.List.{sum_by};
ghost use Rattle.built_plugins.specs.Conditions.{condition_patterns};
ghost use Rattle.built_plugins.specs.Counts.{filter_patterns};
ghost use Rattle.plugin_graph.specs.Counts as spec;
ghost use Rattle.plugin_graph.specs.KitParts.{contents_in};

use crate::kit_filter::KitFilter;
use crate::parts::Parts;
use built_plugins::{CompiledCondition, add_counts};
use std::alloc::AllocError;

/// How many patterns the filters and the conditions have.
pub(crate) fn count_patterns<X: Drop>(parts: &Parts<X>) -> Result<u64, AllocError>
    ensures { IfOk result (λ count. count ≡ spec.patterns_in (contents_in parts.now)) }
{
    let filters = in_filters(parts.filters.as_slice())?;
    let conditions = in_conditions(parts.conditions.as_slice())?;
    add_counts(filters, conditions)
}

#[tactic(auto, using(built_plugins::proofs::Sums::counting))]
fn in_filters<X: Drop>(filters: &[KitFilter<X>]) -> Result<u64, AllocError>
    ensures { IfOk result (λ count. count
        ≡ sum_by (λ f. filter_patterns f.filter) filters.now) }
{
    let mut count = 0;
    for filter in filters {
        count = add_counts(count, filter.filter.count_patterns()?)?;
    }
    Ok(count)
}

#[tactic(auto, using(built_plugins::proofs::Sums::counting))]
fn in_conditions(conditions: &[CompiledCondition]) -> Result<u64, AllocError>
    ensures { IfOk result (λ count. count ≡ sum_by condition_patterns conditions.now) }
{
    let mut count = 0;
    for condition in conditions {
        count = add_counts(count, condition.count_patterns() as u64)?;
    }
    Ok(count)
}
