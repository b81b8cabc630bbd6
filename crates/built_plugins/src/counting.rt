// How many patterns a filter has.

ghost use Rattle.std.specs.Prelude.{◌≡◌, ◌+◌, length, IfOk};
ghost use Rattle.std.specs.List.{sum_by};
ghost use Rattle.built_plugins.specs.Counts as spec;

use crate::built::BuiltFilter;
use crate::filter::Filter;
use filters_grok::FieldPatterns;
use std::alloc::AllocError;

impl Filter {
    /// How many patterns it has.
    pub fn count_patterns(&self) -> Result<u64, AllocError>
        ensures { IfOk result (λ count. count ≡ spec.filter_patterns self.now) }
    {
        match self {
            Filter::Built(filter) => filter.count_patterns(),
            Filter::Boxed(_) => Ok(0),
        }
    }
}

impl BuiltFilter {
    /// How many patterns it has.
    pub fn count_patterns(&self) -> Result<u64, AllocError>
        ensures { IfOk result (λ count. count ≡ spec.built_patterns self.now) }
    {
        match self {
            BuiltFilter::Mutate(filter) => Ok(filter.gsub.len() as u64),
            BuiltFilter::Grok(filter) => in_fields(filter.fields.as_slice()),
            BuiltFilter::Clone(_)
            | BuiltFilter::Split(_)
            | BuiltFilter::Drop(_)
            | BuiltFilter::Json(_)
            | BuiltFilter::Kv(_)
            | BuiltFilter::Csv(_)
            | BuiltFilter::Date(_) => Ok(0),
        }
    }
}

#[tactic(auto, using(crate::proofs::Sums::counting))]
fn in_fields(fields: &[FieldPatterns]) -> Result<u64, AllocError>
    ensures { IfOk result (λ count. count ≡ sum_by (λ f. length f.1) fields.now) }
{
    let mut count = 0;
    for field in fields {
        count = add_counts(count, field.1.len() as u64)?;
    }
    Ok(count)
}

/// The sum of two counts. One that no number of 64 bits holds is told as want of memory: no kit has
/// as many patterns.
pub fn add_counts(count: u64, by: u64) -> Result<u64, AllocError>
    ensures { IfOk result (λ sum. sum ≡ count + by) }
{
    count.checked_add(by).ok_or(AllocError)
}
