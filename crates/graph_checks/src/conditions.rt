// The check of a condition's patterns.
ghost use Rattle.filter_settings.specs.Settings.{Gives};
ghost use Rattle.graph_checks.specs.Plugins as spec;

use built_plugins::read_patterns;
use config_tree::{Condition, FromFault};
use std::alloc::Global;

/// Sees whether each pattern of a condition is one. The fault is `BadPattern` of `condition`.
pub(crate) fn test_patterns(alloc: Global, condition: &Condition) -> Result<(), FromFault>
    ensures { Gives result (spec.patterns_read condition.now) }
{
    match read_patterns(alloc, condition) {
        Ok(_patterns) => Ok(()),
        Err(fault) => Err(fault),
    }
}
