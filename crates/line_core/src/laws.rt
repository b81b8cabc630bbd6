//! What holds of the jobs of a line, and of the ids of its inputs. Each function here does nothing: its clauses are theorems.
ghost use Rattle.line_core.specs.Jobs.{ResultsComeHome};
ghost use Rattle.line_core.specs.Openings.{PlannedAreShort};

use foreign_parts::FilterCall;
use graph_checks::Drawn;

/// What comes home of the jobs of a line that are out is a result that it takes.
pub fn results_come_home<F: FilterCall, O: Drop>()
    ensures { ResultsComeHome F O (λ drawn. F.may drawn.plugged) }
{}

/// The ids of the inputs of a plan have 1 to 255 bytes, as the origins of rows have: an id that is given is such a text, and
/// else it is a word and a number.
pub fn planned_inputs_have_short_ids()
    ensures { PlannedAreShort }
{}
