// The checks of a configuration as a whole, behind those of its statements.
ghost use Rattle.graph_checks.specs.Answers.{Gives};
ghost use Rattle.graph_checks.specs.Whole as spec;
ghost use Rattle.foreign_parts.specs.Links.{addresses_of};
ghost use Rattle.foreign_parts.specs.declared.boxes.BoxKind.TheVariants as kind;

use crate::counts::Counts;
use crate::fault::GraphFault;
use crate::walk::Walk;
use event_tree::Names;
use foreign_parts::{BoxKind, Boxes};
use plain_data::Text;

/// Tests the whole of a configuration, behind its statements: whether there are inputs and outputs, and
/// whether what they want is there.
pub(crate) fn check_whole<B: Boxes>(
    boxes: &B,
    workers: u64,
    inputs: u64,
    outside: &Names,
    filter_boxes: &Counts,
    outputs: &Walk,
) -> Result<(), GraphFault>
    ensures { Gives result (spec.whole_of (B.stand boxes.now kind.Filter)
        (B.stand boxes.now kind.Output) (addresses_of (B.links boxes.now)) workers
        inputs outside.now filter_boxes.now outputs.now) }
{
    if inputs == 0 {
        return Err(GraphFault::NoInput);
    }
    if outputs.plugins == 0 {
        return Err(GraphFault::NoOutput);
    }
    check_links(boxes, outside.as_slice())?;
    filter_boxes.check_spares(boxes, BoxKind::Filter, workers)?;
    outputs.boxes.check_spares(boxes, BoxKind::Output, 1)
}

// Sees whether there is a link for each address on which something outside sends.
fn check_links<B: Boxes>(boxes: &B, outside: &[Text]) -> Result<(), GraphFault>
    ensures { Gives result (spec.links_checked (addresses_of (B.links boxes.now)) outside.now) }
{
    for address in outside {
        if !boxes.knows_link(address.as_str()) {
            return Err(GraphFault::NoSpare(address.copy()?, 1, 0));
        }
    }
    Ok(())
}
