// The checks of a whole configuration, which end at its first fault.
ghost use Rattle.std.specs.Prelude.{IfOk};
ghost use Rattle.graph_checks.specs.Answers.{Gives, Passes};
ghost use Rattle.graph_checks.specs.Boxes.{Keeps};
ghost use Rattle.graph_checks.specs.Wants.{IsWanted};
ghost use Rattle.graph_checks.specs.Whole.{checked, given_by};

use crate::fault::GraphFault;
use crate::inputs::{SeenInputs, check_inputs};
use crate::walk::{Walk, check_section};
use crate::want::Wants;
use crate::whole::check_whole;
use config_tree::Config;
use foreign_parts::{BoxKind, Boxes};
use std::alloc::Global;

/// Sees whether a configuration may be run with these boxes by so many workers, each of which has boxed
/// filters of its own. The answer is the first fault: that of the first statement in the order of the text
/// (inputs, filters, outputs), and else that of the whole.
///
/// Of a statement its name is tested first, then its settings in the order of the text, its id, its path,
/// its address, that it is the one `stdin`, and the length of its path. A plugin that is a box has
/// the settings that every plugin has tested first, and then each of the boxes that it would be given reads
/// them, the one that was handed in last first. Whether there are enough is seen at the end.
///
/// `Memory` comes where memory runs out, also in the place of another answer. No box is taken. It takes time
/// in proportion to the text, and for each plugin that is a box a look at the names in the rack.
pub fn check<B: Boxes>(
    alloc: Global,
    config: &Config,
    boxes: &mut B,
    workers: u32,
) -> Result<(), GraphFault>
    ensures fault { Gives result (checked
        (given_by B.stand B.links boxes.old workers)
        config.now) }
    ensures keeps { Keeps B.stand B.links boxes.old boxes.new }
{
    match find_wants(alloc, config, boxes, workers) {
        Ok(_wants) => Ok(()),
        Err(fault) => Err(fault),
    }
}

/// The same, and where there is no fault what the configuration wants of the rack.
#[tactic(auto, unfolding(crate::specs::Whole::checked))]
pub(crate) fn find_wants<B: Boxes>(
    alloc: Global,
    config: &Config,
    boxes: &mut B,
    workers: u32,
) -> Result<Wants, GraphFault>
    ensures fault { Passes result (checked
        (given_by B.stand B.links boxes.old workers)
        config.now) }
    ensures wants { IfOk result (IsWanted
        (given_by B.stand B.links boxes.old workers)
        config.now) }
    ensures keeps { Keeps B.stand B.links boxes.old boxes.new }
{
    let SeenInputs {
        inputs,
        ids,
        outside,
        ..
    } = check_inputs(alloc, config.inputs.as_slice())?;
    let each = workers as u64;
    let filters = config.filters.as_slice();
    let filters = check_section(alloc, BoxKind::Filter, each, ids, filters, boxes)?;
    let Walk {
        boxes: filter_boxes,
        wants: filter_wants,
        ids,
        ..
    } = filters;
    let outputs = config.outputs.as_slice();
    let outputs = check_section(alloc, BoxKind::Output, 1, ids, outputs, boxes)?;
    check_whole(boxes, each, inputs, &outside, &filter_boxes, &outputs)?;
    let Walk { wants, .. } = outputs;
    Ok(Wants {
        filters: filter_wants,
        outputs: wants,
        links: outside,
    })
}
