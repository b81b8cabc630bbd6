// Compiling a configuration into a plan, with boxes drawn from a rack.
ghost use Rattle.std.specs.Prelude.{◌≡◌, IfOk, IfErr};
ghost use Rattle.foreign_parts.specs.declared.boxes.BoxKind.TheVariants as kind;
ghost use Rattle.graph_checks.specs.Answers.{Passes};
ghost use Rattle.graph_checks.specs.Boxes.{Keeps};
ghost use Rattle.graph_checks.specs.Drawings.{AllDrawn};
ghost use Rattle.graph_checks.specs.Drawns.{boxes_of};
ghost use Rattle.graph_checks.specs.Linked.{all_taken, links_there, outside_of};
ghost use Rattle.graph_checks.specs.Plans.{IsPlanOf, boxes_of_kits};
ghost use Rattle.graph_checks.specs.Readings.{IsRead};
ghost use Rattle.graph_checks.specs.Ready.{IsReadyFor};
ghost use Rattle.graph_checks.specs.Wants.{AreLeft, names_of};
ghost use Rattle.graph_checks.specs.Whole.{checked, given_by};

use crate::checking::find_wants;
use crate::drawing::{BoxRoom, draw_into, reserve_boxes};
use crate::drawn::{Drawn, DrawnBoxes};
use crate::draws::find_draws;
use crate::fault::GraphFault;
use crate::kit_boxes::hand_out;
use crate::kits::make_kits;
use crate::plan::Plan;
use crate::planned::{PlannedInput, PlannedOutputs, plan_inputs, plan_outputs};
use crate::want::Wants;
use built_plugins::Shared;
use config_tree::Config;
use foreign_parts::BoxPool;
use plain_data::{Items, Text};
use plugin_graph::{Graph, Kit};
use std::alloc::{AllocError, Global};

/// Makes a configuration ready to be run by so many workers, each of which has a kit of its own, with
/// boxes and links from the rack. The refusal is the first fault that `check` finds. `Memory` comes where memory
/// runs out, also in the place of another answer. All memory is taken before the first box is drawn, so a
/// refusal leaves the rack as it was.
///
/// A filter that is a box has one for each worker. They are drawn in the order of the text, of each
/// filter those of all workers, and behind the filters the outputs. Last come the links of the inputs on which
/// something outside sends, in the order of the text, of each address where its link lies in the rack.
pub fn compile<B: BoxPool>(
    alloc: Global,
    config: Config,
    rack: &mut B,
    workers: u32,
) -> Result<Plan<B::Filter, B::Output>, GraphFault>
    ensures fault { Passes result (checked
        (given_by B.stand B.links rack.old workers)
        config) }
    ensures keeps { IfErr result (λ _. Keeps B.stand B.links rack.old rack.new) }
    ensures plan { IfOk result (IsPlanOf B.output_number config workers) }
    ensures drawn { IfOk result (λ plan. AllDrawn (B.given rack.new)
        (boxes_of B.filter_number (boxes_of_kits plan.kits.items))
        (boxes_of B.output_number plan.outputs.items)
        (B.stand rack.old kind.Filter).stocks (B.stand rack.old kind.Output).stocks
        (B.stand rack.new kind.Filter).stocks (B.stand rack.new kind.Output).stocks) }
    ensures links { IfOk result (λ plan. plan.links.items
        ≡ links_there (outside_of config.inputs) (B.links rack.old)) }
    ensures taken { IfOk result (λ _. B.links rack.new
        ≡ all_taken (outside_of config.inputs) (B.links rack.old)) }
{
    let wants = find_wants(alloc, &config, rack, workers)?;
    let ready = prepare(alloc, &config, rack, wants, workers)?;
    let Ready {
        graph,
        inputs,
        outgoing,
        mut kits,
        draws,
        room,
    } = ready;
    let DrawnBoxes {
        filters,
        outputs,
        links,
    } = draw_into(room, rack);
    hand_out(&mut kits, filters);
    Ok(Plan {
        config,
        graph,
        inputs,
        outgoing,
        kits,
        outputs,
        draws,
        links,
    })
}

/// All of a plan but for its boxes and links, and room for these.
#[derive(Drop)]
pub(crate) struct Ready<F, O> {
    pub graph: Shared<Graph>,
    pub inputs: Items<PlannedInput>,
    pub outgoing: Shared<PlannedOutputs>,
    pub kits: Vec<Kit<Drawn<F>>>,
    pub draws: Items<(Text, u64)>,
    pub room: BoxRoom<F, O>,
}

// Takes all memory that a plan takes. No box is drawn.
fn prepare<B: BoxPool>(
    alloc: Global,
    config: &Config,
    rack: &B,
    wants: Wants,
    workers: u32,
) -> Result<Ready<B::Filter, B::Output>, AllocError>
    requires read { IsRead config.now }
    requires left { AreLeft (names_of wants.outputs) (B.stand rack.now kind.Output).stocks }
    ensures { IfOk result (IsReadyFor config.now workers
        (B.stand rack.now kind.Output).stocks wants) }
{
    let draws = find_draws(alloc, rack, wants.outputs.as_slice())?;
    let graph = Shared::new(alloc, Graph::new(alloc, config)?)?;
    let inputs = plan_inputs(alloc, config.inputs.as_slice())?;
    let outgoing = Shared::new(alloc, plan_outputs(alloc, config, draws.as_slice())?)?;
    let kits = make_kits(alloc, config, draws.as_slice(), workers)?;
    let room = reserve_boxes(alloc, wants, workers)?;
    Ok(Ready {
        graph,
        inputs,
        outgoing,
        kits,
        draws,
        room,
    })
}
