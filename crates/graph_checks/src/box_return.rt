// Giving the boxes and links of a plan back to their rack.
ghost use Rattle.std.specs.Prelude.{◌≡◌, ◌<◌, ℕ, slice_get};
ghost use Rattle.foreign_parts.specs.Stocks.{IsOut};
ghost use Rattle.foreign_parts.specs.declared.boxes.BoxKind.TheVariants as kind;
ghost use Rattle.graph_checks.specs.Drawings.{AllMayGoBack, MayGoBack, all_back};
ghost use Rattle.graph_checks.specs.Drawns.{boxes_of};
ghost use Rattle.graph_checks.specs.Linked.{LinksMayGoBack, links_back};
ghost use Rattle.graph_checks.specs.Plans.{boxes_of_kits, column, held, rows};
ghost use Rattle.plugin_graph.specs.Graphs.{boxes_in};

use crate::drawn::Drawn;
use crate::kit_boxes::most_filters;
use crate::plan::Plan;
use foreign_parts::{BoxPool, LinkTaker};
use plain_data::Text;
use plugin_graph::Kit;

/// Gives the boxes and links of a plan back to the rack that they were drawn from: of boxes, and of links, what was
/// drawn last goes back first, so the rack has what it had before `compile`, in its order. It takes no memory.
pub fn give_back<B: BoxPool>(plan: Plan<B::Filter, B::Output>, rack: &mut B)
    requires boxes { AllMayGoBack (B.given rack.old)
        (boxes_of B.filter_number (boxes_of_kits plan.kits.items))
        (boxes_of B.output_number plan.outputs.items)
        (B.stand rack.old kind.Filter).stocks (B.stand rack.old kind.Output).stocks }
    requires links { LinksMayGoBack plan.links.items (B.links rack.old) }
    ensures filters { (B.stand rack.new kind.Filter).stocks
        ≡ all_back (boxes_of B.filter_number (boxes_of_kits plan.kits.items))
        (B.stand rack.old kind.Filter).stocks }
    ensures outputs { (B.stand rack.new kind.Output).stocks
        ≡ all_back (boxes_of B.output_number plan.outputs.items)
        (B.stand rack.old kind.Output).stocks }
    ensures links { B.links rack.new ≡ links_back plan.links.items (B.links rack.old) }
    ensures given { B.given rack.new ≡ B.given rack.old }
{
    let Plan {
        kits,
        outputs,
        links,
        ..
    } = plan;
    give_back_outputs(rack, outputs);
    give_back_kits(rack, kits);
    give_back_links(rack, links);
}

fn give_back_links<B: BoxPool>(rack: &mut B, links: Vec<(Text, LinkTaker)>)
    requires { LinksMayGoBack links.items (B.links rack.old) }
    ensures links { B.links rack.new ≡ links_back links.items (B.links rack.old) }
    ensures filters { (B.stand rack.new kind.Filter).stocks
        ≡ (B.stand rack.old kind.Filter).stocks }
    ensures outputs { (B.stand rack.new kind.Output).stocks
        ≡ (B.stand rack.old kind.Output).stocks }
    ensures given { B.given rack.new ≡ B.given rack.old }
{
    let mut left = links;
    while let Some((address, taker)) = left.pop() {
        rack.return_link(address.as_str(), taker);
    }
}

fn give_back_outputs<B: BoxPool>(rack: &mut B, boxes: Vec<Drawn<B::Output>>)
    requires { MayGoBack
        (λ ss n. IsOut (B.given rack.old) (B.stand rack.old kind.Filter).stocks ss n)
        (boxes_of B.output_number boxes.items) (B.stand rack.old kind.Output).stocks }
    ensures outputs { (B.stand rack.new kind.Output).stocks
        ≡ all_back (boxes_of B.output_number boxes.items) (B.stand rack.old kind.Output).stocks }
    ensures filters { (B.stand rack.new kind.Filter).stocks
        ≡ (B.stand rack.old kind.Filter).stocks }
    ensures links { B.links rack.new ≡ B.links rack.old }
    ensures given { B.given rack.new ≡ B.given rack.old }
{
    let mut left = boxes;
    while let Some(drawn) = left.pop() {
        let Drawn { want, plugged } = drawn;
        rack.return_output(want.name.as_str(), plugged);
    }
}

fn give_back_kits<B: BoxPool>(rack: &mut B, kits: Vec<Kit<Drawn<B::Filter>>>)
    requires { MayGoBack
        (λ ss n. IsOut (B.given rack.old) ss (B.stand rack.old kind.Output).stocks n)
        (boxes_of B.filter_number (boxes_of_kits kits.items)) (B.stand rack.old kind.Filter).stocks }
    ensures filters { (B.stand rack.new kind.Filter).stocks
        ≡ all_back (boxes_of B.filter_number (boxes_of_kits kits.items))
        (B.stand rack.old kind.Filter).stocks }
    ensures outputs { (B.stand rack.new kind.Output).stocks
        ≡ (B.stand rack.old kind.Output).stocks }
    ensures links { B.links rack.new ≡ B.links rack.old }
    ensures given { B.given rack.new ≡ B.given rack.old }
{
    let mut kits = kits;
    let mut at = most_filters(kits.as_slice());
    while at > 0 {
        at -= 1;
        give_back_column(rack, &mut kits, at);
    }
}

// Gives back the boxes of the filter of a number, that of the last kit first.
fn give_back_column<B: BoxPool>(rack: &mut B, kits: &mut Vec<Kit<Drawn<B::Filter>>>, at: usize)
    requires { MayGoBack
        (λ ss n. IsOut (B.given rack.old) ss (B.stand rack.old kind.Output).stocks n)
        (boxes_of B.filter_number (column at (rows kits.old.items)))
        (B.stand rack.old kind.Filter).stocks }
    ensures filters { (B.stand rack.new kind.Filter).stocks
        ≡ all_back (boxes_of B.filter_number (column at (rows kits.old.items)))
        (B.stand rack.old kind.Filter).stocks }
    ensures outputs { (B.stand rack.new kind.Output).stocks
        ≡ (B.stand rack.old kind.Output).stocks }
    ensures links { B.links rack.new ≡ B.links rack.old }
    ensures given { B.given rack.new ≡ B.given rack.old }
    ensures before { (k : ℕ) → k < at
        → column k (rows kits.new.items) ≡ column k (rows kits.old.items) }
{
    let mut next = kits.len();
    while next > 0 {
        next -= 1;
        give_back_one(rack, &mut kits[next], at);
    }
}

fn give_back_one<B: BoxPool>(rack: &mut B, kit: &mut Kit<Drawn<B::Filter>>, at: usize)
    requires { MayGoBack
        (λ ss n. IsOut (B.given rack.old) ss (B.stand rack.old kind.Output).stocks n)
        (boxes_of B.filter_number (held (slice_get (boxes_in kit.old) at)))
        (B.stand rack.old kind.Filter).stocks }
    ensures filters { (B.stand rack.new kind.Filter).stocks
        ≡ all_back (boxes_of B.filter_number (held (slice_get (boxes_in kit.old) at)))
        (B.stand rack.old kind.Filter).stocks }
    ensures outputs { (B.stand rack.new kind.Output).stocks
        ≡ (B.stand rack.old kind.Output).stocks }
    ensures links { B.links rack.new ≡ B.links rack.old }
    ensures given { B.given rack.new ≡ B.given rack.old }
    ensures before { (k : ℕ) → k < at
        → slice_get (boxes_in kit.new) k ≡ slice_get (boxes_in kit.old) k }
{
    if at >= kit.filters() {
        return;
    }
    match kit.replace_box(at, None) {
        Some(drawn) => {
            let Drawn { want, plugged } = drawn;
            rack.return_filter(want.name.as_str(), plugged);
        }
        None => {}
    }
}
