// The numbers of the boxes that are drawn next for outputs.
ghost use Rattle.std.specs.Prelude.{◌≡◌, ◌<◌, [], ◌++◌, ◌∷◌, length, IfOk, OnOk};
ghost use Rattle.foreign_parts.specs.Stocks.{left_of};
ghost use Rattle.foreign_parts.specs.declared.boxes.BoxKind.TheVariants as kind;
ghost use Rattle.graph_checks.specs.Numbering as spec;
ghost use Rattle.graph_checks.specs.Wants.{AreLeft, names_of};

use crate::counts::Counts;
use crate::want::Want;
use foreign_parts::{BoxKind, BoxPool};
use plain_data::{Items, Text};
use std::alloc::{AllocError, Global};

/// The numbers of the boxes that are drawn next for outputs, by the ids of these. None is drawn.
pub(crate) fn find_draws<B: BoxPool>(
    alloc: Global,
    rack: &B,
    wants: &[Want],
) -> Result<Items<(Text, u64)>, AllocError>
    requires { AreLeft (names_of wants.now) (B.stand rack.now kind.Output).stocks }
    ensures { IfOk result (λ draws. draws
        ≡ spec.draws_behind [] wants.now (B.stand rack.now kind.Output).stocks) }
{
    let mut met = Counts::new(alloc);
    let mut draws = Items::new(alloc);
    for want in wants {
        let number = next_number(rack, &want.name, met.count(&want.name));
        met.raise(&want.name)?;
        add_draw(&want.id, number, &mut draws)?;
    }
    Ok(draws)
}

fn add_draw(id: &Text, number: u64, to: &mut Items<(Text, u64)>) -> Result<(), AllocError>
    ensures { OnOk result (to.new ≡ to.old ++ (id.now, number) ∷ []) }
{
    to.push((id.copy()?, number))
}

// The number of the output of a name that is drawn once so many of it were.
fn next_number<B: BoxPool>(rack: &B, name: &Text, before: u64) -> u64
    requires { before < length (left_of name.now (B.stand rack.now kind.Output).stocks) }
    ensures { result ≡ spec.number_behind before
        (left_of name.now (B.stand rack.now kind.Output).stocks) }
{
    let left = rack.left(BoxKind::Output, name.as_str());
    let at = left - 1 - before as usize;
    rack.output_number_at(name.as_str(), at)
}
