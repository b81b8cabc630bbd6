// Drawing the boxes and links of a configuration from a rack.
ghost use Rattle.std.specs.Prelude.{◌≡◌, ◌≤◌, ◌++◌, [], length, map, vec_capacity, replicate, IfOk, OnOk};
ghost use Rattle.foreign_parts.specs.Stocks.{IsOut};
ghost use Rattle.foreign_parts.specs.declared.boxes.BoxKind.TheVariants as kind;
ghost use Rattle.graph_checks.specs.Drawings.{AllDrawn, AreDrawn};
ghost use Rattle.graph_checks.specs.Drawns.{boxes_of, filter_boxes, output_boxes};
ghost use Rattle.graph_checks.specs.Linked.{all_taken, links_there};
ghost use Rattle.graph_checks.specs.Wants.{AreLeft, names_of, so_often};

use crate::drawn::{Drawn, DrawnBoxes};
use crate::want::{Want, Wants};
use event_tree::Names;
use foreign_parts::{BoxPool, LinkTaker};
use plain_data::{Items, Text};
use std::alloc::{AllocError, Global};

/// Room for boxes and links, with the plugins and addresses for which they are to be drawn.
#[derive(Drop)]
pub(crate) struct BoxRoom<F, O> {
    pub filters: Items<Want>,
    pub outputs: Items<Want>,
    pub links: Names,
    filter_room: Vec<Drawn<F>>,
    output_room: Vec<Drawn<O>>,
    link_room: Vec<(Text, LinkTaker)>,
    ghost no_filter: { filter_room.items ≡ [] },
    ghost filters_fit: { length filters ≤ vec_capacity filter_room },
    ghost no_output: { output_room.items ≡ [] },
    ghost outputs_fit: { length outputs ≤ vec_capacity output_room },
    ghost no_link: { link_room.items ≡ [] },
    ghost links_fit: { length links ≤ vec_capacity link_room },
}

/// Takes the memory for these boxes and links: of each filter so many, and of each output and address one.
pub(crate) fn reserve_boxes<F: Drop, O: Drop>(
    alloc: Global,
    wants: Wants,
    workers: u32,
) -> Result<BoxRoom<F, O>, AllocError>
    ensures filters { IfOk result (λ room. room.filters ≡ so_often workers wants.filters) }
    ensures outputs { IfOk result (λ room. room.outputs ≡ wants.outputs) }
    ensures links { IfOk result (λ room. room.links ≡ wants.links) }
{
    let Wants {
        filters,
        outputs,
        links,
    } = wants;
    let filters = repeated(alloc, filters.as_slice(), workers)?;
    let filter_room = Vec::with_capacity(alloc, filters.len())?;
    let output_room = Vec::with_capacity(alloc, outputs.len())?;
    let link_room = Vec::with_capacity(alloc, links.len())?;
    Ok(BoxRoom {
        filters,
        outputs,
        links,
        filter_room,
        output_room,
        link_room,
    })
}

/// Draws the boxes for which there is room: first the filters, then the outputs, and then the links.
pub(crate) fn draw_into<B: BoxPool>(
    room: BoxRoom<B::Filter, B::Output>,
    rack: &mut B,
) -> DrawnBoxes<B::Filter, B::Output>
    requires filters { AreLeft (names_of room.filters) (B.stand rack.old kind.Filter).stocks }
    requires outputs { AreLeft (names_of room.outputs) (B.stand rack.old kind.Output).stocks }
    ensures filters { map (λ d. d.want) result.filters.items ≡ room.filters }
    ensures outputs { map (λ d. d.want) result.outputs.items ≡ room.outputs }
    ensures drawn { AllDrawn (B.given rack.new)
        (filter_boxes B.filter_number result) (output_boxes B.output_number result)
        (B.stand rack.old kind.Filter).stocks (B.stand rack.old kind.Output).stocks
        (B.stand rack.new kind.Filter).stocks (B.stand rack.new kind.Output).stocks }
    ensures links { result.links.items ≡ links_there room.links (B.links rack.old) }
    ensures taken { B.links rack.new ≡ all_taken room.links (B.links rack.old) }
{
    let BoxRoom {
        filters,
        outputs,
        links,
        filter_room,
        output_room,
        link_room,
    } = room;
    let filters = draw_filters(rack, filters, filter_room);
    let outputs = draw_outputs(rack, outputs, output_room);
    let links = draw_links(rack, links, link_room);
    DrawnBoxes {
        filters,
        outputs,
        links,
    }
}

// Each of them so often.
fn repeated(alloc: Global, wants: &[Want], count: u32) -> Result<Items<Want>, AllocError>
    ensures { IfOk result (λ found. found ≡ so_often count wants.now) }
{
    let mut found = Items::new(alloc);
    for want in wants {
        add_copies(want, count, &mut found)?;
    }
    Ok(found)
}

fn add_copies(want: &Want, count: u32, to: &mut Items<Want>) -> Result<(), AllocError>
    ensures { OnOk result (to.new ≡ to.old ++ replicate count want.now) }
{
    for _ in 0..count {
        to.push(want.copy()?)?;
    }
    Ok(())
}

// Draws filters of these names, one after another, into a list that has room for them.
fn draw_filters<B: BoxPool>(
    rack: &mut B,
    wants: Items<Want>,
    room: Vec<Drawn<B::Filter>>,
) -> Vec<Drawn<B::Filter>>
    requires left { AreLeft (names_of wants) (B.stand rack.old kind.Filter).stocks }
    requires empty { room.items ≡ [] }
    requires room { length wants ≤ vec_capacity room }
    ensures wants { map (λ d. d.want) result.items ≡ wants }
    ensures drawn { AreDrawn
        (λ ss n. IsOut (B.given rack.old) ss (B.stand rack.old kind.Output).stocks n)
        (boxes_of B.filter_number result.items)
        (B.stand rack.old kind.Filter).stocks (B.stand rack.new kind.Filter).stocks }
    ensures outputs { (B.stand rack.new kind.Output).stocks
        ≡ (B.stand rack.old kind.Output).stocks }
    ensures links { B.links rack.new ≡ B.links rack.old }
    ensures given { B.given rack.new ≡ B.given rack.old }
{
    let mut drawn = room;
    for want in wants.into_vec() {
        match rack.take_filter(want.name.as_str()) {
            Some(plugged) => drawn.push_reserved(Drawn { want, plugged }),
            None => unreachable!(),
        }
    }
    drawn
}

// Draws outputs of these names in the same way.
fn draw_outputs<B: BoxPool>(
    rack: &mut B,
    wants: Items<Want>,
    room: Vec<Drawn<B::Output>>,
) -> Vec<Drawn<B::Output>>
    requires left { AreLeft (names_of wants) (B.stand rack.old kind.Output).stocks }
    requires empty { room.items ≡ [] }
    requires room { length wants ≤ vec_capacity room }
    ensures wants { map (λ d. d.want) result.items ≡ wants }
    ensures drawn { AreDrawn
        (λ ss n. IsOut (B.given rack.old) (B.stand rack.old kind.Filter).stocks ss n)
        (boxes_of B.output_number result.items)
        (B.stand rack.old kind.Output).stocks (B.stand rack.new kind.Output).stocks }
    ensures filters { (B.stand rack.new kind.Filter).stocks
        ≡ (B.stand rack.old kind.Filter).stocks }
    ensures links { B.links rack.new ≡ B.links rack.old }
    ensures given { B.given rack.new ≡ B.given rack.old }
{
    let mut drawn = room;
    for want in wants.into_vec() {
        match rack.take_output(want.name.as_str()) {
            Some(plugged) => drawn.push_reserved(Drawn { want, plugged }),
            None => unreachable!(),
        }
    }
    drawn
}

// Takes the links of these addresses that lie in the rack, into a list that has room for them.
fn draw_links<B: BoxPool>(
    rack: &mut B,
    addresses: Names,
    room: Vec<(Text, LinkTaker)>,
) -> Vec<(Text, LinkTaker)>
    requires empty { room.items ≡ [] }
    requires room { length addresses ≤ vec_capacity room }
    ensures links { result.items ≡ links_there addresses (B.links rack.old) }
    ensures taken { B.links rack.new ≡ all_taken addresses (B.links rack.old) }
    ensures filters { (B.stand rack.new kind.Filter).stocks
        ≡ (B.stand rack.old kind.Filter).stocks }
    ensures outputs { (B.stand rack.new kind.Output).stocks
        ≡ (B.stand rack.old kind.Output).stocks }
    ensures given { B.given rack.new ≡ B.given rack.old }
{
    let mut taken = room;
    for address in addresses.into_vec() {
        match rack.take_link(address.as_str()) {
            Some(taker) => taken.push_reserved((address, taker)),
            None => {}
        }
    }
    taken
}
