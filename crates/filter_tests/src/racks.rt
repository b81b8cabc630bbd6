//! A rack of two filters and an output of one name, and of an output of another.

use crate::boxes::refusing;
use event_tree::Event;
use foreign_parts::{Delivery, Rack, Verdict};
use std::alloc::{AllocError, Global};

/// Whether the boxes of a rack are counted by their names, and then numbered, drawn, asked and closed.
pub fn answer(alloc: Global) -> Result<&'static str, AllocError> {
    let mut rack = Rack::new(alloc);
    rack.add_filter("a", refusing(alloc, "")?)?;
    rack.add_output("a", refusing(alloc, "")?)?;
    rack.add_filter("a", refusing(alloc, "")?)?;
    rack.add_output("b", refusing(alloc, "")?)?;
    let counted = is_counted(&rack);
    let Some(mut first) = rack.draw_filter("a") else {
        return Ok("no filter");
    };
    let verdict = first.filter.apply(&Event::new(alloc))?;
    first.filter.close();
    let asked = first.number == 2 && is_one(&verdict) && rack.left("a") == 2;
    let Some(mut second) = rack.draw_output("b") else {
        return Ok("no output");
    };
    let events = [Event::new(alloc)];
    let later = matches!(second.output.deliver(&events), Ok(Delivery::Later));
    let drawn = second.number == 3 && rack.outputs_left("b") == 0 && later;
    Ok(if counted && asked && drawn {
        "counted, asked and drawn"
    } else {
        "otherwise"
    })
}

fn is_counted(rack: &Rack) -> bool {
    let all = (
        rack.left("a"),
        rack.filters_left("a"),
        rack.outputs_left("a"),
    );
    all == (3, 2, 1) && rack.knows_output("b") && !rack.knows_filter("b")
}

fn is_one(verdict: &Verdict) -> bool {
    verdict.matched && verdict.events.len() == 1
}
