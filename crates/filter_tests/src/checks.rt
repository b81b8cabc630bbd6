//! First faults of configurations, and plans of them, with boxes that are handed in.

use crate::boxes::refusing;
use crate::plans::add_run;
use config_parse::parse;
use config_tree::Config;
use foreign_parts::{LinkTaker, Rack};
use graph_checks::{BoxPool, GraphFault, check, compile, give_back};
use pipeline_bus::Link;
use std::alloc::{AllocError, Global};

/// Adds the answer of a row: `BOXES and WORKERS: CONFIGURATION`. The boxes are written `filter NAME REFUSES` or
/// `output NAME REFUSES`, and links `link ADDRESS`, with commas between them.
pub fn add_answer(to: &mut String, row: &str, is_compiled: bool) -> Result<(), AllocError> {
    let (given, text) = row.split_once(": ").unwrap_or(("", row));
    match parse(*to.allocator(), text) {
        Ok(config) => add_checked(to, given, &config, is_compiled),
        Err(_) => to.push_str("no configuration"),
    }
}

/// Adds the first fault. Where the configuration is to be compiled, it adds too how many boxes named `tagger` are left
/// behind a refusal, or once the plan was given back, what comes of an event in each kit of a plan that is made then, the
/// links of that plan, and which links lie in the rack then.
///
/// The rack is made where it is used: what hands on boxes that it makes itself has no contract that says something.
fn add_checked(
    to: &mut String,
    given: &str,
    config: &Config,
    is_compiled: bool,
) -> Result<(), AllocError> {
    let alloc = *to.allocator();
    let (boxes, workers) = given.split_once(" and ").unwrap_or((given, "2"));
    let mut rack = Rack::new(alloc);
    for one in boxes.split(", ") {
        let (kind, name, refuses) = words_of(one);
        match kind {
            "filter" => rack.add_filter(name, refusing(alloc, refuses)?)?,
            "output" if name.len() <= 255 => rack.add_output(name, refusing(alloc, refuses)?)?,
            "link" if !rack.knows_link(name) => rack.add_link(name, taker_of_link(alloc)?)?,
            _ => {}
        }
    }
    let workers = workers.parse::<u32>().unwrap_or(2);
    if !is_compiled {
        return match check(alloc, config, &mut rack, workers) {
            Ok(()) => to.push_str("fine"),
            Err(fault) => write!(to, "{fault}"),
        };
    }
    match make_and_give_back(alloc, config.copy()?, &mut rack, workers) {
        Ok(()) => {}
        Err(fault) => write!(to, "{fault}; ")?,
    }
    write!(to, "{} left", rack.left("tagger"))?;
    match compile(alloc, config.copy()?, &mut rack, workers) {
        Ok(plan) => add_run(to, plan)?,
        Err(_) => {}
    }
    add_links_that_lie(to, boxes, &mut rack)
}

/// Makes a plan and gives it back.
fn make_and_give_back<B: BoxPool>(
    alloc: Global,
    config: Config,
    rack: &mut B,
    workers: u32,
) -> Result<(), GraphFault> {
    let plan = compile(alloc, config, rack, workers)?;
    give_back(plan, rack);
    Ok(())
}

/// The taking end of a link on which nothing is sent.
fn taker_of_link(alloc: Global) -> Result<LinkTaker, AllocError> {
    let (_sender, taker) = Link::pair(alloc)?;
    Ok(taker)
}

fn add_links_that_lie<B: BoxPool>(
    to: &mut String,
    boxes: &str,
    rack: &mut B,
) -> Result<(), AllocError> {
    let mut is_given = false;
    let mut lies = false;
    for one in boxes.split(", ") {
        let (kind, address, _) = words_of(one);
        if kind == "link" {
            is_given = true;
            if rack.take_link(address).is_some() {
                lies = true;
                write!(to, "; link {address} lies")?;
            }
        }
    }
    if is_given && !lies {
        to.push_str("; no link lies")?;
    }
    Ok(())
}

/// What a box is, its name, and the setting that it refuses.
fn words_of(one: &str) -> (&str, &str, &str) {
    let (kind, rest) = one.split_once(' ').unwrap_or((one, ""));
    let (name, refuses) = rest.split_once(' ').unwrap_or((rest, ""));
    (kind, name, refuses)
}
