// Calls of a file input, of any store and any files, and without clauses on what they answer.
ghost use Rattle.std.specs.Prelude.{IsTrue, IfOk, OnOk};
ghost use Rattle.in_file.specs.Looks.{Keeps};
ghost use Rattle.in_file.specs.Positions.{IsReady};

use crate::events::{add_event, add_path};
use crate::words::{moment_of, number};
use in_file::{FileInput, FilePlan, OpenFault};
use in_lines::{Got, PollFault};
use io_traits::{Files, Store};
use std::alloc::AllocError;

/// The name of the watched file.
pub const PATH: &str = "logs/a.log";

/// The name of its position file.
pub const SLOT: &str = "in.pos";

/// Adds what the calls of runs answer, which stand between semicolons. Each run begins with an opening, and ends behind
/// the first call that doesn't go well.
pub fn add_runs<S: Store, F: Files>(
    to: &mut String,
    store: &mut S,
    files: &mut F,
    plan: FilePlan,
    runs: &str,
) -> Result<(), AllocError> {
    for run in runs.split(';') {
        match FileInput::open_on(*to.allocator(), store, files, PATH, SLOT, plan) {
            Ok(input) => add_run(to, store, files, input, run)?,
            Err(fault) => add_fault(to, fault)?,
        }
    }
    Ok(())
}

fn add_fault(to: &mut String, fault: OpenFault) -> Result<(), AllocError> {
    match fault {
        OpenFault::Store => to.push_str("store fault; "),
        OpenFault::Files => to.push_str("files fault; "),
        OpenFault::Damaged(damage) => {
            let (place, found, expected) = (damage.place, damage.found, damage.expected);
            let file = damage.file.as_str();
            write!(to, "{file} at {place}: {found}, not {expected}; ")
        }
        OpenFault::Memory => Err(AllocError),
    }
}

fn add_run<S: Store, F: Files>(
    to: &mut String,
    store: &mut S,
    files: &mut F,
    mut input: FileInput,
    calls: &str,
) -> Result<(), AllocError>
    requires { IsReady S.Store input store.old }
{
    write!(to, "from {}", input.behind())?;
    let mut polls = 0u64;
    for call in calls.split_whitespace() {
        if call == "p" || call == "P" {
            polls = polls.saturating_add(1);
        }
        if !add_call(to, store, files, &mut input, polls, call)? {
            break;
        }
    }
    to.push_str("; ")
}

// Adds what a call answers, and tells whether it went well.
#[tactic(auto, using(in_file::proofs::Staying::kept_ready))]
fn add_call<S: Store, F: Files>(
    to: &mut String,
    store: &mut S,
    files: &mut F,
    input: &mut FileInput,
    polls: u64,
    call: &str,
) -> Result<bool, AllocError>
    requires { IsReady S.Store input.old store.old }
    ensures { IfOk result (λ well. IsTrue well → IsReady S.Store input.new store.new) }
{
    let (call, place) = call.split_once(':').unwrap_or((call, ""));
    match call {
        "p" => add_poll(to, files, input, polls, true),
        "P" => add_poll(to, files, input, polls, false),
        "n" => add_next(to, input),
        "f" => add_next_path(to, input),
        "h" => {
            to.push_str(held_text(input.holds()))?;
            Ok(true)
        }
        "a" if place.is_empty() => {
            let place = input.behind();
            add_assured(to, store, input, place)
        }
        "a" => add_assured(to, store, input, number(place)),
        _ => {
            write!(to, ", {} of {}", input.position(), input.behind())?;
            Ok(true)
        }
    }
}

fn add_poll<F: Files>(
    to: &mut String,
    files: &mut F,
    input: &mut FileInput,
    polls: u64,
    shows: bool,
) -> Result<bool, AllocError>
    ensures { IfOk result (λ well. IsTrue well → Keeps input.old input.new) }
{
    match input.poll(files, moment_of(polls)) {
        Ok(got) => {
            if shows {
                to.push_str(text_of(got))?;
            }
            Ok(true)
        }
        Err(PollFault::Fault) => {
            to.push_str(", fault")?;
            Ok(false)
        }
        Err(PollFault::Memory) => Err(AllocError),
    }
}

fn text_of(got: Got) -> &'static str {
    match got {
        Got::Lines => ", lines",
        Got::NotYet => ", not yet",
        Got::End => ", end",
    }
}

fn add_next(to: &mut String, input: &mut FileInput) -> Result<bool, AllocError>
    ensures { IfOk result (λ well. IsTrue well → Keeps input.old input.new) }
{
    to.push_str(", ")?;
    match input.next()? {
        Some(event) => add_event(to, &event)?,
        None => to.push_str("none")?,
    }
    Ok(true)
}

// Adds where the next event came from.
fn add_next_path(to: &mut String, input: &mut FileInput) -> Result<bool, AllocError>
    ensures { IfOk result (λ well. IsTrue well → Keeps input.old input.new) }
{
    to.push_str(", ")?;
    match input.next()? {
        Some(event) => add_path(to, &event)?,
        None => to.push_str("none")?,
    }
    Ok(true)
}

fn held_text(holds: bool) -> &'static str {
    if holds { ", held" } else { ", none held" }
}

fn add_assured<S: Store>(
    to: &mut String,
    store: &mut S,
    input: &mut FileInput,
    place: u64,
) -> Result<bool, AllocError>
    requires { IsReady S.Store input.old store.old }
    ensures { IfOk result (λ well. IsTrue well → IsReady S.Store input.new store.new) }
{
    match input.assure(store, place) {
        Ok(()) => {
            to.push_str(", assured")?;
            Ok(true)
        }
        Err(_) => {
            to.push_str(", not assured")?;
            Ok(false)
        }
    }
}
