//! Does one thing with copies of events, over and over (bench/filters.sh, bench/parsing.sh, bench/graphs.sh).

use crate::batches::{Prepared, condition, copies, prepare, sent};
use crate::by_hand::ByHand;
use crate::events::event_of;
use crate::rows::plugin_of;
use built_plugins::{BuiltFilter, CompiledCondition};
use event_tree::{Event, Events, Number, Path, Text, Value};
use filter_settings::Applied;
use std::alloc::Global;
use std::fs;

/// What is done to the copy of an event.
enum Work {
    Copy,
    /// Six calls at these places.
    Calls(Vec<Path>),
    Filter(BuiltFilter),
    Condition(CompiledCondition),
    /// A configuration's filters and conditions, without a graph.
    ByHand(ByHand),
    /// A whole configuration, for batches.
    Batches(Prepared),
}

// Written out, so that it is one call wherever an error is handed on.
impl Drop for Work {
    fn drop(self) {
        match self {
            Work::Copy => {}
            Work::Calls(_places) => {}
            Work::Filter(_filter) => {}
            Work::Condition(_condition) => {}
            Work::ByHand(_by_hand) => {}
            Work::Batches(_prepared) => {}
        }
    }
}

/// How many events came out in so many rounds, in which each event of a file (JSON, one a line) is copied and the
/// filter applied to the copy. With `copies` in the place of the filter it is copied alone, and with `calls` six calls
/// are made on the copy; with `if` and a condition in front of an empty block the condition is tested, and with `filter` and
/// a whole configuration behind it the copies go through that in batches; with six lines they meet the conditions and filters that
/// these are (`ByHand`). A fourth word is the number of copies that are made, worked on and dropped together. `None` where the words are not these, or a file can't be read.
pub fn run(rt: &HostRuntime, words: &[String]) -> Option<u64> {
    let [what, file, rounds, rest @ ..] = words else {
        return None;
    };
    let rounds = rounds.as_str().parse::<u32>().ok()?;
    let batch = batch_of(rest)?;
    let text = fs::read_to_string(rt, file.as_str()).ok()?;
    let events = events(rt.alloc(), text.as_str())?;
    let mut work = work_of(rt.alloc(), what.as_str())?;
    all_done(rt.alloc(), &mut work, &events, rounds, batch)
}

/// How many events are held at a time.
fn batch_of(words: &[String]) -> Option<usize> {
    match words {
        [] => Some(1),
        [size, ..] => size.as_str().parse::<usize>().ok(),
    }
}

fn events(alloc: Global, text: &str) -> Option<Vec<Event>> {
    let mut events = Vec::new(alloc);
    for line in text.lines() {
        events.push(event_of(alloc, line).ok()?).ok()?;
    }
    Some(events)
}

fn work_of(alloc: Global, what: &str) -> Option<Work> {
    match what {
        "copies" => Some(Work::Copy),
        "calls" => places(alloc).map(Work::Calls),
        text => other_work(alloc, text),
    }
}

fn other_work(alloc: Global, text: &str) -> Option<Work> {
    if text.lines().count() == 6 {
        return ByHand::read(alloc, text).map(Work::ByHand);
    }
    if text.starts_with("if ") {
        return condition(alloc, text).map(Work::Condition);
    }
    if text.starts_with("filter ") {
        return prepare(alloc, text).map(Work::Batches);
    }
    filter_of(alloc, text).map(Work::Filter)
}

/// The filter of this text.
pub fn filter_of(alloc: Global, text: &str) -> Option<BuiltFilter> {
    let plugin = plugin_of(alloc, text).ok()??;
    BuiltFilter::from_plugin(&plugin).ok()?
}

/// Where the six calls are made: those of `rename` (from one place to the next), `update`, `replace`, `convert`, `merge`
/// and `copy`.
const PLACES: [&str; 7] = [
    "field00", "fresh", "field02", "field04", "field06", "field08", "copied",
];

fn places(alloc: Global) -> Option<Vec<Path>> {
    let mut places = Vec::new(alloc);
    for place in &PLACES {
        places.push(Path::read(alloc, place).ok()?).ok()?;
    }
    Some(places)
}

fn all_done(
    alloc: Global,
    work: &mut Work,
    events: &[Event],
    rounds: u32,
    batch: usize,
) -> Option<u64> {
    let mut done = 0u64;
    for _ in 0..rounds {
        for some in events.chunks(batch.max(1)) {
            done = done.wrapping_add(batch_done(alloc, work, some)?);
        }
    }
    Some(done)
}

/// How many events come out of copies of these.
fn batch_done(alloc: Global, work: &mut Work, events: &[Event]) -> Option<u64> {
    let copies = copies(alloc, events).ok()?;
    if let Work::Batches(prepared) = work {
        return sent(alloc, prepared, copies).ok();
    }
    let mut done = Events::with_capacity(alloc, events.len()).ok()?;
    for event in copies.into_vec() {
        one_done(alloc, work, event, &mut done)?;
    }
    Some(done.len() as u64)
}

/// Adds the events that come out of one.
fn one_done(alloc: Global, work: &mut Work, event: Event, done: &mut Events) -> Option<()> {
    let mut event = event;
    match work {
        Work::Copy | Work::Batches(_) => {}
        Work::Calls(places) => called(alloc, places.as_slice(), &mut event)?,
        Work::Filter(filter) => return applied(filter, event, done),
        Work::ByHand(by_hand) => return by_hand.meet(event, done),
        Work::Condition(condition) => tested(condition, &event)?,
    }
    done.push(event).ok()
}

fn tested(condition: &mut CompiledCondition, event: &Event) -> Option<()> {
    condition.test(event).ok()?;
    Some(())
}

fn applied(filter: &mut BuiltFilter, event: Event, done: &mut Events) -> Option<()> {
    let Applied { events, .. } = filter.apply(event).ok()?;
    done.append(events).ok()
}

fn called(alloc: Global, places: &[Path], event: &mut Event) -> Option<()> {
    let [renamed, fresh, updated, replaced, number, list, copied] = places else {
        return None;
    };
    event.rename(renamed, fresh).ok()?;
    if event.get(updated).is_some() {
        put_text(alloc, event, updated)?;
    }
    put_text(alloc, event, replaced)?;
    convert(event, number)?;
    let added = event.get(updated)?.copy().ok()?;
    event.append(list, added).ok()?;
    let copy = event.get(updated)?.copy().ok()?;
    event.put(copied, copy).ok()
}

fn put_text(alloc: Global, event: &mut Event, at: &Path) -> Option<()> {
    let text = Text::of(alloc, "a value of some bytes").ok()?;
    event.put(at, Value::Text(text)).ok()
}

fn convert(event: &mut Event, at: &Path) -> Option<()> {
    let number = event.get(at).and_then(number_in)?;
    event.put(at, Value::Num(number)).ok()
}

fn number_in(value: &Value) -> Option<Number> {
    match value {
        Value::Text(text) => Number::read(text.as_str()),
        _ => None,
    }
}
