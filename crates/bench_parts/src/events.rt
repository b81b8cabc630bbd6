//! Makes calls on an event of thirty fields (bench/events.sh).

use event_tree::{Event, Path, Text, Value};
use std::alloc::Global;

/// How many fields the event has.
const FIELDS: u8 = 30;

/// How many calls were made in so many rounds.
pub fn run(alloc: Global, words: &[String]) -> Option<u64> {
    let [call, rounds] = words else {
        return None;
    };
    let rounds = rounds.as_str().parse::<u32>().ok()?;
    made(alloc, call.as_str(), rounds)
}

fn made(alloc: Global, call: &str, rounds: u32) -> Option<u64> {
    let paths = paths(alloc)?;
    let mut event = event(alloc, &paths)?;
    match call {
        "get" => Some(gets(&event, &paths, rounds)),
        "put" => puts(alloc, &mut event, &paths, rounds),
        "take" => takes(&mut event, &paths, rounds),
        _ => copies(&event, rounds),
    }
}

/// The paths of the fields, of one and of two parts.
fn paths(alloc: Global) -> Option<Vec<Path>> {
    let mut paths = Vec::new(alloc);
    for i in 0..FIELDS {
        paths.push(path(alloc, i)?).ok()?;
    }
    Some(paths)
}

fn path(alloc: Global, i: u8) -> Option<Path> {
    let text = if i % 2 == 0 {
        format!(in alloc; "field{i:02}").ok()?
    } else {
        format!(in alloc; "[group][field{i:02}]").ok()?
    };
    Path::read(alloc, text.as_str()).ok()
}

fn event(alloc: Global, paths: &[Path]) -> Option<Event> {
    let mut event = Event::new(alloc);
    for path in paths {
        event.put(path, text(alloc)?).ok()?;
    }
    Some(event)
}

fn text(alloc: Global) -> Option<Value> {
    Some(Value::Text(Text::of(alloc, "a value of some bytes").ok()?))
}

fn gets(event: &Event, paths: &[Path], rounds: u32) -> u64 {
    let mut found = 0u64;
    for _ in 0..rounds {
        for path in paths {
            if event.get(path).is_some() {
                found = found.wrapping_add(1);
            }
        }
    }
    found
}

fn puts(alloc: Global, event: &mut Event, paths: &[Path], rounds: u32) -> Option<u64> {
    let mut done = 0u64;
    for _ in 0..rounds {
        for path in paths {
            event.put(path, text(alloc)?).ok()?;
            done = done.wrapping_add(1);
        }
    }
    Some(done)
}

/// Takes each value away and puts it back.
fn takes(event: &mut Event, paths: &[Path], rounds: u32) -> Option<u64> {
    let mut done = 0u64;
    for _ in 0..rounds {
        for path in paths {
            if let Some(value) = event.take(path) {
                event.put(path, value).ok()?;
                done = done.wrapping_add(1);
            }
        }
    }
    Some(done)
}

fn copies(event: &Event, rounds: u32) -> Option<u64> {
    let mut done = 0u64;
    for _ in 0..rounds {
        let _copy = event.copy().ok()?;
        done = done.wrapping_add(1);
    }
    Some(done)
}
