//! Reads or writes the JSON lines of a file over and over (bench/json_lines.sh).

use event_json::{read_json, write_json};
use event_tree::Value;
use std::alloc::Global;
use std::fs;

/// How many lines of a file are read, or how many bytes their values are written as, in so many rounds.
pub fn run(rt: &HostRuntime, words: &[String]) -> Option<u64> {
    let [call, rounds, path] = words else {
        return None;
    };
    let rounds = rounds.as_str().parse::<u32>().ok()?;
    let text = fs::read_to_string(rt, path.as_str()).ok()?;
    match call.as_str() {
        "read" => Some(reads(rt.alloc(), text.as_str(), rounds)),
        _ => writes(rt.alloc(), text.as_str(), rounds),
    }
}

/// How many lines are JSON texts, over all rounds.
fn reads(alloc: Global, text: &str, rounds: u32) -> u64 {
    let mut done = 0u64;
    for _ in 0..rounds {
        for line in text.lines() {
            if read_json(alloc, line.as_bytes()).is_ok() {
                done = done.wrapping_add(1);
            }
        }
    }
    done
}

/// How many bytes the values of the lines are written as, over all rounds.
fn writes(alloc: Global, text: &str, rounds: u32) -> Option<u64> {
    let values = values(alloc, text)?;
    let mut done = 0u64;
    let mut line = Vec::new(alloc);
    for _ in 0..rounds {
        for value in &values {
            line.clear();
            write_json(value, &mut line).ok()?;
            done = done.wrapping_add(line.len() as u64);
        }
    }
    Some(done)
}

fn values(alloc: Global, text: &str) -> Option<Vec<Value>> {
    let mut values = Vec::new(alloc);
    for line in text.lines() {
        let value = read_json(alloc, line.as_bytes()).ok()?;
        values.push(value).ok()?;
    }
    Some(values)
}
