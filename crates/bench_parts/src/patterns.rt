//! Searches lines with a pattern, or makes, searches and drops many patterns (bench/patterns.sh).

use pattern_box::Pattern;
use std::alloc::Global;
use std::fs;

/// How many spans were found in lines, or how many patterns that were made found something.
pub fn run(rt: &HostRuntime, words: &[String]) -> Option<u64> {
    let [call, file, given] = words else {
        return None;
    };
    let text = fs::read_to_string(rt, file.as_str()).ok()?;
    if call.as_str() == "search" {
        let lines = fs::read_to_string(rt, given.as_str()).ok()?;
        return search(rt.alloc(), text.trim_end(), lines.as_str());
    }
    let count = given.as_str().parse::<u32>().ok()?;
    make(rt.alloc(), text.trim_end(), count)
}

/// How many spans the groups of all matches have, one search for each line.
fn search(alloc: Global, text: &str, lines: &str) -> Option<u64> {
    let mut pattern = Pattern::new(alloc, text).ok()?;
    let mut found = 0u64;
    for line in lines.lines() {
        if let Some(spans) = pattern.spans(line).ok()? {
            for span in spans.as_slice() {
                if span.is_some() {
                    found = found.wrapping_add(1);
                }
            }
        }
    }
    Some(found)
}

/// Makes a pattern so many times, with one search each, and drops it.
fn make(alloc: Global, text: &str, count: u32) -> Option<u64> {
    let mut found = 0u64;
    for _ in 0..count {
        let mut pattern = Pattern::new(alloc, text).ok()?;
        if pattern.spans(text).ok()?.is_some() {
            found = found.wrapping_add(1);
        }
    }
    Some(found)
}
