//! Reads the text of a file as a template several times over (bench/growth.sh).

use event_text::Template;
use std::alloc::Global;
use std::fs;

/// How many templates were read.
pub fn run(rt: &HostRuntime, words: &[String]) -> Option<u64> {
    let [times, file] = words else {
        return None;
    };
    let times = times.as_str().parse::<u32>().ok()?;
    let text = fs::read_to_string(rt, file.as_str()).ok()?;
    templates(rt.alloc(), text.as_str(), times)
}

fn templates(alloc: Global, text: &str, times: u32) -> Option<u64> {
    let mut done = 0u64;
    for _ in 0..times {
        Template::read(alloc, text).ok()?;
        done = done.wrapping_add(1);
    }
    Some(done)
}
