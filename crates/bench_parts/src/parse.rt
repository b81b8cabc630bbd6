//! Parses, lexes or prints a configuration several times over (bench/parse.sh).

use config_lex::lexemes;
use config_parse::parse;
use config_print::print;
use std::alloc::Global;
use std::fs;

/// How much was parsed, lexed or printed, so many times.
pub fn run(rt: &HostRuntime, words: &[String]) -> Option<u64> {
    let [call, times, file] = words else {
        return None;
    };
    let times = times.as_str().parse::<u32>().ok()?;
    let text = fs::read_to_string(rt, file.as_str()).ok()?;
    match call.as_str() {
        "lex" => lexed(rt.alloc(), text.as_str(), times),
        "print" => printed(rt.alloc(), text.as_str(), times),
        _ => parsed(rt.alloc(), text.as_str(), times),
    }
}

/// Parses the text so many times, and gives the number of statements and plugins at the top of what was read.
fn parsed(alloc: Global, text: &str, times: u32) -> Option<u64> {
    let mut count = 0u64;
    for _ in 0..times {
        let config = parse(alloc, text).ok()?;
        count = count.wrapping_add(config.inputs.len() as u64);
        count = count.wrapping_add(config.filters.len() as u64);
        count = count.wrapping_add(config.outputs.len() as u64);
    }
    Some(count)
}

/// Lexes the text so many times, and gives the number of tokens.
fn lexed(alloc: Global, text: &str, times: u32) -> Option<u64> {
    let mut count = 0u64;
    for _ in 0..times {
        count = count.wrapping_add(lexemes(alloc, text).ok()?.len() as u64);
    }
    Some(count)
}

/// Prints what the text reads as so many times, and gives the number of bytes.
fn printed(alloc: Global, text: &str, times: u32) -> Option<u64> {
    let config = parse(alloc, text).ok()?;
    let mut count = 0u64;
    for _ in 0..times {
        count = count.wrapping_add(print(alloc, &config).ok()?.len() as u64);
    }
    Some(count)
}
