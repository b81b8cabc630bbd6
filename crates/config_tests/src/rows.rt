//! Conditions with many joints in a row, as no recursion walks them.

use crate::truths;
use config_parse::parse;
use config_print::print;
use config_tree::Config;
use event_tree::Event;
use std::alloc::{AllocError, Global};
use table_rows::first_word;

/// A row of a case `JOINT FIELD COUNT`: so many joints, with the field in front of and behind each. `printed` where its
/// configuration is printed with a blank around each joint, `copied` where its copy is the same, and what it says of the
/// event.
pub fn answer(alloc: Global, event: &Event, case: &str) -> Result<String, AllocError> {
    let (joint, rest) = first_word(case);
    let (field, count) = first_word(rest);
    let count = count.parse::<usize>().unwrap_or(0);
    let written = written(alloc, joint, field, count)?;
    let printed = printed(alloc, joint, field, count)?;
    let kept = kept(alloc, written.as_str(), printed.as_str())?;
    let said = truths::answer(alloc, event, written.as_str())?;
    format!(in alloc; "{kept} {said}")
}

/// The text that the row is read from.
fn written(alloc: Global, joint: &str, field: &str, count: usize) -> Result<String, AllocError> {
    let behind = format!(in alloc; "{joint}[{field}]")?
        .as_str()
        .repeat(alloc, count)?;
    format!(in alloc; "[{field}]{behind}")
}

/// Whether the row is read, and is then printed so and copied.
fn kept(alloc: Global, written: &str, printed: &str) -> Result<&'static str, AllocError> {
    let source = format!(in alloc; "filter{{if{written}{{}}}}")?;
    match parse(alloc, source.as_str()) {
        Ok(config) => told(alloc, &config, printed),
        Err(_) => Ok("unread"),
    }
}

fn told(alloc: Global, config: &Config, printed: &str) -> Result<&'static str, AllocError> {
    let is_printed = is_printed(alloc, config, printed)?;
    Ok(match (is_printed, is_copied(config)?) {
        (true, true) => "printed copied",
        (true, false) => "printed other copy",
        (false, true) => "other text copied",
        (false, false) => "other text other copy",
    })
}

fn is_printed(alloc: Global, config: &Config, printed: &str) -> Result<bool, AllocError> {
    Ok(print(alloc, config)?.as_str() == printed)
}

/// The text that the row is printed as.
fn printed(alloc: Global, joint: &str, field: &str, count: usize) -> Result<String, AllocError> {
    let behind = format!(in alloc; " {joint} [{field}]")?
        .as_str()
        .repeat(alloc, count)?;
    format!(in alloc; "filter {{\n  if [{field}]{behind} {{\n  }}\n}}\n")
}

fn is_copied(config: &Config) -> Result<bool, AllocError> {
    Ok(config.copy()?.same(config))
}
