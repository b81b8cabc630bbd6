// Printing configurations and reading them again.
use crate::again::again;
use crate::show::add_config;
use config_parse::{ConfigFault, parse};
use config_print::print;
use config_tree::Config;
use plain_data::Text;
use std::alloc::{AllocError, Global};

/// `again`, where it reads again, and the tree that a text reads as; or its fault.
pub fn outcome(alloc: Global, source: &str) -> Result<String, AllocError> {
    match parse(alloc, source) {
        Ok(config) => shown(alloc, again(alloc, source), &config),
        Err(fault) => format!(in alloc; "{fault}"),
    }
}

fn shown(alloc: Global, again: &str, config: &Config) -> Result<String, AllocError> {
    let mut shown = String::from_str(alloc, again)?;
    shown.push(' ')?;
    add_config(&mut shown, config)?;
    Ok(shown)
}

/// What a text of so many blanks reads as.
pub fn outcome_of_blanks(alloc: Global, count: &str) -> Result<String, AllocError> {
    let text = " ".repeat(alloc, count.parse::<usize>().unwrap_or(0))?;
    outcome(alloc, text.as_str())
}

/// What the configuration that a text reads as is printed as.
fn printed(alloc: Global, source: &str) -> Result<Text, ConfigFault> {
    Ok(print(alloc, &parse(alloc, source)?)?)
}

/// `again`, where the text reads again, and its configuration's text with a line `---` behind it.
pub fn text(alloc: Global, source: &str) -> Result<String, AllocError> {
    match printed(alloc, source) {
        Ok(text) => format!(in alloc; "{}\n{text}---", again(alloc, source)),
        Err(fault) => format!(in alloc; "{fault}"),
    }
}

/// `again`, where the second text reads again, and what is printed of the first between these two texts.
fn part(
    alloc: Global,
    first: &str,
    second: &str,
    around: (&str, &str),
) -> Result<String, AllocError> {
    match printed(alloc, first) {
        Ok(text) => {
            let whole = text.as_str();
            let part = whole.strip_prefix(around.0).unwrap_or(whole);
            let part = part.strip_suffix(around.1).unwrap_or(whole);
            format!(in alloc; "{} {part}", again(alloc, second))
        }
        Err(fault) => format!(in alloc; "{fault}"),
    }
}

/// How a value of a setting is printed; in a hash it reads again.
pub fn string(alloc: Global, value: &str) -> Result<String, AllocError> {
    let first = format!(in alloc; "filter {{ x {{ a => {value} }} }}")?;
    let second = format!(in alloc; "output {{ x {{ a => {{ k => {value} }} }} }}")?;
    let around = ("filter {\n  x {\n    a => ", "\n  }\n}\n");
    part(alloc, first.as_str(), second.as_str(), around)
}

/// How a condition is printed in a filter; in an output it reads again.
pub fn condition(alloc: Global, condition: &str) -> Result<String, AllocError> {
    let first = format!(in alloc; "filter {{ if {condition} {{ }} }}")?;
    let second = format!(in alloc; "output {{ if {condition} {{ }} }}")?;
    let around = ("filter {\n  if ", " {\n  }\n}\n");
    part(alloc, first.as_str(), second.as_str(), around)
}
