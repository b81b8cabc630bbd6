//! What is read, printed and read again.

ghost use Rattle.std.specs.Prelude.{IfOk, IsTrue};

use config_parse::{ConfigFault, LENGTH, parse};
use config_print::{print, print_and_parse, printed_text_reads};
use config_tree::Config;
use std::alloc::Global;

/// Whether the configuration that a text reads as is printed to a text that reads as the same, and is printed as
/// the same text again. A text with a fault passes, and so does a printed text that is too long.
fn reads_again(alloc: Global, source: &str) -> Result<bool, ConfigFault>
    ensures { IfOk result (λ same. IsTrue same) }
{
    printed_text_reads();
    let config = match parse(alloc, source) {
        Ok(config) => config,
        Err(ConfigFault::Memory) => return Err(ConfigFault::Memory),
        Err(_) => return Ok(true),
    };
    let text = print(alloc, &config)?;
    if text.len() > LENGTH {
        return Ok(true);
    }
    let again = parse(alloc, text.as_str())?;
    let second = print(alloc, &again)?;
    Ok(again.same(&config) && second == text)
}

/// Whether the configuration that a text reads as is the same as its copy, and the same as the empty one only where
/// nothing is printed. A text with a fault passes.
fn is_copied(alloc: Global, source: &str) -> Result<bool, ConfigFault> {
    let empty = parse(alloc, "")?;
    match parse(alloc, source) {
        Ok(config) => is_told_apart(alloc, &config, &empty),
        Err(ConfigFault::Memory) => Err(ConfigFault::Memory),
        Err(_) => Ok(true),
    }
}

/// Whether a copy is the same, what is printed and parsed is, and the empty configuration is where nothing is printed.
fn is_told_apart(alloc: Global, config: &Config, empty: &Config) -> Result<bool, ConfigFault> {
    let copied = config.copy()?.same(config) && print_and_parse(alloc, config)?.same(config);
    Ok(copied && config.same(empty) == print(alloc, config)?.is_empty())
}

/// `again` where the text's configuration is printed and read again as itself, and is its copy.
pub fn again(alloc: Global, source: &str) -> &'static str {
    match (reads_again(alloc, source), is_copied(alloc, source)) {
        (Ok(true), Ok(true)) => "again",
        _ => "otherwise",
    }
}
