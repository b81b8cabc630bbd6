//! The text of a configuration.

ghost use Rattle.std.specs.Prelude.{◌≡◌, IfOk};
ghost use Rattle.config_print.specs.Printed.{printed};

use crate::statements::{add_inputs, add_section};
use config_lex::Section;
use config_tree::Config;
use plain_data::Text;
use std::alloc::{AllocError, Global};

/// The text of a configuration: the sections `input`, `filter` and `output`, each where it isn't empty, one
/// statement, setting, key or brace on a line, with two blanks for each level. (That what a text was read as prints
/// to a text that reads as the same is a law of `config_print`.)
///
/// A string has double quotes, or single quotes where it holds a `"` that no backslash precedes. The name of a
/// plugin or a setting is bare where it is a word. A condition stands on the line of its `if`, with parentheses
/// where a joint inside binds less tightly than the one outside, or stands behind one that binds as tightly. An
/// array stands on one line. On these lines one blank stands between two tokens.
///
/// It takes time in the length of the text that is made. It calls itself for what stands in braces, brackets and
/// parentheses and behind `!`, and goes along lists and rows of joints by loops: no clause bounds the stack that
/// this takes, and what `config_parse::parse` gives has at most 64 levels.
pub fn print(alloc: Global, config: &Config) -> Result<Text, AllocError>
    ensures { IfOk result (λ text. text ≡ printed config.now) }
{
    let mut text = String::new(alloc);
    add_inputs(&mut text, config.inputs.as_slice())?;
    add_section(&mut text, Section::Filter, config.filters.as_slice())?;
    add_section(&mut text, Section::Output, config.outputs.as_slice())?;
    Ok(Text::from_string(text))
}
