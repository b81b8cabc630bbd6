//! A configuration, printed and read.

ghost use Rattle.std.specs.Prelude.{◌≡◌, ◌<◌, length, Err, IfOk};
ghost use Rattle.config_parse.specs.Answers.{ReadsWithin};
ghost use Rattle.config_parse.specs.declared.fault.ConfigFault.TheVariants as fault;
ghost use Rattle.config_print.specs.Printed.{printed};
ghost use Rattle.config_print.specs.Answers as answers;

use crate::print;
use crate::print_laws::printed_text_reads;
use config_parse::{ConfigFault, LENGTH, LEVELS, parse};
use config_tree::Config;
use std::alloc::Global;

/// Prints a configuration, and reads the printed text. Of a configuration that a text was read as, this is that
/// configuration again, where the printed text has at most 1,048,576 bytes.
///
/// It takes time and memory for the printed text and its tokens.
pub fn print_and_parse(alloc: Global, config: &Config) -> Result<Config, ConfigFault>
    // The printed text reads as the configuration that is printed, unless memory runs out.
    ensures same { answers.GivesAgain LENGTH LEVELS config.now result }
    // What is given, the printed text reads as.
    ensures found { IfOk result (ReadsWithin LENGTH LEVELS (printed config.now)) }
    // The printed text is too long.
    ensures long { answers.TellsLong LENGTH config.now result }
    ensures only_long { result ≡ Err fault.Long → LENGTH < length (printed config.now) }
    // The printed text of a configuration that no text reads as has a fault, at this place in the printed text.
    ensures syntax { answers.IsSyntaxWhereTold LEVELS config.now result }
    ensures deep { answers.IsDeepWhereTold LEVELS config.now result }
{
    printed_text_reads();
    let text = print(alloc, config)?;
    parse(alloc, text.as_str())
}
