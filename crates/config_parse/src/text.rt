//! A text as the configuration that it is.

ghost use Rattle.std.specs.Prelude.{◌≡◌, ◌↔◌, ◌<◌, length, IfOk, Err};
ghost use Rattle.config_lex.specs.Lexemes.{place_in};
ghost use Rattle.config_parse.specs.Answers as answers;
ghost use Rattle.config_parse.specs.Told as told;
ghost use Rattle.config_parse.specs.declared.fault.ConfigFault.TheVariants as fault;
ghost use Rattle.config_parse.specs.Seen.{tokens_of};

use crate::error::ReadError;
use crate::fault::ConfigFault;
use crate::laws::reading_is_right;
use crate::statements::sections;
use crate::tokens::{first, refuse};
use crate::{machine_is_right, one_answer, reads_once};
use config_lex::{Lexeme, lexemes};
use config_tree::Config;
use std::alloc::Global;

/// How many bytes a text may have.
pub const LENGTH: usize = 1_048_576;

/// How many levels may be open at once, of `{`, `[`, `(` and `!`.
pub const LEVELS: usize = 64;

/// The configuration that the tokens are.
fn read(alloc: Global, found: &[Lexeme]) -> Result<Config, ReadError>
    ensures { told.ToldLeft LEVELS (tokens_of found.now) result }
{
    machine_is_right();
    reading_is_right();
    let (config, rest) = sections(alloc, LEVELS, found)?;
    match first(rest) {
        None => Ok(config),
        Some(_) => Err(refuse(rest)),
    }
}

/// The place of the token with so many tokens from it on; the end where none is left.
fn place(end: usize, found: &[Lexeme], left: usize) -> usize
    ensures { result ≡ place_in end found.now left }
{
    if left == 0 {
        return end;
    }
    if left > found.len() {
        return end;
    }
    found[found.len() - left].place
}

fn place_of(end: usize, found: &[Lexeme], fault: ReadError) -> ConfigFault
    ensures { result ≡ told.placed end found.now fault }
{
    match fault {
        ReadError::Memory => ConfigFault::Memory,
        ReadError::Syntax(left) => ConfigFault::Syntax(place(end, found, left)),
        ReadError::Deep(left) => ConfigFault::Deep(place(end, found, left)),
    }
}

fn parse_text(alloc: Global, text: &str) -> Result<Config, ConfigFault>
    ensures { told.Told LENGTH LEVELS text.now result }
{
    if text.len() > LENGTH {
        return Err(ConfigFault::Long);
    }
    let found = lexemes(alloc, text)?;
    match read(alloc, found.as_slice()) {
        Ok(config) => Ok(config),
        Err(fault) => Err(place_of(text.len(), found.as_slice(), fault)),
    }
}

/// The configuration that a text is, in the configuration language of Logstash 8 (the Logstash Reference,
/// "Structure of a pipeline"). The text has at most 1,048,576 bytes, and at most 64 levels are open at once,
/// each `{`, `[`, `(` and `!` being one. Sections of one kind that repeat, and settings that stand twice in a
/// plugin, are joined.
///
/// It takes time in proportion to the length of the text, also where a hash has many keys, a plugin many settings, or
/// many hashes are joined into one setting: they are found by hashing, with a fixed seed, so keys that are chosen to fall
/// together can take the square of their number. It takes memory for the tokens and the tree, and for a table of each hash
/// and each plugin while it is read. No clause speaks of time, nor of the stack.
pub fn parse(alloc: Global, text: &str) -> Result<Config, ConfigFault>
    // The limits are these numbers.
    ensures limits { (LENGTH ≡ 1048576) × (LEVELS ≡ 64) }
    // What is given, the text reads as, within the limits.
    ensures found { IfOk result (answers.ReadsWithin LENGTH LEVELS text.now) }
    // A text that reads is given as what it reads as, unless memory runs out.
    ensures only { answers.GivesWhatReads LENGTH LEVELS text.now result }
    // The text is too long.
    ensures long { (result ≡ Err fault.Long) ↔ (LENGTH < length text.now) }
    // The first token that can't stand where it stands, or the early end.
    ensures syntax { answers.IsSyntaxWhereTold LENGTH LEVELS text.now result }
    ensures only_syntax { answers.TellsSyntax LENGTH LEVELS text.now result }
    // The token that opens a level too many.
    ensures deep { answers.IsDeepWhereTold LENGTH LEVELS text.now result }
    ensures only_deep { answers.TellsDeep LENGTH LEVELS text.now result }
{
    reads_once();
    one_answer();
    parse_text(alloc, text)
}
