// Reading the words of a command line with clap.
ghost use Rattle.std.specs.Prelude.{◌≡◌, map, string_bytes};
ghost use Rattle.logstash_settings.specs.Words as spec;
ghost use Rattle.logstash_settings.specs.Words.{Gives, rows};

use crate::command::{APART, RELOAD, command};
use crate::fault::WordsFault;
use crate::orders::{has_both, is_set, orders, range_fault};
use clap::ArgMatches;
use clap::error::ErrorKind;
use settings_lines::Orders;
use std::alloc::Global;

/// Reads the words of a command line, without the program's name.
///
/// The faults are tested in the order of [`WordsFault`]: `Unread` exactly where the command doesn't take the words, then
/// `Both`, `Range` of the first option out of its range, and `Apart`. What doesn't stand has its default.
pub fn read_words(alloc: Global, words: &[String]) -> Result<Orders, WordsFault>
    ensures { Gives result (spec.answer_of (map string_bytes words.now)) }
{
    let Ok(command) = command(alloc) else {
        return Err(WordsFault::Memory);
    };
    match command.try_get_matches_from(words) {
        Ok(matches) => taken(alloc, &matches),
        Err(error) => match error.kind() {
            ErrorKind::OutOfMemory => Err(WordsFault::Memory),
            _ => Err(WordsFault::Unread),
        },
    }
}

/// The orders of words that the command takes.
fn taken(alloc: Global, matches: &ArgMatches<'_>) -> Result<Orders, WordsFault>
    ensures { Gives result (spec.taken (rows matches.now)) }
{
    if has_both(matches) {
        return Err(WordsFault::Both);
    }
    if let Some(option) = range_fault(matches) {
        return Err(WordsFault::Range(option));
    }
    if is_set(matches, APART) && is_set(matches, RELOAD) {
        return Err(WordsFault::Apart);
    }
    Ok(orders(alloc, matches)?)
}
