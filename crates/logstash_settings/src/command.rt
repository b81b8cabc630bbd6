//! The command that `clap` reads the words by.

ghost use Rattle.clap.specs.Simple.{app_of};
ghost use Rattle.clap.specs.Walk.{rule_of};
ghost use Rattle.std.specs.Prelude.{◌≡◌, IfOk, false};
ghost use Rattle.logstash_settings.specs.Command as spec;
ghost use Rattle.logstash_settings.specs.Options.{long_rule, rule, with_options};

use clap::{Arg, ArgAction, Command};
use std::alloc::{AllocError, Global};

/// The ids of the options.
pub(crate) const CONFIG_STRING: &str = "config.string";

pub(crate) const PATH_CONFIG: &str = "path.config";

pub(crate) const TEST: &str = "config.test_and_exit";

pub(crate) const RELOAD: &str = "config.reload.automatic";

pub(crate) const WORKERS: &str = "pipeline.workers";

pub(crate) const BATCH_SIZE: &str = "pipeline.batch.size";

pub(crate) const PATH_DATA: &str = "path.data";

pub(crate) const PATH_SETTINGS: &str = "path.settings";

pub(crate) const PIPELINE_ID: &str = "pipeline.id";

pub(crate) const SAMPLE: &str = "sample";

pub(crate) const APART: &str = "apart";

pub(crate) const QUEUE_CHECK: &str = "pqcheck";

pub(crate) const QUEUE_REPAIR: &str = "pqrepair";

/// An option: its id, which is its long word, its letter, if it has one, and what it does with the word behind
/// it.
struct CommandOption {
    id: &'static str,
    letter: Option<char>,
    takes_text: bool,
}

const OPTIONS: [CommandOption; 13] = [
    CommandOption {
        id: CONFIG_STRING,
        letter: Some('e'),
        takes_text: true,
    },
    CommandOption {
        id: PATH_CONFIG,
        letter: Some('f'),
        takes_text: true,
    },
    CommandOption {
        id: TEST,
        letter: Some('t'),
        takes_text: false,
    },
    CommandOption {
        id: RELOAD,
        letter: Some('r'),
        takes_text: false,
    },
    CommandOption {
        id: WORKERS,
        letter: Some('w'),
        takes_text: true,
    },
    CommandOption {
        id: BATCH_SIZE,
        letter: Some('b'),
        takes_text: true,
    },
    CommandOption {
        id: PATH_DATA,
        letter: None,
        takes_text: true,
    },
    CommandOption {
        id: PATH_SETTINGS,
        letter: None,
        takes_text: true,
    },
    CommandOption {
        id: PIPELINE_ID,
        letter: None,
        takes_text: true,
    },
    CommandOption {
        id: SAMPLE,
        letter: None,
        takes_text: true,
    },
    CommandOption {
        id: APART,
        letter: None,
        takes_text: false,
    },
    CommandOption {
        id: QUEUE_CHECK,
        letter: None,
        takes_text: true,
    },
    CommandOption {
        id: QUEUE_REPAIR,
        letter: None,
        takes_text: true,
    },
];

/// The command: each option has its id as its long word, and takes a text, or none.
pub(crate) fn command<'a>(alloc: Global) -> Result<Command<'a>, AllocError>
    ensures { IfOk result (λ command. app_of command ≡ spec.app) }
{
    with_options(alloc, &OPTIONS, bare(alloc))
}

/// The command without options: all words are its own, and it has none for help or its version.
fn bare<'a>(alloc: Global) -> Command<'a>
    ensures { app_of result ≡ spec.bare }
{
    Command::new(alloc, "logstash")
        .no_binary_name(true)
        .disable_help_flag(true)
        .disable_version_flag(true)
}

/// The command with these options too.
fn with_options<'a>(
    alloc: Global,
    options: &[CommandOption],
    start: Command<'a>,
) -> Result<Command<'a>, AllocError>
    ensures { IfOk result (λ command. app_of command ≡ with_options (app_of start.entry)
        options.now) }
{
    let mut command = start;
    for option in options {
        command = command.arg(arg_of(alloc, option))?;
    }
    Ok(command)
}

fn arg_of<'a>(alloc: Global, option: &CommandOption) -> Arg<'a>
    ensures rule { rule_of result ≡ rule option.now }
    ensures local { result.global ≡ false }
{
    let arg = long_arg(alloc, option.id, option.takes_text);
    match option.letter {
        Some(letter) => arg.short(letter),
        None => arg,
    }
}

fn long_arg<'a>(alloc: Global, id: &'a str, takes_text: bool) -> Arg<'a>
    ensures rule { rule_of result ≡ long_rule id.entry.now takes_text }
    ensures local { result.global ≡ false }
{
    let action = if takes_text {
        ArgAction::Set
    } else {
        ArgAction::SetTrue
    };
    Arg::new(alloc, id).long(id).action(action)
}
