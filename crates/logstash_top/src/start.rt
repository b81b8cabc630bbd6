// What stands before each run and test: the words and the configuration are read, and the checks are made.
ghost use Rattle.std.specs.Prelude.{◌≡◌, ◌⊎◌, Ok, Err, map, string_bytes};
ghost use Rattle.foreign_parts.specs.Boxes.{Keeps};
ghost use Rattle.graph_checks.specs.Whole.{given_by};
ghost use Rattle.logstash_top.specs.Answers.{IsAsked, Starts, StartsBy};
ghost use Rattle.logstash_top.specs.Answers as spec;
ghost use Rattle.logstash_top.specs.Status.{status_of_fault, status_of_refusal};

use crate::built::is_built;
use crate::checks::check_all;
use crate::config_files::{TextFault, text_of_source};
use crate::status::Status;
use crate::words::settings_of_words;
use config_parse::{ConfigFault, parse};
use config_tree::Config;
use graph_checks::{Boxes, GraphFault};
use io_traits::Files;
use plain_data::Text;
use settings_lines::PipelineSettings;
use std::alloc::Global;

/// The text that the words name, and the settings of its pipeline.
#[derive(Drop)]
pub(crate) struct Command {
    pub(crate) settings: PipelineSettings,
    pub(crate) text: Text,
}

/// A configuration that passes its checks and is built, and the settings of its pipeline.
#[derive(Drop)]
pub(crate) struct Checked {
    pub(crate) settings: PipelineSettings,
    pub(crate) config: Config,
}

/// What stands before each run and each test: reads the words, the text that they name and its configuration, makes the
/// checks, and sees whether it is built. Gives the configuration, and else the status that tells why there is none. No
/// box is drawn.
pub(crate) fn start<P: Files, B: Boxes>(
    alloc: Global,
    words: &[String],
    files: &mut P,
    boxes: &mut B,
) -> Result<Checked, Status>
    ensures starts { StartsBy (given_by B.stand B.links boxes.old) P.Files
        (map string_bytes words.now) files.old files.new result }
    ensures keeps { Keeps B.stand B.links boxes.old boxes.new }
{
    match command_of_words(alloc, words, files) {
        Ok(command) => begin(alloc, command, boxes),
        Err(status) => Err(status),
    }
}

/// The text that the words name.
fn command_of_words<P: Files>(
    alloc: Global,
    words: &[String],
    files: &mut P,
) -> Result<Command, Status>
    ensures { IsAsked P.Files (map string_bytes words.now) files.old files.new result }
{
    let settings = settings_of_words(alloc, words)?;
    match text_of_source(alloc, &settings.source, files) {
        Ok(text) => Ok(Command { settings, text }),
        Err(fault) => Err(without_text(fault)),
    }
}

/// The status of words whose text isn't there.
fn without_text(fault: TextFault) -> Status
    ensures { (settings : PipelineSettings) → spec.asked_of settings (Err fault) ≡ Err result }
{
    match fault {
        TextFault::NoFile(path) => Status::FilesFault(Some(path)),
        TextFault::Failed => Status::FilesFault(None),
        TextFault::Memory => Status::NoMemory,
    }
}

/// The configuration of a text, if it passes its checks and is built.
fn begin<B: Boxes>(alloc: Global, command: Command, boxes: &mut B) -> Result<Checked, Status>
    ensures starts { Starts (given_by B.stand B.links boxes.old) (Ok command) result }
    ensures keeps { Keeps B.stand B.links boxes.old boxes.new }
{
    let Command { settings, text } = command;
    match parse(alloc, text.as_str()) {
        Ok(config) => check_config(alloc, settings, config, boxes),
        Err(fault) => Err(refused_text(settings.pipeline_id, fault)),
    }
}

fn check_config<B: Boxes>(
    alloc: Global,
    settings: PipelineSettings,
    config: Config,
    boxes: &mut B,
) -> Result<Checked, Status>
    ensures checked { (result ≡ spec.checked_as (given_by B.stand B.links boxes.old) settings config)
        ⊎ (result ≡ Err Status.NoMemory) }
    ensures keeps { Keeps B.stand B.links boxes.old boxes.new }
{
    if let Err(fault) = check_all(alloc, &settings, &config, boxes) {
        return Err(refused(settings.pipeline_id, fault));
    }
    match is_built(alloc, &config) {
        Ok(true) => Ok(Checked { settings, config }),
        Ok(false) => Err(Status::NotBuilt(settings.pipeline_id)),
        Err(_) => Err(Status::NoMemory),
    }
}

/// The status of a pipeline whose text is no configuration.
fn refused_text(pipeline: Text, fault: ConfigFault) -> Status
    ensures { result ≡ status_of_fault pipeline fault }
{
    match fault {
        ConfigFault::Memory => Status::NoMemory,
        _ => Status::BadConfig(pipeline, fault),
    }
}

/// The status of a pipeline whose configuration fails a check.
pub(crate) fn refused(pipeline: Text, fault: GraphFault) -> Status
    ensures { result ≡ status_of_refusal pipeline fault }
{
    match fault {
        GraphFault::Memory => Status::NoMemory,
        _ => Status::Refused(pipeline, fault),
    }
}
