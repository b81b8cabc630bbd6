//! What the words of the command line ask of the program.

ghost use Rattle.std.specs.Prelude.{◌≡◌, ◌⊎◌, Err, IfOk, map, string_bytes};
ghost use Rattle.logstash_settings.specs.Words.{answer_of};
ghost use Rattle.logstash_top.specs.Words as spec;
ghost use Rattle.logstash_top.specs.Words.{settings_asked, which_of, workers_of};

use crate::requested_call::Which;
use crate::status::Status;
use logstash_settings::{
    ConfigSource, Orders, PipelineSettings, QueueTool, WordsFault, read_words,
};
use std::alloc::{AllocError, Global};

/// Says which call the words of a command line are for: where they read, `Check` with `--pqcheck`, `Repair` with `--pqrepair`,
/// else `Test` with `-t`, else `Apart` with `--apart`; and else `Run`. The only error is want of memory.
pub fn which(alloc: Global, words: &[String]) -> Result<Which, AllocError>
    ensures { IfOk result (λ which. which ≡ which_of (answer_of (map string_bytes words.now))) }
{
    match answered(alloc, words)? {
        Ok(orders) => Ok(call_of(&orders)),
        Err(_) => Ok(Which::Run),
    }
}

fn call_of(orders: &Orders) -> Which
    ensures { result ≡ spec.call_of orders.now }
{
    match &orders.tool {
        Some(QueueTool::Check(_)) => Which::Check,
        Some(QueueTool::Repair(_)) => Which::Repair,
        None => call_without_tool(orders),
    }
}

fn call_without_tool(orders: &Orders) -> Which
    ensures { result ≡ spec.call_without_tool orders.now }
{
    if orders.test {
        Which::Test
    } else if orders.apart {
        Which::Apart
    } else {
        Which::Run
    }
}

/// How many workers the words of a command line want: the value of `-w` where they read, and else 2. The only error is
/// want of memory.
pub fn workers_wanted(alloc: Global, words: &[String]) -> Result<u32, AllocError>
    ensures { let answer = answer_of (map string_bytes words.now) in
        IfOk result (λ workers. workers ≡ workers_of answer) }
{
    match answered(alloc, words)? {
        Ok(orders) => Ok(orders.workers),
        Err(_) => Ok(2),
    }
}

/// The settings of the one pipeline that the words name, or why there are none.
pub(crate) fn settings_of_words(alloc: Global, words: &[String]) -> Result<PipelineSettings, Status>
    ensures { (result ≡ settings_asked (answer_of (map string_bytes words.now)))
        ⊎ (result ≡ Err Status.NoMemory) }
{
    match answered(alloc, words) {
        Ok(Ok(orders)) => settings_of(&orders),
        Ok(Err(fault)) => Err(Status::BadWords(fault)),
        Err(_) => Err(Status::NoMemory),
    }
}

/// The settings of the pipeline that orders name, where they have nothing that isn't built yet.
fn settings_of(orders: &Orders) -> Result<PipelineSettings, Status>
    ensures { (result ≡ spec.settings_of orders.now) ⊎ (result ≡ Err Status.NoMemory) }
{
    if has_more(orders) {
        return Err(Status::WordsNotBuilt);
    }
    match orders.own_pipeline() {
        Ok(settings) => Ok(settings),
        Err(_) => Err(Status::NoMemory),
    }
}

/// Whether orders have what isn't built yet.
fn has_more(orders: &Orders) -> bool
    ensures { result ≡ spec.has_more orders.now }
{
    orders.reload || orders.apart || orders.tool.is_some() || !is_one_text(&orders.source)
}

/// Whether a source is a text or a path.
fn is_one_text(source: &ConfigSource) -> bool
    ensures { result ≡ spec.is_one_text source.now }
{
    match source {
        ConfigSource::Text(_) | ConfigSource::Path(_) => true,
        ConfigSource::Sample(_) | ConfigSource::Pipelines => false,
    }
}

/// What the words are answered. The outer error is want of memory.
fn answered(alloc: Global, words: &[String]) -> Result<Result<Orders, WordsFault>, AllocError>
    ensures { IfOk result (λ answer. answer ≡ answer_of (map string_bytes words.now)) }
{
    match read_words(alloc, words) {
        Ok(orders) => Ok(Ok(orders)),
        Err(WordsFault::Memory) => Err(AllocError),
        Err(fault) => Ok(Err(fault)),
    }
}
