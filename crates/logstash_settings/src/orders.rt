//! What the options order.

ghost use Rattle.std.specs.Prelude.{◌≡◌, IfOk, codes, nat_lt, count_by};
ghost use Rattle.logstash_settings.specs.Words as spec;
ghost use Rattle.logstash_settings.specs.Words.{rows, text_in};
ghost use Rattle.settings_lines.specs.Numbers.{number_in};

use crate::command::{
    APART, BATCH_SIZE, CONFIG_STRING, PATH_CONFIG, PATH_DATA, PATH_SETTINGS, PIPELINE_ID,
    QUEUE_CHECK, QUEUE_REPAIR, RELOAD, SAMPLE, TEST, WORKERS,
};
use crate::fault::RangedOption;
use clap::ArgMatches;
use plain_data::Text;
use settings_lines::{ConfigSource, Orders, QueueTool, is_id, number_in, small_number_in};
use std::alloc::{AllocError, Global};

/// The value of an option, where it stands.
fn value<'a>(matches: &ArgMatches<'a>, id: &str) -> Option<&'a str>
    ensures { text_in result ≡ spec.value id.now (rows matches.now) }
{
    matches.get_str(id)
}

fn stands(matches: &ArgMatches<'_>, id: &str) -> bool
    ensures { result ≡ spec.stands id.now (rows matches.now) }
{
    value(matches, id).is_some()
}

/// Whether a flag stands.
pub(crate) fn is_set(matches: &ArgMatches<'_>, id: &str) -> bool
    ensures { result ≡ spec.is_set id.now (rows matches.now) }
{
    match value(matches, id) {
        Some(text) => text == "true",
        None => false,
    }
}

/// Whether more than one option says what is to run.
pub(crate) fn has_both(matches: &ArgMatches<'_>) -> bool
    ensures { result ≡ spec.has_both (rows matches.now) }
{
    several(&[
        stands(matches, CONFIG_STRING),
        stands(matches, PATH_CONFIG),
        stands(matches, SAMPLE),
        stands(matches, QUEUE_CHECK),
        stands(matches, QUEUE_REPAIR),
    ])
}

fn several(given: &[bool]) -> bool
    ensures { result ≡ nat_lt 1 (count_by (λ stands. stands) given.now) }
{
    given.iter().filter(|stands| **stands).count() > 1
}

/// The first option whose value is not in its range.
pub(crate) fn range_fault(matches: &ArgMatches<'_>) -> Option<RangedOption>
    ensures { result ≡ spec.range_fault (rows matches.now) }
{
    if !fits_number(value(matches, WORKERS), 1, 64) {
        return Some(RangedOption::Workers);
    }
    if !fits_number(value(matches, BATCH_SIZE), 1, 10_000) {
        return Some(RangedOption::BatchSize);
    }
    if !fits_id(value(matches, PIPELINE_ID)) {
        return Some(RangedOption::PipelineId);
    }
    if !fits_number(value(matches, SAMPLE), 1, 1_000_000) {
        return Some(RangedOption::Sample);
    }
    if !fits_id(value(matches, QUEUE_CHECK)) {
        return Some(RangedOption::QueueCheck);
    }
    if !fits_id(value(matches, QUEUE_REPAIR)) {
        return Some(RangedOption::QueueRepair);
    }
    None
}

fn fits_number(value: Option<&str>, low: u64, high: u64) -> bool
    ensures { result ≡ spec.fits_number low high (text_in value.entry) }
{
    match value {
        Some(text) => number_in(text, low, high).is_some(),
        None => true,
    }
}

fn fits_id(value: Option<&str>) -> bool
    ensures { result ≡ spec.fits_id (text_in value.entry) }
{
    match value {
        Some(text) => is_id(text),
        None => true,
    }
}

/// The orders, where each value is in its range.
pub(crate) fn orders(alloc: Global, matches: &ArgMatches<'_>) -> Result<Orders, AllocError>
    ensures { IfOk result (λ orders. orders ≡ spec.orders_of (rows matches.now)) }
{
    Ok(Orders {
        path_data: text_or(alloc, matches, PATH_DATA, "data")?,
        path_settings: text_or(alloc, matches, PATH_SETTINGS, "config")?,
        pipeline_id: text_or(alloc, matches, PIPELINE_ID, "main")?,
        tool: tool(alloc, matches)?,
        source: source(alloc, matches)?,
        test: is_set(matches, TEST),
        reload: is_set(matches, RELOAD),
        apart: is_set(matches, APART),
        workers: number_or(matches, WORKERS, 64, 2),
        batch: number_or(matches, BATCH_SIZE, 10_000, 125),
    })
}

/// What is to run.
fn source(alloc: Global, matches: &ArgMatches<'_>) -> Result<ConfigSource, AllocError>
    ensures { IfOk result (λ source. source ≡ spec.source_of
        (spec.value (codes "config.string") (rows matches.now))
        (spec.value (codes "path.config") (rows matches.now))
        (spec.value (codes "sample") (rows matches.now))) }
{
    if let Some(text) = value(matches, CONFIG_STRING) {
        return Ok(ConfigSource::Text(Text::of(alloc, text)?));
    }
    if let Some(path) = value(matches, PATH_CONFIG) {
        return Ok(ConfigSource::Path(Text::of(alloc, path)?));
    }
    match value(matches, SAMPLE) {
        Some(events) => Ok(sample_of(events)),
        None => Ok(ConfigSource::Pipelines),
    }
}

fn sample_of(events: &str) -> ConfigSource
    ensures { result ≡ spec.sample_of (number_in 1 1000000 events.now) }
{
    match number_in(events, 1, 1_000_000) {
        Some(events) => ConfigSource::Sample(events),
        None => ConfigSource::Pipelines,
    }
}

/// What is to be done with a queue.
fn tool(alloc: Global, matches: &ArgMatches<'_>) -> Result<Option<QueueTool>, AllocError>
    ensures { IfOk result (λ tool. tool ≡ spec.tool_of
        (spec.value (codes "pqcheck") (rows matches.now))
        (spec.value (codes "pqrepair") (rows matches.now))) }
{
    if let Some(id) = value(matches, QUEUE_CHECK) {
        return Ok(Some(QueueTool::Check(Text::of(alloc, id)?)));
    }
    match value(matches, QUEUE_REPAIR) {
        Some(id) => Ok(Some(QueueTool::Repair(Text::of(alloc, id)?))),
        None => Ok(None),
    }
}

/// The number of an option from 1 on.
fn number_or(matches: &ArgMatches<'_>, id: &str, high: u32, default: u32) -> u32
    ensures { result ≡ spec.number_or default 1 high (spec.value id.now (rows matches.now)) }
{
    match value(matches, id) {
        Some(text) => small_number_in(text, 1, high).unwrap_or(default),
        None => default,
    }
}

fn text_or(
    alloc: Global,
    matches: &ArgMatches<'_>,
    id: &str,
    default: &str,
) -> Result<Text, AllocError>
    ensures { IfOk result (λ text. text ≡ spec.text_or default.now
        (spec.value id.now (rows matches.now))) }
{
    Text::of(alloc, value(matches, id).unwrap_or(default))
}
