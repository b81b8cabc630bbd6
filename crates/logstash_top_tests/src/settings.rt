//! What operators set, by command lines and by texts of `pipelines.yml`.

use crate::marked::{text_in, words_of};
use in_file::is_match;
use logstash_settings::{
    ConfigSource, Orders, PipelineSettings, Policy, QueueTool, SettingsFault, WordsFault,
    read_pipelines, read_words,
};
use std::alloc::AllocError;

/// The most bytes of a value that are shown.
const SHOWN: usize = 80;

/// Adds what the words of a row order.
pub fn add_words(to: &mut String, row: &str) -> Result<(), AllocError> {
    let words = words_of(*to.allocator(), row)?;
    match read_words(*to.allocator(), &words) {
        Ok(orders) => add_orders(to, &orders),
        Err(WordsFault::Memory) => Err(AllocError),
        Err(fault) => write!(to, "{fault}"),
    }
}

/// Adds what a text says with the orders of words.
pub fn add_defaults(to: &mut String, row: &str) -> Result<(), AllocError> {
    match row.split_once(" => ") {
        Some((words, text)) => add_pipelines(to, words, text),
        None => to.push_str("no row"),
    }
}

/// Adds what a text says with the orders of words.
pub fn add_pipelines(to: &mut String, words: &str, row: &str) -> Result<(), AllocError> {
    let words = words_of(*to.allocator(), words)?;
    match read_words(*to.allocator(), &words) {
        Ok(orders) => add_settings(to, &orders, row),
        Err(_) => to.push_str("no orders"),
    }
}

/// Adds whether a pattern stands for a name.
pub fn add_match(to: &mut String, row: &str) -> Result<(), AllocError> {
    let words = words_of(*to.allocator(), row)?;
    match words.as_slice() {
        [pattern, name] => add_verdict(to, pattern.as_str(), name.as_str()),
        _ => to.push_str("no row"),
    }
}

fn add_verdict(to: &mut String, pattern: &str, name: &str) -> Result<(), AllocError> {
    let found = is_match(*to.allocator(), pattern, name)?;
    to.push_str(if found { "yes" } else { "no" })
}

fn add_settings(to: &mut String, orders: &Orders, row: &str) -> Result<(), AllocError> {
    let text = text_in(*to.allocator(), row)?;
    match read_pipelines(*to.allocator(), text.as_str(), orders) {
        Ok(pipelines) => add_each(to, pipelines.as_slice()),
        Err(SettingsFault::Memory) => Err(AllocError),
        Err(fault) => write!(to, "{fault}"),
    }
}

fn add_each(to: &mut String, pipelines: &[PipelineSettings]) -> Result<(), AllocError> {
    write!(to, "{}", pipelines.len())?;
    for pipeline in pipelines {
        to.push_str("; ")?;
        add_pipeline(to, pipeline)?;
    }
    Ok(())
}

fn add_pipeline(to: &mut String, settings: &PipelineSettings) -> Result<(), AllocError> {
    add_text(to, settings.pipeline_id.as_str())?;
    add_source(to, " ", &settings.source)?;
    add_named(to, " in ", settings.path_data.as_str())?;
    add_numbers(to, &numbers_of(settings))?;
    to.push_str(if settings.drain { " drain" } else { "" })?;
    to.push_str(match settings.storage_policy {
        Policy::Hold => " hold",
        Policy::DropNewer => " drop_newer",
        Policy::DropOlder => " drop_older",
    })
}

fn numbers_of(settings: &PipelineSettings) -> [u64; 7] {
    [
        u64::from(settings.workers),
        u64::from(settings.batch),
        settings.page_capacity,
        settings.max_bytes,
        u64::from(settings.checkpoint_writes),
        u64::from(settings.checkpoint_acks),
        settings.dead_max_bytes,
    ]
}

fn add_numbers(to: &mut String, numbers: &[u64]) -> Result<(), AllocError> {
    for number in numbers {
        write!(to, " {number}")?;
    }
    Ok(())
}

fn add_orders(to: &mut String, orders: &Orders) -> Result<(), AllocError> {
    match &orders.tool {
        None => add_source(to, "", &orders.source)?,
        Some(QueueTool::Check(id)) => add_named(to, "check ", id.as_str())?,
        Some(QueueTool::Repair(id)) => add_named(to, "repair ", id.as_str())?,
    }
    add_flags(to, orders)?;
    add_numbers(to, &[u64::from(orders.workers), u64::from(orders.batch)])?;
    add_paths(to, orders)
}

fn add_flags(to: &mut String, orders: &Orders) -> Result<(), AllocError> {
    to.push_str(if orders.test { " test" } else { "" })?;
    to.push_str(if orders.reload { " reload" } else { "" })?;
    to.push_str(if orders.apart { " apart" } else { "" })
}

fn add_paths(to: &mut String, orders: &Orders) -> Result<(), AllocError> {
    add_named(to, " ", orders.path_data.as_str())?;
    add_named(to, " ", orders.path_settings.as_str())?;
    add_named(to, " ", orders.pipeline_id.as_str())
}

fn add_source(to: &mut String, before: &str, source: &ConfigSource) -> Result<(), AllocError> {
    to.push_str(before)?;
    match source {
        ConfigSource::Text(text) => add_named(to, "text ", text.as_str()),
        ConfigSource::Path(path) => add_named(to, "path ", path.as_str()),
        ConfigSource::Sample(events) => write!(to, "sample {events}"),
        ConfigSource::Pipelines => to.push_str("pipelines"),
    }
}

fn add_named(to: &mut String, name: &str, text: &str) -> Result<(), AllocError> {
    to.push_str(name)?;
    add_text(to, text)
}

/// Adds a text in quotes, or how long it is.
fn add_text(to: &mut String, text: &str) -> Result<(), AllocError> {
    let bytes = text.len();
    if bytes > SHOWN {
        write!(to, "({bytes} bytes)")
    } else {
        write!(to, "{text:?}")
    }
}
