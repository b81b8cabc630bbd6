// A filter, made of a row's settings and applied to its event.
use crate::events::{add_event, event_of};
use built_plugins::BuiltFilter;
use config_parse::parse;
use config_tree::{Config, FromFault, Plugin, Statement};
use filter_settings::Applied;
use std::alloc::{AllocError, Global};

/// Adds the answer of a row.
pub fn add_answer(to: &mut String, row: &str) -> Result<(), AllocError> {
    let (filter, event) = row.split_once(" on ").unwrap_or((row, ""));
    match plugin_of(*to.allocator(), filter)? {
        Some(plugin) => add_read(to, &plugin, event),
        None => to.push_str("no configuration"),
    }
}

/// The plugin that stands alone in the section of filters.
pub fn plugin_of(alloc: Global, filter: &str) -> Result<Option<Plugin>, AllocError> {
    let text = format!(in alloc; "filter {{ {filter} }}")?;
    match parse(alloc, text.as_str()) {
        Ok(config) => Ok(only_filter(config)),
        Err(_) => Ok(None),
    }
}

fn only_filter(mut config: Config) -> Option<Plugin> {
    match config.filters.pop() {
        Some(Statement::Plugin(plugin)) => Some(plugin),
        _ => None,
    }
}

fn add_read(to: &mut String, plugin: &Plugin, event: &str) -> Result<(), AllocError> {
    match BuiltFilter::from_plugin(plugin) {
        Ok(Some(filter)) => add_applied(to, filter, event),
        Ok(None) => to.push_str("no such filter"),
        Err(FromFault::Memory) => Err(AllocError),
        Err(FromFault::Bad(fault)) => write!(to, "refused: {fault}"),
    }
}

fn add_applied(to: &mut String, mut filter: BuiltFilter, event: &str) -> Result<(), AllocError> {
    if event.is_empty() {
        return to.push_str("read");
    }
    let event = event_of(*to.allocator(), event)?;
    add_outcome(to, &filter.apply(event)?)
}

fn add_outcome(to: &mut String, applied: &Applied) -> Result<(), AllocError> {
    to.push_str(if applied.matched {
        "matched"
    } else {
        "not matched"
    })?;
    for event in applied.events.as_slice() {
        to.push(' ')?;
        add_event(to, event)?;
    }
    Ok(())
}
