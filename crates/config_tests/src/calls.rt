// The calls on an event that a row of a table names.
ghost use Rattle.std.specs.Prelude.{◌≡◌, IfOk};
ghost use Rattle.event_text.specs.Template.{text, template_parts};

use crate::{codecs, json, numbers};
use event_json::{JsonFault, read_json};
use event_text::{Template, value_text};
use event_tree::{DeadList, DeadPart, Event, Path, Text, Value};
use std::alloc::{AllocError, Global};
use table_rows::first_word;

/// Makes the call of a line on the event, and adds what it answers.
pub fn call(to: &mut String, event: &mut Event, line: &str) -> Result<(), AllocError> {
    let (call, given) = first_word(line);
    match call {
        "new" => write!(to, "{}", event.same(&Event::new(*to.allocator()))),
        "copy" => write!(to, "{}", is_copy(event)?),
        "letters" => write!(to, "{}", copied_letters(*to.allocator(), event)?),
        "write" => codecs::add_written(to, event, given),
        "fill" => to.push_str(filled(*to.allocator(), given, event)?.as_str()),
        _ => call_at(to, event, call, given),
    }
}

/// Whether a copy of the event is the same.
fn is_copy(event: &Event) -> Result<bool, AllocError> {
    Ok(event.copy()?.same(event))
}

/// A template's text, filled from the event.
fn filled(alloc: Global, template: &str, event: &Event) -> Result<Text, AllocError>
    ensures { IfOk result (λ filled. filled ≡ text (template_parts template.now) event.now) }
{
    Template::read(alloc, template)?.fill(event)
}

fn letter(alloc: Global, event: &Event) -> Result<DeadPart, AllocError> {
    Ok(DeadPart {
        kind: Text::of(alloc, "if")?,
        id: Text::of(alloc, "filter_1")?,
        reason: Text::of(alloc, "order")?,
        event: event.copy()?,
    })
}

/// How many letters a copy of a list of one has.
fn copied_letters(alloc: Global, event: &Event) -> Result<usize, AllocError> {
    let mut letters = DeadList::new(alloc);
    letters.push(letter(alloc, event)?)?;
    Ok(letters.clone()?.len())
}

fn call_at(to: &mut String, event: &mut Event, call: &str, given: &str) -> Result<(), AllocError> {
    let (path, value) = first_word(given);
    match Path::read(*to.allocator(), path) {
        Ok(path) => call_with(to, event, call, &path, value),
        Err(fault) => write!(to, "{fault}"),
    }
}

fn call_with(
    to: &mut String,
    event: &mut Event,
    call: &str,
    path: &Path,
    value: &str,
) -> Result<(), AllocError> {
    match call {
        "show" => return add_shown(to, event.get(path)),
        "get" => add_found(to, event.get(path))?,
        "take" => add_found(to, event.take(path).as_ref())?,
        _ => put(to, event, path, value)?,
    }
    add_left(to, event)
}

/// Adds the text that a value is shown by.
fn add_shown(to: &mut String, value: Option<&Value>) -> Result<(), AllocError> {
    match value {
        Some(value) => to.push_str(value_text(*to.allocator(), value)?.as_str()),
        None => to.push_str("none"),
    }
}

/// Adds the JSON text of a value.
fn add_found(to: &mut String, value: Option<&Value>) -> Result<(), AllocError> {
    match value {
        Some(value) => json::add(to, value),
        None => to.push_str("none"),
    }
}

fn put(to: &mut String, event: &mut Event, path: &Path, value: &str) -> Result<(), AllocError> {
    match event.put(path, value_of(*to.allocator(), value)?) {
        Ok(()) => to.push_str("done"),
        Err(fault) => write!(to, "{fault}"),
    }
}

/// Adds the two objects that the event has.
fn add_left(to: &mut String, event: &Event) -> Result<(), AllocError> {
    to.push('|')?;
    json::add(to, event.fields())?;
    to.push('|')?;
    json::add(to, event.meta())
}

/// The value that is written so: by its JSON text, by `time SECONDS NANOSECONDS`, or by `COUNT*TEXT` for a text of so
/// many times that text.
fn value_of(alloc: Global, written: &str) -> Result<Value, AllocError> {
    if let Some(given) = written.strip_prefix("time ") {
        return Ok(numbers::moment(given).map_or(Value::Null, Value::Time));
    }
    if let Some((count, text)) = written.split_once('*') {
        let count = count.parse::<usize>().unwrap_or(0);
        return Ok(Value::Text(Text::from_string(text.repeat(alloc, count)?)));
    }
    match read_json(alloc, written.as_bytes()) {
        Ok(value) => Ok(value),
        Err(JsonFault::Memory) => Err(AllocError),
        Err(_) => Ok(Value::Null),
    }
}
