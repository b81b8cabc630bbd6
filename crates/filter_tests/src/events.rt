// Events written as JSON with further values.
use event_json::{JsonFault, read_json, write_json};
use event_text::{path_in, try_put};
use event_tree::{Event, Instant, Items, Path, Text, Value};
use std::alloc::{AllocError, Global};
use std::str;

/// How many bytes of JSON are told; of a longer text its length is.
const TOLD: usize = 1000;

/// The event that is written so: JSON, and then any number of ` with PATH VALUE`.
pub fn event_of(alloc: Global, written: &str) -> Result<Event, AllocError> {
    let mut event = Event::new(alloc);
    let mut first = true;
    for part in written.split(" with ") {
        if first {
            put_json(&mut event, alloc, part)?;
        } else {
            put_written(&mut event, alloc, part)?;
        }
        first = false;
    }
    Ok(event)
}

fn put_json(event: &mut Event, alloc: Global, written: &str) -> Result<(), AllocError> {
    let value = json_value(alloc, written)?;
    match &value {
        Value::Object(fields) => put_members(event, fields.members()),
        _ => Ok(()),
    }
}

fn put_members(event: &mut Event, members: &[(Text, Value)]) -> Result<(), AllocError> {
    for member in members {
        put_member(event, &member.0, &member.1)?;
    }
    Ok(())
}

fn put_member(event: &mut Event, key: &Text, value: &Value) -> Result<(), AllocError> {
    let mut parts = Items::new(key.allocator());
    parts.push(key.copy()?)?;
    try_put(event, &Path::of_parts(parts), value.copy()?)
}

fn put_written(event: &mut Event, alloc: Global, written: &str) -> Result<(), AllocError> {
    let (path, value) = written.split_once(' ').unwrap_or((written, ""));
    match path_in(alloc, repeated(alloc, path)?.as_str())? {
        Some(path) => try_put(event, &path, value_of(alloc, value)?),
        None => Ok(()),
    }
}

/// `COUNT*TEXT`, or the text itself.
fn repeated(alloc: Global, written: &str) -> Result<Text, AllocError> {
    match written.split_once('*') {
        Some((count, text)) => {
            let count = count.parse::<usize>().unwrap_or(0);
            Ok(Text::from_string(text.repeat(alloc, count)?))
        }
        None => Text::of(alloc, written),
    }
}

fn value_of(alloc: Global, written: &str) -> Result<Value, AllocError> {
    if let Some(seconds) = written.strip_prefix("@") {
        return Ok(time_of(seconds));
    }
    if written.contains('*') {
        Ok(Value::Text(repeated(alloc, written)?))
    } else {
        json_value(alloc, written)
    }
}

/// A moment so many seconds from 1970 on, and null where that is none.
fn time_of(seconds: &str) -> Value {
    let seconds = seconds.parse::<i64>().unwrap_or(0);
    match Instant::from_nanos(seconds as i128 * 1_000_000_000) {
        Some(moment) => Value::Time(moment),
        None => Value::Null,
    }
}

fn json_value(alloc: Global, written: &str) -> Result<Value, AllocError> {
    match read_json(alloc, written.as_bytes()) {
        Ok(value) => Ok(value),
        Err(JsonFault::Memory) => Err(AllocError),
        Err(_) => Ok(Value::Null),
    }
}

/// Adds the JSON of an event, and behind `@` that of its metadata where it has any.
pub fn add_event(to: &mut String, event: &Event) -> Result<(), AllocError> {
    add_json(to, event.fields())?;
    if !has_members(event.meta()) {
        return Ok(());
    }
    to.push('@')?;
    add_json(to, event.meta())
}

fn has_members(value: &Value) -> bool {
    match value {
        Value::Object(fields) => !fields.members().is_empty(),
        _ => false,
    }
}

fn add_json(to: &mut String, value: &Value) -> Result<(), AllocError> {
    let mut bytes = Vec::new(*to.allocator());
    write_json(value, &mut bytes)?;
    if bytes.len() > TOLD {
        return write!(to, "{} bytes of JSON", bytes.len());
    }
    to.push_str(str::from_utf8(&bytes).unwrap_or("no UTF-8"))
}
