// The settings and events of a row, written as JSON.
use config_tree::{SettingValue, Settings};
use event_text::{path_in, read_json, try_put};
use event_tree::{Event, Instant, Path, Value};
use plain_data::{Fields, Items, Text};
use std::alloc::{AllocError, Global};

/// What stands before the first bar, and what stands behind it.
pub fn part(row: &str) -> (&str, &str) {
    row.split_once('|').unwrap_or((row, ""))
}

/// The settings that are written as a JSON object.
pub fn settings_of(alloc: Global, written: &str) -> Result<Settings, AllocError> {
    let mut list = Items::new(alloc);
    if let Value::Object(fields) = json(alloc, written)? {
        for member in fields.members() {
            list.push((member.0.copy()?, setting_of(alloc, &member.1)?))?;
        }
    }
    Ok(Settings { list })
}

#[cycle(settings)]
fn setting_of(alloc: Global, value: &Value) -> Result<SettingValue, AllocError> {
    match value {
        Value::Num(number) => Ok(SettingValue::Number(*number)),
        Value::Text(text) => Ok(SettingValue::Text(text.copy()?)),
        Value::List(values) => Ok(SettingValue::Array(settings_in(alloc, values.as_slice())?)),
        _ => Ok(SettingValue::Hash(Items::new(alloc))),
    }
}

#[cycle(settings)]
fn settings_in(alloc: Global, values: &[Value]) -> Result<Items<SettingValue>, AllocError> {
    let mut list = Items::new(alloc);
    for value in values {
        list.push(setting_of(alloc, value)?)?;
    }
    Ok(list)
}

/// The events that are written as JSON objects.
pub fn events_of(alloc: Global, written: &str) -> Result<Vec<Event>, AllocError> {
    let mut events = Vec::new(alloc);
    for word in written.split_whitespace() {
        if events.push(event_of(alloc, word)?).is_err() {
            return Err(AllocError);
        }
    }
    Ok(events)
}

/// The event that is written as a JSON object, with the seconds of its moment and `@` in front where it has one.
pub fn event_of(alloc: Global, written: &str) -> Result<Event, AllocError> {
    let mut event = Event::new(alloc);
    let (seconds, fields) = if written.starts_with('{') {
        ("", written)
    } else {
        written.split_once('@').unwrap_or(("", written))
    };
    if let Value::Object(fields) = json(alloc, fields)? {
        put_all(&mut event, &fields)?;
    }
    put_moment(alloc, &mut event, seconds)?;
    Ok(event)
}

fn put_moment(alloc: Global, event: &mut Event, seconds: &str) -> Result<(), AllocError> {
    let Ok(seconds) = seconds.parse::<i64>() else {
        return Ok(());
    };
    match (
        Instant::from_nanos(i128::from(seconds) * 1_000_000_000),
        path_in(alloc, "@timestamp")?,
    ) {
        (Some(moment), Some(path)) => try_put(event, &path, Value::Time(moment)),
        _ => Ok(()),
    }
}

fn put_all(event: &mut Event, fields: &Fields<Value>) -> Result<(), AllocError> {
    for member in fields.members() {
        put(event, &member.0, &member.1)?;
    }
    Ok(())
}

fn put(event: &mut Event, key: &Text, value: &Value) -> Result<(), AllocError> {
    let mut parts = Items::new(key.allocator());
    parts.push(key.copy()?)?;
    try_put(event, &Path::of_parts(parts), value.copy()?)
}

// A value that is written as JSON; null where it isn't.
fn json(alloc: Global, written: &str) -> Result<Value, AllocError> {
    Ok(read_json(alloc, written.as_bytes()).unwrap_or(Value::Null))
}
