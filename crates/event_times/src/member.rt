// Where the members of a decoded JSON object go in an event.
ghost use Rattle.std.specs.Prelude.{◌≡◌, ◌∷◌, [], IfOk};
ghost use Rattle.std.specs.List.{list_any};
ghost use Rattle.event_tree.specs.PathTexts.{way_of};
ghost use Rattle.event_text.specs.Options.{values};
ghost use Rattle.event_times.specs.Decoded as spec;

use crate::read_iso8601;
use crate::text::text_in;
use event_tree::{Fields, Instant, Items, Names, Path, Text, Value};
use std::alloc::{AllocError, Global};

/// Where a member of a decoded object is put in the event, and as which value:
///
/// - `@timestamp` is the event's time where it is a text of ISO 8601 that names a moment, and else `_@timestamp`;
/// - `tags` that are a text or a list of texts are the event's tags, as a list, and else `_tags`;
/// - `@metadata` that is an object is the event's metadata, and else it is dropped: none;
/// - any other member is the field of that name, which is one part of a path.
pub fn place(key: Text, value: Value) -> Result<Option<(Path, Value)>, AllocError>
    ensures { IfOk result (λ placed. placed ≡ spec.placed (key, value)) }
{
    match key.as_str() {
        "@timestamp" => Ok(Some(place_time(key.allocator(), value)?)),
        "tags" => Ok(Some(place_tags(key.allocator(), value)?)),
        "@metadata" => place_metadata(key, value),
        _ => Ok(Some((field_path(key)?, value))),
    }
}

fn place_time(alloc: Global, value: Value) -> Result<(Path, Value), AllocError>
    ensures { IfOk result (λ placed. placed ≡ spec.placed_time value) }
{
    match moment_in(&value) {
        Some(moment) => Ok((named(alloc, "@timestamp")?, Value::Time(moment))),
        None => Ok((named(alloc, "_@timestamp")?, value)),
    }
}

fn place_tags(alloc: Global, value: Value) -> Result<(Path, Value), AllocError>
    ensures { IfOk result (λ placed. placed ≡ spec.placed_tags value) }
{
    if !are_tags(&value) {
        return Ok((named(alloc, "_tags")?, value));
    }
    Ok((named(alloc, "tags")?, Value::List(values_in(alloc, value)?)))
}

fn place_metadata(key: Text, value: Value) -> Result<Option<(Path, Value)>, AllocError>
    ensures { IfOk result (λ placed. placed ≡ spec.placed_metadata (key, value)) }
{
    match value {
        Value::Object(_) => Ok(Some((field_path(key)?, value))),
        _ => Ok(None),
    }
}

/// The tags that tell of members which are not what they should be, in this order: `_timestampparsefailure` where
/// `@timestamp` names no moment, and `_tagsparsefailure` where `tags` are neither a text nor a list of texts.
pub fn failure_tags(alloc: Global, members: &Fields<Value>) -> Result<Names, AllocError>
    ensures { IfOk result (λ tags. tags ≡ spec.failure_tags members.now) }
{
    let mut tags = Names::new(alloc);
    if let Some(value) = members.get("@timestamp") {
        if moment_in(value).is_none() {
            tags.push(Text::of(alloc, "_timestampparsefailure")?)?;
        }
    }
    if let Some(value) = members.get("tags") {
        if !are_tags(value) {
            tags.push(Text::of(alloc, "_tagsparsefailure")?)?;
        }
    }
    Ok(tags)
}

fn moment_in(value: &Value) -> Option<Instant>
    ensures { result ≡ spec.moment_in value.now }
{
    read_iso8601(text_in(value)?, 0)
}

fn are_tags(value: &Value) -> bool
    ensures { result ≡ spec.are_tags value.now }
{
    match value {
        Value::Text(_) => true,
        Value::List(items) => !has_other(items.as_slice()),
        Value::Null | Value::Bool(_) | Value::Num(_) | Value::Time(_) | Value::Object(_) => false,
    }
}

/// Whether one of the values is no text.
#[tactic(auto, using(event_text::proofs::Going::going))]
fn has_other(values: &[Value]) -> bool
    ensures { result ≡ list_any spec.is_other values.now }
{
    for value in values {
        if is_other(value) {
            return true;
        }
    }
    false
}

fn is_other(value: &Value) -> bool
    ensures { result ≡ spec.is_other value.now }
{
    match value {
        Value::Text(_) => false,
        Value::Null
        | Value::Bool(_)
        | Value::Num(_)
        | Value::Time(_)
        | Value::List(_)
        | Value::Object(_) => true,
    }
}

// The items of a list, and another value alone.
fn values_in(alloc: Global, value: Value) -> Result<Items<Value>, AllocError>
    ensures { IfOk result (λ found. found ≡ values value) }
{
    match value {
        Value::List(items) => Ok(items),
        _ => alone(alloc, value),
    }
}

fn alone(alloc: Global, value: Value) -> Result<Items<Value>, AllocError>
    ensures { IfOk result (λ found. found ≡ value ∷ []) }
{
    let mut values = Items::new(alloc);
    values.push(value)?;
    Ok(values)
}

/// The path whose one part is this name, whatever its bytes: into the event's metadata where it is `@metadata`.
pub fn field_path(name: Text) -> Result<Path, AllocError>
    ensures { IfOk result (λ path. path ≡ way_of (name ∷ [])) }
{
    let mut parts = Names::new(name.allocator());
    parts.push(name)?;
    Ok(Path::of_parts(parts))
}

fn named(alloc: Global, name: &str) -> Result<Path, AllocError>
    ensures { IfOk result (λ path. path ≡ way_of (name.now ∷ [])) }
{
    field_path(Text::of(alloc, name)?)
}
