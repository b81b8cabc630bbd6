//! The event of a JSON object, made at once where its members all stand at the root of the event.

ghost use Rattle.std.specs.Prelude.{◌≡◌, ◌∷◌, [], codes, true, Some, IfOk, IfSome, OnOk};
ghost use Rattle.std.specs.List.{list_any};
ghost use Rattle.plain_data.specs.Members.{get_member, insert_member};
ghost use Rattle.event_times.specs.Decoded.{is_other, moment_in};
ghost use Rattle.event_tree.specs.Events.{both, limited};
ghost use Rattle.event_tree.specs.Paths.{over};
ghost use Rattle.event_tree.specs.declared.value.Value.TheVariants as v;
ghost use Rattle.in_lines.specs.Decoding.{object_event};
ghost use Rattle.in_lines.specs.Plain.{IsPlain, completed, is_text_list, missing};

use event_times::{field_path, read_iso8601, text_in};
use event_tree::{Event, Fields, PutFault, Text, Value};
use plain_data::Instant;
use std::alloc::{AllocError, Global};

/// What an object says of its event's time, where each of its members is the field of its name.
#[derive(Clone, Copy)]
pub(crate) struct Plain {
    /// The moment that its `@timestamp` names, if it has one.
    pub(crate) time: Option<Instant>,
}

/// Whether the members are plain: none is `@metadata` or `event`, `tags` are a list of texts if they are there, and
/// `@timestamp` names a moment if it is there.
pub(crate) fn read_plain(members: &Fields<Value>) -> Option<Plain>
    ensures { IfSome result (λ plain. IsPlain members.now plain.time) }
{
    if members.contains_key("@metadata") || members.contains_key("event") {
        return None;
    }
    if !has_plain_tags(members) {
        return None;
    }
    match members.get("@timestamp") {
        None => Some(Plain { time: None }),
        Some(value) => Some(Plain {
            time: Some(moment_of(value)?),
        }),
    }
}

fn moment_of(value: &Value) -> Option<Instant>
    ensures { result ≡ moment_in value.now }
{
    read_iso8601(text_in(value)?, 0)
}

fn has_plain_tags(members: &Fields<Value>) -> bool
    ensures { result ≡ over is_text_list true (get_member (codes "tags") members.now) }
{
    match members.get("tags") {
        Some(Value::List(items)) => !has_other(items.as_slice()),
        Some(_) => false,
        None => true,
    }
}

/// Whether one of the values is no text.
#[tactic(auto, using(event_text::proofs::Going::going))]
fn has_other(values: &[Value]) -> bool
    ensures { result ≡ list_any is_other values.now }
{
    for value in values {
        if is_other(value) {
            return true;
        }
    }
    false
}

fn is_other(value: &Value) -> bool
    ensures { result ≡ is_other value.now }
{
    text_in(value).is_none()
}

/// The event of an object with these plain members. None where it would be too large for an event.
pub(crate) fn plain_event(
    alloc: Global,
    members: Fields<Value>,
    plain: Plain,
    line: &str,
    moment: Instant,
) -> Result<Option<Event>, AllocError>
    requires { IsPlain members plain.time }
    ensures { IfOk result (λ found. IfSome found
        (λ event. event ≡ object_event (record { line = line.now; moment = moment }) members)) }
{
    // For the proof alone: this call's clause says that the keys rise.
    let _members = members.members();
    let mut members = members;
    complete(alloc, &mut members, plain, line, moment)?;
    event_of_fields(alloc, members)
}

/// Adds to plain members what each event has, and the line.
fn complete(
    alloc: Global,
    members: &mut Fields<Value>,
    plain: Plain,
    line: &str,
    moment: Instant,
) -> Result<(), AllocError>
    ensures { OnOk result (members.new
        ≡ completed (record { line = line.now; moment = moment }) plain.time members.old) }
{
    if let Some(time) = plain.time {
        set(alloc, members, "@timestamp", Value::Time(time))?;
    }
    set_missing(
        alloc,
        members,
        "@version",
        Value::Text(Text::of(alloc, "1")?),
    )?;
    set_missing(alloc, members, "@timestamp", Value::Time(moment))?;
    set(alloc, members, "event", original(alloc, line)?)
}

/// Sets a member, in place of the one of that name or in that name's place in the order.
fn set(
    alloc: Global,
    members: &mut Fields<Value>,
    name: &str,
    value: Value,
) -> Result<(), AllocError>
    ensures { OnOk result (members.new ≡ insert_member name.now value members.old) }
{
    let _before = members.insert(Text::of(alloc, name)?, value)?;
    Ok(())
}

/// Sets a member, where there is none of that name.
fn set_missing(
    alloc: Global,
    members: &mut Fields<Value>,
    name: &str,
    value: Value,
) -> Result<(), AllocError>
    ensures { OnOk result (members.new ≡ missing name.now value members.old) }
{
    if members.contains_key(name) {
        return Ok(());
    }
    set(alloc, members, name, value)
}

/// The object that keeps the line as it came.
fn original(alloc: Global, line: &str) -> Result<Value, AllocError>
    ensures { IfOk result (λ value.
        value ≡ v.Object ((codes "original", v.Text line.now) ∷ [])) }
{
    let mut members = Fields::with_capacity(alloc, 1)?;
    members.push(
        Text::of(alloc, "original")?,
        Value::Text(Text::of(alloc, line)?),
    )?;
    Ok(Value::Object(members))
}

/// The event of these fields, with nothing in its metadata. None where they nest too deep for an event, or are too large.
///
/// An event measures what is put into it, so they are put as the metadata of one, and taken from there.
fn event_of_fields(alloc: Global, fields: Fields<Value>) -> Result<Option<Event>, AllocError>
    ensures { IfOk result (λ found. IfSome found (λ event. (event ≡ both (v.Object fields) (v.Object []))
        × (limited (Some event) ≡ Ok event))) }
{
    let path = field_path(Text::of(alloc, "@metadata")?)?;
    let mut event = Event::new(alloc);
    match event.put(&path, Value::Object(fields)) {
        Ok(()) => {}
        Err(PutFault::Memory) => return Err(AllocError),
        Err(_) => return Ok(None),
    }
    let size = event.size();
    match event.take(&path) {
        Some(Value::Object(fields)) => Ok(Some(Event::from_objects(
            alloc,
            fields,
            Fields::new(alloc),
            size,
        ))),
        _ => Ok(None),
    }
}
