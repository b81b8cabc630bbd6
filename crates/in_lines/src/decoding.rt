//! The event of a line, by the codec of its input.

ghost use Rattle.std.specs.Prelude.{◌≡◌, ◌≤◌, ◌∷◌, [], codes, length, Some, IfOk, OnOk};
ghost use Rattle.byte_lines.specs.Text.{text_of};
ghost use Rattle.event_times.specs.Decoded.{json_in, named};
ghost use Rattle.event_text.specs.Options.{each_done, set_at, tagged};
ghost use Rattle.event_tree.specs.declared.value.Value.TheVariants as v;
ghost use Rattle.in_lines.specs.Decoding as spec;

use crate::Codec;
use crate::event::event_of_line;
use crate::plain::{plain_event, read_plain};
use byte_lines::text_of_bytes;
use event_text::{add_tag, try_put};
use event_times::{failure_tags, field_path, json_value, place};
use event_tree::{Event, Fields, Names, Path, Text, Value};
use plain_data::Instant;
use std::alloc::{AllocError, Global};

/// The event of a line that a poll at `moment` made whole.
///
/// - `Plain` and `Line`: the line is its `message`, as [`event_of_line`] has it.
/// - `Json` and `JsonLines`: the members of the JSON object that the line is, where [`place`] puts them, with the tags of
///   [`failure_tags`] behind the object's own. `@version` and `@timestamp` are set where they are missing, and
///   `[event][original]` is the line. A line that is no JSON object is read as by `Line`, and tagged
///   `_jsonparsefailure`.
///
/// What an event can't hold is not set. The line has at most 8,388,558 bytes, as for [`event_of_line`]. The only error is
/// want of memory.
pub fn event_by_codec(
    alloc: Global,
    codec: Codec,
    line: &str,
    moment: Instant,
) -> Result<Event, AllocError>
    requires { length line.now ≤ 8388558 }
    ensures { IfOk result (λ event. event
        ≡ spec.event_by codec (record { line = line.now; moment = moment })) }
{
    match codec {
        Codec::Plain | Codec::Line => event_of_line(alloc, line, moment),
        Codec::Json | Codec::JsonLines => event_of_json(alloc, line, moment),
    }
}

/// The event of the bytes of a line, of which each byte that begins no character becomes U+FFFD. They are at most 1,048,576.
/// Bytes that are text are copied straight into the event. The only error is want of memory.
pub fn event_of_bytes(
    alloc: Global,
    codec: Codec,
    bytes: &[u8],
    moment: Instant,
) -> Result<Event, AllocError>
    requires { length bytes.now ≤ 1048576 }
    ensures { IfOk result (λ event. event
        ≡ spec.event_by codec (record { line = text_of bytes.now; moment = moment })) }
{
    match simdutf8::basic::from_utf8(bytes) {
        Ok(line) => event_by_codec(alloc, codec, line, moment),
        Err(_) => {
            let line = text_of_bytes(alloc, bytes)?;
            event_by_codec(alloc, codec, line.as_str(), moment)
        }
    }
}

// The event of a line that is read as JSON.
fn event_of_json(alloc: Global, line: &str, moment: Instant) -> Result<Event, AllocError>
    requires { length line.now ≤ 8388558 }
    ensures { IfOk result (λ event. event
        ≡ spec.json_event (record { line = line.now; moment = moment }) (json_in line.now)) }
{
    match json_value(alloc, line)? {
        Some(Value::Object(members)) => event_of_object(alloc, members, line, moment),
        _ => failed(alloc, line, moment),
    }
}

// The event of the object that the line is. One that is too large for an event keeps of its members what it can hold, as they
// are put one by one, and is read once more for that.
fn event_of_object(
    alloc: Global,
    members: Fields<Value>,
    line: &str,
    moment: Instant,
) -> Result<Event, AllocError>
    requires length { length line.now ≤ 8388558 }
    requires object { json_in line.now ≡ Some (v.Object members) }
    ensures { IfOk result (λ event. event
        ≡ spec.object_event (record { line = line.now; moment = moment }) members) }
{
    let Some(plain) = read_plain(&members) else {
        return event_by_members(alloc, members, line, moment);
    };
    match plain_event(alloc, members, plain, line, moment)? {
        Some(event) => Ok(event),
        None => large_event(alloc, line, moment),
    }
}

fn large_event(alloc: Global, line: &str, moment: Instant) -> Result<Event, AllocError>
    requires { length line.now ≤ 8388558 }
    ensures { IfOk result (λ event. event
        ≡ spec.json_event (record { line = line.now; moment = moment }) (json_in line.now)) }
{
    match json_value(alloc, line)? {
        Some(Value::Object(members)) => event_by_members(alloc, members, line, moment),
        _ => failed(alloc, line, moment),
    }
}

fn failed(alloc: Global, line: &str, moment: Instant) -> Result<Event, AllocError>
    requires { length line.now ≤ 8388558 }
    ensures { IfOk result
        (λ event. event ≡ spec.failed (record { line = line.now; moment = moment })) }
{
    let mut event = event_of_line(alloc, line, moment)?;
    add_tag(&mut event, Text::of(alloc, "_jsonparsefailure")?)?;
    Ok(event)
}

// The event of an object, whose members are put one by one.
fn event_by_members(
    alloc: Global,
    members: Fields<Value>,
    line: &str,
    moment: Instant,
) -> Result<Event, AllocError>
    ensures { IfOk result (λ event. event
        ≡ spec.object_event (record { line = line.now; moment = moment }) members) }
{
    let tags = failure_tags(alloc, &members)?;
    let mut event = Event::new(alloc);
    put_members(&mut event, members)?;
    add_tags(&mut event, tags.as_slice())?;
    put_missing(
        alloc,
        &mut event,
        "@version",
        Value::Text(Text::of(alloc, "1")?),
    )?;
    put_missing(alloc, &mut event, "@timestamp", Value::Time(moment))?;
    put_original(alloc, &mut event, line)?;
    Ok(event)
}

#[tactic(auto, using(event_text::proofs::Going::going))]
fn put_members(event: &mut Event, members: Fields<Value>) -> Result<(), AllocError>
    ensures { OnOk result (event.new ≡ each_done spec.with_member members event.old) }
{
    for (key, value) in members.into_vec() {
        put_member(event, key, value)?;
    }
    Ok(())
}

fn put_member(event: &mut Event, key: Text, value: Value) -> Result<(), AllocError>
    ensures { OnOk result (event.new ≡ spec.with_member (key, value) event.old) }
{
    match place(key, value)? {
        Some((path, value)) => try_put(event, &path, value),
        None => Ok(()),
    }
}

#[tactic(auto, using(event_text::proofs::Going::going))]
fn add_tags(event: &mut Event, tags: &[Text]) -> Result<(), AllocError>
    ensures { OnOk result (event.new ≡ each_done tagged tags.now event.old) }
{
    for tag in tags {
        add_tag(event, tag.copy()?)?;
    }
    Ok(())
}

// Sets the field of a name, where it is missing.
pub(crate) fn put_missing(
    alloc: Global,
    event: &mut Event,
    name: &str,
    value: Value,
) -> Result<(), AllocError>
    ensures { OnOk result (event.new ≡ spec.set_missing (named name.now) value event.old) }
{
    let path = field_path(Text::of(alloc, name)?)?;
    if event.get(&path).is_some() {
        return Ok(());
    }
    try_put(event, &path, value)
}

// Sets the line at `[event][original]`.
fn put_original(alloc: Global, event: &mut Event, line: &str) -> Result<(), AllocError>
    ensures { OnOk result (event.new
        ≡ set_at spec.original (v.Text line.now) event.old) }
{
    let path = event_path(alloc, "original")?;
    try_put(event, &path, Value::Text(Text::of(alloc, line)?))
}

// The path of a name in `[event]`.
pub(crate) fn event_path(alloc: Global, name: &str) -> Result<Path, AllocError>
    ensures { IfOk result (λ path. path ≡ spec.in_event name.now) }
{
    let mut parts = Names::new(alloc);
    parts.push(Text::of(alloc, "event")?)?;
    parts.push(Text::of(alloc, name)?)?;
    Ok(Path::of_parts(parts))
}
