// Changes of one of the two objects of an event, within the room that the event has.
ghost use Rattle.std.specs.Prelude.{◌≡◌, ◌≢◌, ◌≤◌, ◌<◌, ◌+◌, ◌^◌, ℕ, true, is_some, IfOk, IfErr, Err};
ghost use Rattle.std.specs.Option.{option_and_then};
ghost use Rattle.event_tree.specs.Events.{IsObject, object, object_put, object_append};
ghost use Rattle.event_tree.specs.Paths.{at, items_of};
ghost use Rattle.event_tree.specs.Outcomes.{PutsWithin, Passes, changed, ends_as_no_object as ends_otherwise};
ghost use Rattle.event_tree.specs.Values.{depth};
ghost use Rattle.event_tree.specs.Sizes.{size};
ghost use Rattle.event_tree.specs.Sound.{sound};
ghost use Rattle.event_tree.specs.Growth.{room_at_end};
ghost use Rattle.event_tree.specs.declared.fault.PutFault.TheVariants.{Memory};
ghost use Rattle.event_tree.specs.declared.value.Value.{Value as Tree};

use crate::append::append_in;
use crate::change::{get_in, put_in};
use crate::fault::PutFault;
use crate::measure::{is_too_deep, room_after, room_at};
use crate::value::Value;
use plain_data::Text;
use std::alloc::Global;

/// How a value is put at the end of the parts of a path.
#[derive(Clone, Copy, PartialEq, Eq, Drop)]
pub(crate) enum WriteKind {
    /// In place of what stands there.
    Put,
    /// At the end of the list that stands there.
    Append,
}

/// Changes one of the two objects of an event that has `room` for that many more bytes, and says how
/// many it still has room for.
pub(crate) fn change_within(
    alloc: Global,
    target: &mut Value,
    parts: &[Text],
    value: Value,
    how: WriteKind,
    room: u64,
) -> Result<u64, PutFault>
    requires room { room + size target.old < 2 ^ 64 }
    requires object { IsObject target.old }
    requires shallow { depth target.old ≤ 128 }
    requires sound { sound target.old ≡ true }
    ensures { PutsWithin result (changed how parts.now value target.old) room target.old
        target.new }
{
    match how {
        WriteKind::Put => put_within(alloc, target, parts, value, room),
        WriteKind::Append => append_within(target, parts, value, room),
    }
}

fn put_within(
    alloc: Global,
    target: &mut Value,
    parts: &[Text],
    value: Value,
    room: u64,
) -> Result<u64, PutFault>
    requires room { room + size target.old < 2 ^ 64 }
    requires object { IsObject target.old }
    requires shallow { depth target.old ≤ 128 }
    requires sound { sound target.old ≡ true }
    ensures { PutsWithin result (object_put parts.now value target.old) room target.old target.new }
{
    match room_left(room_at(target, parts, room), parts, &value) {
        Ok(left) => match put_in(alloc, target, parts, value) {
            Ok(()) => Ok(left),
            Err(fault) => Err(fault),
        },
        Err(fault) => Err(fault),
    }
}

/// How much of the room that was found at the end of the parts a value leaves there, or why it can't
/// stand there.
pub(crate) fn room_left(
    found: Option<Option<u64>>,
    parts: &[Text],
    value: &Value,
) -> Result<u64, PutFault>
    ensures passes { IfOk result (Passes found parts.now value.now) }
    ensures known { IfErr result (λ fault. fault ≢ Memory) }
    ensures refused { (room : ℕ) (old : Tree) → found ≡ room_at_end room parts.now old
        → IsObject old → depth old ≤ 128
        → IfErr result (λ fault. PutsWithin (Err fault) (object_put parts.now value.now old) room old old) }
{
    let Some(found) = found else {
        return Err(PutFault::ThroughScalar);
    };
    if ends_as_no_object(parts, value) {
        return Err(PutFault::ThroughScalar);
    }
    if is_too_deep(value, parts.len()) {
        return Err(PutFault::Deep);
    }
    let Some(free) = found else {
        return Err(PutFault::Large);
    };
    match room_after(value, free) {
        Some(left) => Ok(left),
        None => Err(PutFault::Large),
    }
}

// Whether one of the two objects of an event would become a value that is no object.
fn ends_as_no_object(parts: &[Text], value: &Value) -> bool
    ensures { result ≡ ends_otherwise parts.now value.now }
{
    parts.is_empty() && !is_object(value)
}

fn is_object(value: &Value) -> bool
    ensures { result ≡ is_some (object value.now) }
{
    match value {
        Value::Object(_) => true,
        Value::Null
        | Value::Bool(_)
        | Value::Num(_)
        | Value::Text(_)
        | Value::Time(_)
        | Value::List(_) => false,
    }
}

fn append_within(
    target: &mut Value,
    parts: &[Text],
    value: Value,
    room: u64,
) -> Result<u64, PutFault>
    requires room { room + size target.old < 2 ^ 64 }
    requires object { IsObject target.old }
    requires shallow { depth target.old ≤ 128 }
    requires sound { sound target.old ≡ true }
    ensures { PutsWithin result (object_append parts.now value target.old) room target.old
        target.new }
{
    if !holds_list(target, parts) {
        return Err(PutFault::ThroughScalar);
    }
    if is_too_deep(&value, parts.len() + 1) {
        return Err(PutFault::Deep);
    }
    match room_after(&value, room) {
        Some(left) => match append_in(target, parts, value) {
            Ok(()) => Ok(left),
            Err(fault) => Err(fault),
        },
        None => Err(PutFault::Large),
    }
}

fn holds_list(target: &Value, parts: &[Text]) -> bool
    ensures { result ≡ is_some (option_and_then items_of (at parts.now target.now)) }
{
    match get_in(target, parts) {
        Some(found) => is_list(found),
        None => false,
    }
}

fn is_list(value: &Value) -> bool
    ensures { result ≡ is_some (items_of value.now) }
{
    match value {
        Value::List(_) => true,
        Value::Null
        | Value::Bool(_)
        | Value::Num(_)
        | Value::Text(_)
        | Value::Time(_)
        | Value::Object(_) => false,
    }
}
