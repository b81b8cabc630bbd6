// What taking the value at the end of the parts of a path would leave.
ghost use Rattle.std.specs.Prelude.{◌≡◌, ◌≤◌, ◌<◌, ◌+◌, ◌-◌, ◌^◌, ◌∷◌, length, remove, Some};
ghost use Rattle.event_tree.specs.Growth.{room_at_end};
ghost use Rattle.event_tree.specs.Paths.{take};
ghost use Rattle.event_tree.specs.Outcomes.{Finds, RoomBehind};
ghost use Rattle.event_tree.specs.Sizes.{size};
ghost use Rattle.event_tree.specs.declared.value.Value.TheVariants as v;

use crate::measure::{room_after_member, room_after_parts, room_at, room_without, size_of};
use crate::place::place_in;
use crate::value::Value;
use plain_data::{Fields, Items, Text};

/// A value that could be taken, and by how many bytes the encoding would be shorter without it and
/// its key.
#[derive(Clone, Copy)]
pub(crate) struct FoundValue<'v> {
    pub(crate) value: &'v Value,
    pub(crate) bytes: u64,
}

/// What a `take` at the end of the parts would take.
#[cycle(find)]
pub(crate) fn find<'v>(target: &'v Value, parts: &[Text]) -> Option<FoundValue<'v>>
    requires { size target.now ≤ 16777220 }
    ensures { Finds result (take parts.now target.now) target.now }
{
    let (part, rest) = parts.split_first()?;
    match target {
        Value::Object(fields) => find_field(fields, part, rest),
        Value::List(items) => find_item(items, part, rest),
        _ => None,
    }
}

#[cycle(find)]
fn find_field<'v>(fields: &'v Fields<Value>, part: &Text, rest: &[Text]) -> Option<FoundValue<'v>>
    requires { size (v.Object fields.now) ≤ 16777220 }
    ensures { Finds result (take (part.now ∷ rest.now) (v.Object fields.now))
        (v.Object fields.now) }
{
    let value = fields.get(part.as_str())?;
    if rest.is_empty() {
        let bytes = size_of(value) + 4 + part.len() as u64;
        return Some(FoundValue { value, bytes });
    }
    find(value, rest)
}

#[cycle(find)]
fn find_item<'v>(items: &'v Items<Value>, part: &Text, rest: &[Text]) -> Option<FoundValue<'v>>
    requires { size (v.List items.now) ≤ 16777220 }
    ensures { Finds result (take (part.now ∷ rest.now) (v.List items.now)) (v.List items.now) }
{
    let value = items.get(place_in(part.as_str(), items.len())?)?;
    if rest.is_empty() {
        let bytes = size_of(value);
        return Some(FoundValue { value, bytes });
    }
    find(value, rest)
}

/// The room for a value at the end of the parts `to`, as `room_at` says it, once what stands at the
/// end of the parts `from` is taken away, which frees so many bytes: there is then `room` beside all
/// that is left.
#[cycle(behind)]
pub(crate) fn room_behind(
    target: &Value,
    from: &[Text],
    to: &[Text],
    room: u64,
    freed: u64,
) -> Option<Option<u64>>
    requires room { room + size target.now < 2 ^ 64 }
    requires freed { freed ≤ room }
    ensures { RoomBehind result (take from.now target.now) room freed to.now target.now }
{
    let Some((part, rest)) = to.split_first() else {
        return Some(room_without(target, room - freed));
    };
    let (gone, more) = from.split_first()?;
    match target {
        Value::Object(fields) => room_behind_field(fields, gone, more, part, rest, room, freed),
        Value::List(items) => room_behind_item(items, gone, more, part, rest, room, freed),
        _ => None,
    }
}

#[cycle(behind)]
fn room_behind_field(
    fields: &Fields<Value>,
    gone: &Text,
    more: &[Text],
    part: &Text,
    rest: &[Text],
    room: u64,
    freed: u64,
) -> Option<Option<u64>>
    requires room { room + size (v.Object fields.now) < 2 ^ 64 }
    requires freed { freed ≤ room }
    ensures { RoomBehind result (take (gone.now ∷ more.now) (v.Object fields.now)) room freed
        (part.now ∷ rest.now) (v.Object fields.now) }
{
    // Whoever reads the members knows that their keys rise.
    let _members = fields.members();
    if part == gone {
        if more.is_empty() {
            return Some(room_after_member(part, rest, room));
        }
        return room_behind(fields.get(part.as_str())?, more, rest, room, freed);
    }
    match fields.get(part.as_str()) {
        Some(inner) => room_at(inner, rest, room),
        None => Some(room_after_member(part, rest, room)),
    }
}

#[cycle(behind)]
fn room_behind_item(
    items: &Items<Value>,
    gone: &Text,
    more: &[Text],
    part: &Text,
    rest: &[Text],
    room: u64,
    freed: u64,
) -> Option<Option<u64>>
    requires room { room + size (v.List items.now) < 2 ^ 64 }
    requires freed { freed ≤ room }
    ensures { RoomBehind result (take (gone.now ∷ more.now) (v.List items.now)) room freed
        (part.now ∷ rest.now) (v.List items.now) }
{
    let index = place_in(gone.as_str(), items.len())?;
    if more.is_empty() {
        return room_in_closed(items, index, part, rest, room);
    }
    let place = place_in(part.as_str(), items.len())?;
    if place == index {
        return room_behind(items.get(index)?, more, rest, room, freed);
    }
    match items.get(place) {
        Some(inner) => room_at(inner, rest, room),
        None => Some(room_after_parts(rest, room)),
    }
}

// The room in a list that closed up where the item at this place was.
fn room_in_closed(
    items: &Items<Value>,
    gone: usize,
    part: &Text,
    rest: &[Text],
    room: u64,
) -> Option<Option<u64>>
    requires { room + size (v.List items.now) < 2 ^ 64 }
    ensures { gone < length items.now
        → result ≡ room_at_end room (part.now ∷ rest.now) (v.List (remove items.now gone)) }
{
    if gone >= items.len() {
        return None;
    }
    let index = place_in(part.as_str(), items.len() - 1)?;
    let before = if index < gone { index } else { index + 1 };
    match items.get(before) {
        Some(inner) => room_at(inner, rest, room),
        None => Some(room_after_parts(rest, room)),
    }
}
