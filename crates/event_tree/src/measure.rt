// How deep and how large values are, as far as a limit.
ghost use Rattle.std.specs.Prelude.{◌≡◌, ◌<◌, ◌≤◌, ◌+◌, ◌^◌, length, nat_le, nat_lt, true, IfSome};
ghost use Rattle.plain_data.specs.Members.{Rises};
ghost use Rattle.plain_data.specs.Calendar.{IsMoment};
ghost use Rattle.event_tree.specs.Values.{depth, items_depth, members_depth};
ghost use Rattle.event_tree.specs.Sound.{are_texts, is_number, sound, items_sound, members_sound};
ghost use Rattle.event_tree.specs.Sizes.{size, items_size, members_size, less};
ghost use Rattle.event_tree.specs.Paths.{wrap_size};
ghost use Rattle.event_tree.specs.Growth.{room_at_end, TextsWhereRoom};

use crate::number::Number;
use crate::place::place_in;
use crate::value::Value;
use plain_data::{Instant, Text};

fn take_room(room: u64, bytes: u64) -> Option<u64>
    ensures { result ≡ less room bytes }
{
    if bytes <= room {
        Some(room - bytes)
    } else {
        None
    }
}

/// How many bytes the encoding of a number has. Whoever reads a number knows that it is one of 64
/// bits in least form.
fn number_size(number: &Number) -> u64
    ensures size { result ≡ 10 }
    ensures sound { is_number number.now ≡ true }
{
    let _mantissa = number.mantissa();
    let _scale = number.scale();
    10
}

/// How many bytes the encoding of a time has. Whoever reads a time knows that it lies in its years.
fn time_size(moment: &Instant) -> u64
    ensures size { result ≡ 13 }
    ensures moment { IsMoment moment.now }
{
    let _nanos = moment.nanos();
    13
}

/// The room that the encoding of a value leaves, if there is enough.
#[tactic(auto, using(crate::proofs::Depths::falls, crate::proofs::Sizes::sizes, crate::proofs::Sounds::sounds))]
#[cycle(room)]
pub(crate) fn room_after(value: &Value, room: u64) -> Option<u64>
    ensures room { result ≡ less room (size value.now) }
    ensures sound { IfSome result (λ _. sound value.now ≡ true) }
{
    match value {
        Value::Null => take_room(room, 1),
        Value::Bool(_) => take_room(room, 1),
        Value::Num(number) => take_room(room, number_size(number)),
        Value::Text(text) => take_room(take_room(room, 5)?, text.as_str().len() as u64),
        Value::Time(moment) => take_room(room, time_size(moment)),
        Value::List(items) => room_after_items(items.as_slice(), take_room(room, 5)?),
        Value::Object(fields) => room_after_members(fields.members(), take_room(room, 5)?),
    }
}

#[tactic(auto, using(crate::proofs::Depths::falls, crate::proofs::Sizes::sizes, crate::proofs::Sounds::sounds))]
#[cycle(room)]
fn room_after_items(items: &[Value], room: u64) -> Option<u64>
    ensures room { result ≡ less room (items_size items.now) }
    ensures sound { IfSome result (λ _. items_sound items.now ≡ true) }
{
    let mut left = room;
    for item in items {
        left = room_after(item, left)?;
    }
    Some(left)
}

#[tactic(auto, using(crate::proofs::Depths::falls, crate::proofs::Sizes::sizes, crate::proofs::Sounds::sounds))]
#[cycle(room)]
pub(crate) fn room_after_members(members: &[(Text, Value)], room: u64) -> Option<u64>
    requires { Rises members.now }
    ensures room { result ≡ less room (members_size members.now) }
    ensures sound { IfSome result (λ _. members_sound members.now ≡ true) }
{
    let mut left = room;
    for member in members {
        left = take_room(take_room(left, 4)?, member.0.as_str().len() as u64)?;
        left = room_after(&member.1, left)?;
    }
    Some(left)
}

/// What is left of `whole` bytes without the encoding of a value that is among them.
pub(crate) fn size_without(value: &Value, whole: u64) -> u64
    requires { size value.now ≤ whole }
    ensures { result + size value.now ≡ whole }
{
    match room_after(value, whole) {
        Some(left) => left,
        None => unreachable!(),
    }
}

/// How many bytes the encoding of a value has.
pub(crate) fn size_of(value: &Value) -> u64
    requires { size value.now < 2 ^ 64 }
    ensures { result ≡ size value.now }
{
    u64::MAX - size_without(value, u64::MAX)
}

/// Whether a value nests at most so many levels deep.
#[tactic(auto, using(crate::proofs::Depths::falls, crate::proofs::Depths::flat))]
#[cycle(nests)]
pub(crate) fn is_within_depth(value: &Value, levels: u64) -> bool
    ensures { result ≡ nat_le (depth value.now) levels }
{
    match value {
        Value::List(items) => levels > 0 && items_within_depth(items.as_slice(), levels - 1),
        Value::Object(fields) => levels > 0 && members_within_depth(fields.members(), levels - 1),
        Value::Null | Value::Bool(_) | Value::Num(_) | Value::Text(_) | Value::Time(_) => true,
    }
}

#[tactic(auto, using(crate::proofs::Depths::falls, crate::proofs::Depths::flat))]
#[cycle(nests)]
fn items_within_depth(items: &[Value], levels: u64) -> bool
    ensures { result ≡ nat_le (items_depth items.now) levels }
{
    for item in items {
        if !is_within_depth(item, levels) {
            return false;
        }
    }
    true
}

#[tactic(auto, using(crate::proofs::Depths::falls, crate::proofs::Depths::flat))]
#[cycle(nests)]
fn members_within_depth(members: &[(Text, Value)], levels: u64) -> bool
    ensures { result ≡ nat_le (members_depth members.now) levels }
{
    for member in members {
        if !is_within_depth(&member.1, levels) {
            return false;
        }
    }
    true
}

/// How many levels of lists and objects an event may have, its two objects being the first.
const MOST_LEVELS: usize = 128;

/// Whether a value inside so many objects and lists nests too deep for an event.
pub(crate) fn is_too_deep(value: &Value, levels: usize) -> bool
    ensures { result ≡ nat_lt 128 (levels + depth value.now) }
{
    levels > MOST_LEVELS || !is_within_depth(value, (MOST_LEVELS - levels) as u64)
}

/// The room that new objects leave, one for each part, without the value in the innermost.
#[tactic(auto, using(crate::proofs::Sounds::texts))]
pub(crate) fn room_after_parts(parts: &[Text], room: u64) -> Option<u64>
    ensures room { result ≡ less room (wrap_size parts.now) }
    ensures texts { IfSome result (λ _. are_texts parts.now ≡ true) }
{
    let mut left = room;
    for part in parts {
        left = take_room(take_room(left, 9)?, part.as_str().len() as u64)?;
    }
    Some(left)
}

/// The room for a value at the end of the parts, where there is `room` beside all that stands: the
/// value that it replaces makes room, and new keys and objects take it. `None` where the parts lead
/// through neither object nor list, and `Some(None)` where there is not enough room for them.
#[tactic(auto, using(crate::proofs::Sounds::texts))]
pub(crate) fn room_at(target: &Value, parts: &[Text], room: u64) -> Option<Option<u64>>
    requires { room + size target.now < 2 ^ 64 }
    ensures room { result ≡ room_at_end room parts.now target.now }
    ensures texts { TextsWhereRoom result parts.now }
{
    let Some((part, rest)) = parts.split_first() else {
        return Some(room_without(target, room));
    };
    match target {
        Value::Object(fields) => match fields.get(part.as_str()) {
            Some(inner) => room_at(inner, rest, room),
            None => Some(room_after_member(part, rest, room)),
        },
        Value::List(items) => match items.get(place_in(part.as_str(), items.len())?) {
            Some(inner) => room_at(inner, rest, room),
            None => Some(room_after_parts(rest, room)),
        },
        _ => None,
    }
}

/// The room where a value is taken away.
pub(crate) fn room_without(value: &Value, room: u64) -> Option<u64>
    requires { room + size value.now < 2 ^ 64 }
    ensures { result ≡ less (room + size value.now) 0 }
{
    let left = room_after(value, u64::MAX - room)?;
    Some(u64::MAX - left)
}

/// The room that a new member leaves, without the value in the innermost of its objects.
pub(crate) fn room_after_member(part: &Text, rest: &[Text], room: u64) -> Option<u64>
    ensures room { result ≡ less room (4 + length part.now + wrap_size rest.now) }
    ensures texts { IfSome result (λ _. are_texts rest.now ≡ true) }
{
    room_after_parts(rest, take_room(take_room(room, 4)?, part.len() as u64)?)
}
