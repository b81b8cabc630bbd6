// Reading values from the front of bytes.
ghost use Rattle.std.specs.Prelude.{◌≡◌, ◌≤◌, length, Ok, IfOk, IsTrue};
ghost use Rattle.plain_data.specs.Members.{AllBelow};
ghost use Rattle.crc_frame.specs.Fronts.{front_at, number_at, repeated, run_at};
ghost use Rattle.crc_frame.specs.Gives.{Gives};
ghost use Rattle.element_code.specs.Reading.{fits, number_in, time_in, text_in, leaf_at, is_above, last_key, key_at, members_at, list_at, object_at, value_at, event_at};

use crate::tags;
use crate::utf8::text_of;
use byteorder::{BigEndian, ByteOrder};
use crc_frame::{Stop, read_front, read_run, read_u32};
use event_tree::{Event, Fields, Instant, Items, Number, Text, Value};
use std::alloc::Global;

// How many levels may nest in the two objects of an event, which are the first.
pub(crate) const INNER_LEVELS: usize = 127;

// For how many items or members room is made at once: no more than a few, since the bytes may say any
// count.
fn room_for(count: u32) -> usize
    ensures few { result ≤ 16 }
    ensures no_more { result ≤ count }
{
    (count as usize).min(16)
}

// What fits its tag, or the fault at the tag, which stands before the bytes behind it.
fn fitting_of(behind: &[u8], found: Option<Value>) -> Result<Value, Stop>
    ensures { Gives (λ x. x) result (fits behind.now found) }
{
    match found {
        Some(value) => Ok(value),
        None => Err(Stop::Left(behind.len() + 1)),
    }
}

pub(crate) fn number_from(bytes: &[u8]) -> Option<Value>
    requires { length bytes.now ≡ 9 }
    ensures { result ≡ number_in bytes.now }
{
    let mantissa = BigEndian::read_i64(bytes);
    let scale = bytes[8];
    let number = Number::new(mantissa, scale)?;
    if number.mantissa() != mantissa {
        return None;
    }
    if number.scale() != scale {
        return None;
    }
    Some(Value::Num(number))
}

pub(crate) fn time_from(bytes: &[u8]) -> Option<Value>
    requires { length bytes.now ≡ 12 }
    ensures { result ≡ time_in bytes.now }
{
    let seconds = BigEndian::read_i64(bytes) as i128;
    let nanos = BigEndian::read_u32(&bytes[8..]);
    if nanos >= 1_000_000_000 {
        return None;
    }
    let moment = Instant::from_nanos(seconds * 1_000_000_000 + nanos as i128)?;
    Some(Value::Time(moment))
}

fn text_from(alloc: Global, bytes: &[u8]) -> Result<Option<Value>, Stop>
    ensures { Gives (λ x. x) result (Ok (text_in bytes.now)) }
{
    match text_of(bytes) {
        Some(text) => Ok(Some(Value::Text(Text::of(alloc, text)?))),
        None => Ok(None),
    }
}

// A value that holds no others, behind its tag.
fn leaf_of(alloc: Global, tag: u8, rest: &[u8]) -> Result<(Value, &[u8]), Stop>
    ensures { Gives (λ x. (x.0, x.1.now)) result (leaf_at tag rest.now) }
{
    if tag == tags::NULL {
        return Ok((Value::Null, rest));
    }
    if tag == tags::FALSE {
        return Ok((Value::Bool(false), rest));
    }
    if tag == tags::TRUE {
        return Ok((Value::Bool(true), rest));
    }
    if tag == tags::NUMBER {
        let (own, behind) = read_front(rest, 9)?;
        return Ok((fitting_of(rest, number_from(own))?, behind));
    }
    if tag == tags::TEXT {
        let (own, behind) = read_run(rest)?;
        return Ok((fitting_of(rest, text_from(alloc, own)?)?, behind));
    }
    if tag == tags::TIME {
        let (own, behind) = read_front(rest, 12)?;
        return Ok((fitting_of(rest, time_from(own))?, behind));
    }
    Err(Stop::Left(rest.len() + 1))
}

// Whether a key stands above the last one, and so above all others.
fn is_next(fields: &Fields<Value>, key: &str) -> bool
    ensures decided { result ≡ is_above (last_key fields.now) key.now }
    ensures below { IsTrue result → AllBelow fields.now key.now }
{
    fields.members().is_empty() || fields.is_below(key)
}

// A key above the last one.
fn key_of<'b>(
    alloc: Global,
    fields: &Fields<Value>,
    bytes: &'b [u8],
) -> Result<(Text, &'b [u8]), Stop>
    ensures key { Gives (λ x. (x.0, x.1.now)) result (key_at (last_key fields.now) bytes.now) }
    ensures below { IfOk result (λ x. AllBelow fields.now x.0) }
{
    let (own, behind) = read_run(bytes)?;
    let fault = Stop::Left(bytes.len() - 4);
    let Some(key) = text_of(own) else {
        return Err(fault);
    };
    if !is_next(fields, key) {
        return Err(fault);
    }
    Ok((Text::of(alloc, key)?, behind))
}

// A value of at most so many levels.
#[tactic(auto, unfolding(crate::specs::Reading::value_at))]
#[cycle(read)]
fn value_of(alloc: Global, levels: usize, bytes: &[u8]) -> Result<(Value, &[u8]), Stop>
    ensures { Gives (λ x. (x.0, x.1.now)) result (value_at levels bytes.now) }
{
    let Some((tag, rest)) = bytes.split_first() else {
        return Err(Stop::Left(0));
    };
    if levels > 0 && *tag == tags::LIST {
        let (items, behind) = items_of(alloc, levels - 1, rest)?;
        return Ok((Value::List(items), behind));
    }
    if levels > 0 && *tag == tags::OBJECT {
        let (fields, behind) = fields_of(alloc, levels - 1, rest)?;
        return Ok((Value::Object(fields), behind));
    }
    leaf_of(alloc, *tag, rest)
}

#[tactic(auto, unfolding(crate::specs::Reading::list_at))]
#[cycle(read)]
fn items_of(alloc: Global, levels: usize, bytes: &[u8]) -> Result<(Items<Value>, &[u8]), Stop>
    ensures { Gives (λ x. (x.0, x.1.now)) result (list_at (value_at levels) bytes.now) }
{
    let (count, behind) = read_u32(bytes)?;
    let mut items = Items::with_capacity(alloc, room_for(count))?;
    let mut rest = behind;
    for _ in 0..count {
        let (item, after) = value_of(alloc, levels, rest)?;
        items.push(item)?;
        rest = after;
    }
    Ok((items, rest))
}

#[tactic(auto, unfolding(crate::specs::Reading::object_at))]
#[cycle(read)]
fn fields_of(alloc: Global, levels: usize, bytes: &[u8]) -> Result<(Fields<Value>, &[u8]), Stop>
    ensures { Gives (λ x. (x.0, x.1.now)) result (object_at (value_at levels) bytes.now) }
{
    let (count, behind) = read_u32(bytes)?;
    let mut fields = Fields::with_capacity(alloc, room_for(count))?;
    let mut rest = behind;
    for _ in 0..count {
        let (key, own) = key_of(alloc, &fields, rest)?;
        let (value, after) = value_of(alloc, levels, own)?;
        fields.push(key, value)?;
        rest = after;
    }
    Ok((fields, rest))
}

// The event that all of the bytes spell.
#[tactic(auto, unfolding(crate::specs::Reading::event_at))]
pub(crate) fn event_of(alloc: Global, bytes: &[u8]) -> Result<Event, Stop>
    requires { length bytes.now ≤ 16777216 }
    ensures { Gives (λ e. e) result (event_at bytes.now) }
{
    let (fields, behind) = fields_of(alloc, INNER_LEVELS, bytes)?;
    let (meta, rest) = fields_of(alloc, INNER_LEVELS, behind)?;
    if !rest.is_empty() {
        return Err(Stop::Left(rest.len()));
    }
    Ok(Event::from_objects(alloc, fields, meta, bytes.len() as u64))
}
