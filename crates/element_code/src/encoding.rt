// The encoding of an event: one spelling for each.
ghost use Rattle.std.specs.Prelude.{◌≡◌, ◌∷◌, ◌++◌, length, OnOk, OnErr};
ghost use Rattle.event_tree.specs.Events.{IsEvent, event_size};
ghost use Rattle.crc_frame.specs.Fronts.{count_bytes, run_bytes};
ghost use Rattle.element_code.specs.Parts.{number_tag, text_tag, time_tag, bytes_of, number_bytes, time_bytes, items_bytes, members_bytes, object_parts, spelling, event_spelling};
ghost use Rattle.element_code.specs.Values.{IsWhole};
ghost use Rattle.element_code.specs.Adds.{Writes};

use crate::tags;
use byteorder::{BigEndian, ByteOrder};
use event_tree::{Event, Instant, Items, Number, Text, Value};
use std::alloc::AllocError;

/// Appends the one spelling of an event, whose length is the size that the event keeps; `decode` reads
/// it as the same event. Want of memory leaves the bytes as they were.
///
/// It asks for memory once, and walks the event once, with at most 128 levels of recursion.
pub fn encode(event: &Event, to: &mut Vec<u8>) -> Result<(), AllocError>
    ensures ok { OnOk result (to.new.items ≡ to.old.items ++ event_spelling event.now) }
    ensures err { OnErr result (to.new.items ≡ to.old.items) }
    ensures size { length (event_spelling event.now) ≡ event_size event.now }
    ensures event { IsEvent event.now }
    ensures whole { IsWhole event.now }
{
    to.reserve(event.size() as usize)?;
    let length = to.len();
    let written = add_event(to, event);
    if written.is_err() {
        to.truncate(length);
    }
    written
}

#[tactic(auto, unfolding(crate::specs::Parts::event_spelling))]
pub(crate) fn add_event(to: &mut Vec<u8>, event: &Event) -> Result<(), AllocError>
    ensures { Writes result (event_spelling event.now) to.old.items to.new.items }
{
    add_object(to, event.fields())?;
    add_object(to, event.meta())
}

// One of the two objects of an event, without a tag.
fn add_object(to: &mut Vec<u8>, object: &Value) -> Result<(), AllocError>
    ensures { Writes result (bytes_of (object_parts object.now)) to.old.items to.new.items }
{
    match object {
        Value::Object(fields) => {
            add(to, &count_of(fields.len()))?;
            add_members(to, fields.members())
        }
        _ => Ok(()),
    }
}

#[tactic(auto, using(event_tree::proofs::Depths::falls, crate::proofs::Spellings::leaves))]
#[cycle(write)]
fn add_value(to: &mut Vec<u8>, value: &Value) -> Result<(), AllocError>
    ensures { Writes result (spelling value.now) to.old.items to.new.items }
{
    match value {
        Value::Null => add(to, &[tags::NULL]),
        Value::Bool(false) => add(to, &[tags::FALSE]),
        Value::Bool(true) => add(to, &[tags::TRUE]),
        Value::Num(number) => add(to, &number_of(*number)),
        Value::Text(text) => add_text(to, text.as_str()),
        Value::Time(moment) => add(to, &time_of(*moment)),
        Value::List(items) => {
            add(to, &head_of(tags::LIST, items.len()))?;
            add_items(to, items.as_slice())
        }
        Value::Object(fields) => {
            add(to, &head_of(tags::OBJECT, fields.len()))?;
            add_members(to, fields.members())
        }
    }
}

#[tactic(auto, using(event_tree::proofs::Depths::falls, crate::proofs::Spellings::leaves))]
#[cycle(write)]
fn add_items(to: &mut Vec<u8>, items: &[Value]) -> Result<(), AllocError>
    ensures { Writes result (items_bytes items.now) to.old.items to.new.items }
{
    for item in items {
        add_value(to, item)?;
    }
    Ok(())
}

#[tactic(auto, using(event_tree::proofs::Depths::falls, crate::proofs::Spellings::leaves))]
#[cycle(write)]
fn add_members(to: &mut Vec<u8>, members: &[(Text, Value)]) -> Result<(), AllocError>
    ensures { Writes result (members_bytes members.now) to.old.items to.new.items }
{
    for member in members {
        add_key(to, member.0.as_str())?;
        add_value(to, &member.1)?;
    }
    Ok(())
}

fn add_text(to: &mut Vec<u8>, text: &str) -> Result<(), AllocError>
    ensures { Writes result (text_tag ∷ run_bytes text.now) to.old.items to.new.items }
{
    add(to, &head_of(tags::TEXT, text.len()))?;
    add(to, text.as_bytes())
}

pub(crate) fn add_key(to: &mut Vec<u8>, key: &str) -> Result<(), AllocError>
    ensures { Writes result (run_bytes key.now) to.old.items to.new.items }
{
    add(to, &count_of(key.len()))?;
    add(to, key.as_bytes())
}

// A count or a length, of which the lowest four bytes are written.
#[tactic(auto, unfolding(crc_frame::specs::Fronts::count_bytes))]
fn count_of(count: usize) -> [u8; 4]
    ensures { result ≡ count_bytes count }
{
    [
        (count / 16_777_216 % 256) as u8,
        (count / 65_536 % 256) as u8,
        (count / 256 % 256) as u8,
        (count % 256) as u8,
    ]
}

// A tag, and a count or a length.
#[tactic(auto, unfolding(crc_frame::specs::Fronts::count_bytes))]
fn head_of(tag: u8, count: usize) -> [u8; 5]
    ensures { result ≡ tag ∷ count_bytes count }
{
    let [a, b, c, d] = count_of(count);
    [tag, a, b, c, d]
}

#[tactic(auto, unfolding(crate::specs::Parts::number_bytes))]
fn number_of(number: Number) -> [u8; 10]
    ensures { result ≡ number_tag ∷ number_bytes number }
{
    let mut bytes = [tags::NUMBER; 10];
    BigEndian::write_i64(&mut bytes[1..], number.mantissa());
    bytes[9] = number.scale();
    bytes
}

#[tactic(auto, unfolding(crate::specs::Parts::time_bytes))]
fn time_of(moment: Instant) -> [u8; 13]
    ensures { result ≡ time_tag ∷ time_bytes moment }
{
    let nanos = moment.nanos();
    let mut bytes = [tags::TIME; 13];
    BigEndian::write_i64(&mut bytes[1..], nanos.div_euclid(SECOND) as i64);
    BigEndian::write_u32(&mut bytes[9..], nanos.rem_euclid(SECOND) as u32);
    bytes
}

const SECOND: i128 = 1_000_000_000;

fn add(to: &mut Vec<u8>, bytes: &[u8]) -> Result<(), AllocError>
    ensures { Writes result bytes.now to.old.items to.new.items }
{
    to.extend_from_slice(bytes)?;
    Ok(())
}
