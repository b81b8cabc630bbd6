// From bytes to a value.
ghost use Rattle.std.specs.Prelude.{◌≡◌, [], ◌∷◌, ◌++◌, length, OnOk, IfOk, IfErr};
ghost use Rattle.std.specs.Str.{IsAscii};
ghost use Rattle.event_json.specs.Numbers.{number_of as computed_number, number_value as value_of_number};
ghost use Rattle.event_json.specs.Reading.{skip as skipped, number_at, scalar_at, after_word as behind_word, key_at, after_colon as behind_colon, entry_at, spaced_at, item_at, member_at, elements_at, list_at, object_at, node_at, read as read_all};
ghost use Rattle.plain_data.specs.Members.{insert_member};
ghost use Rattle.event_json.specs.JsonValues.{JsonWithin};
ghost use Rattle.event_tree.specs.declared.value.Value.{Value};
ghost use Rattle.event_json.specs.Stops.{Gives, items_at, members_at, fault_at};
ghost use Rattle.event_json.specs.Faults.{IsFault, IsOnly};
ghost use Rattle.event_json.specs.Gathered.{put_all};

use crate::fault::{JsonFault, JsonStop};
use crate::front::{after_byte, rest_of};
use crate::scan::{after_word, number_end, skip, stopped};
use crate::string::string;
use event_tree::{Fields, Items, Number, Text, Value};
use std::alloc::{AllocError, Global};

// Keys with their values, of which some may be equal.
type JsonMembers = Vec<(Text, Value)>;

// The text behind blanks.
fn unspaced(text: &str) -> &str
    ensures { result.now ≡ skipped text.now }
{
    rest_of(text, skip(text.as_bytes()))
}

/// The number that a text writes, as [`Number::read`] reads it. It takes no memory.
// It is in least form already, and making it from its parts tells proofs so.
pub fn number_of(text: &str) -> Option<Number>
    ensures { result ≡ computed_number text.now }
{
    match Number::read(text) {
        Some(number) => Number::new(number.mantissa(), number.scale()),
        None => None,
    }
}

// The value of a number's spelling.
fn number_value(alloc: Global, spelling: &str) -> Result<Value, AllocError>
    ensures { IfOk result (λ value. value ≡ value_of_number spelling.now) }
{
    match number_of(spelling) {
        Some(number) => Ok(Value::Num(number)),
        None => Ok(Value::Text(Text::of(alloc, spelling)?)),
    }
}

#[tactic(auto, unfolding(crate::specs::Reading::number_at))]
fn number(alloc: Global, text: &str) -> Result<(Value, &str), JsonStop>
    ensures { Gives (λ x. (x.0, x.1.now)) result (number_at text.now) }
{
    let rest = number_end(text.as_bytes())?;
    let value = number_value(alloc, &text[..text.len() - rest.len()])?;
    Ok((value, rest_of(text, rest)))
}

fn word<'t>(text: &'t str, word: &[u8]) -> Result<&'t str, JsonStop>
    requires { IsAscii word.now }
    ensures { Gives (λ x. x.now) result (behind_word word.now text.now) }
{
    let rest = after_word(text.as_bytes(), word)?;
    Ok(rest_of(text, rest))
}

// A literal or a number.
fn scalar(alloc: Global, text: &str) -> Result<(Value, &str), JsonStop>
    ensures { Gives (λ x. (x.0, x.1.now)) result (scalar_at text.now) }
{
    let Some((first, _)) = text.as_bytes().split_first() else {
        return Err(stopped(text.as_bytes()));
    };
    if *first == b'n' {
        return Ok((Value::Null, word(text, b"null")?));
    }
    if *first == b't' {
        return Ok((Value::Bool(true), word(text, b"true")?));
    }
    if *first == b'f' {
        return Ok((Value::Bool(false), word(text, b"false")?));
    }
    number(alloc, text)
}

fn key(alloc: Global, text: &str) -> Result<(Text, &str), JsonStop>
    ensures { Gives (λ x. (x.0, x.1.now)) result (key_at text.now) }
{
    match after_byte(text, b'"') {
        Some(rest) => string(alloc, rest),
        None => Err(stopped(text.as_bytes())),
    }
}

fn after_colon(text: &str) -> Result<&str, JsonStop>
    ensures { Gives (λ x. x.now) result (behind_colon text.now) }
{
    match after_byte(text, b':') {
        Some(rest) => Ok(rest),
        None => Err(stopped(text.as_bytes())),
    }
}

// Adds a pair behind the others.
fn add_pair(pairs: &mut JsonMembers, key: Text, value: Value) -> Result<(), AllocError>
    ensures { OnOk result (pairs.new.items ≡ pairs.old.items ++ (key, value) ∷ []) }
{
    pairs.push((key, value))?;
    Ok(())
}

// Of two equal keys the last one's value stands.
fn put_last(found: &mut Fields<Value>, key: Text, value: Value) -> Result<(), AllocError>
    ensures { OnOk result (found.new ≡ insert_member key value found.old) }
{
    if found.is_below(key.as_str()) {
        return found.push(key, value);
    }
    found.insert(key, value)?;
    Ok(())
}

// The members that these pairs are, of which the last with a key stands. They are sorted once, so that
// each goes behind those before it.
fn gathered(pairs: JsonMembers) -> Result<Fields<Value>, AllocError>
    ensures { IfOk result (λ fields. fields ≡ put_all [] pairs.items) }
{
    let mut sorted = pairs;
    sorted.sort_by(|one, other| one.0.cmp(&other.0))?;
    let mut found = Fields::with_capacity(*sorted.allocator(), sorted.len())?;
    for (key, value) in sorted {
        put_last(&mut found, key, value)?;
    }
    Ok(found)
}

// A value whose arrays and objects nest no deeper than `levels`.
#[cycle(read)]
fn node(alloc: Global, text: &str, levels: usize) -> Result<(Value, &str), JsonStop>
    ensures { Gives (λ x. (x.0, x.1.now)) result (node_at levels text.now) }
{
    if let Some(rest) = after_byte(text, b'"') {
        let (found, rest) = string(alloc, rest)?;
        return Ok((Value::Text(found), rest));
    }
    if let Some(rest) = after_byte(text, b'[') {
        if levels == 0 {
            return Err(JsonStop::Deep(text.len()));
        }
        return list(alloc, rest, levels - 1);
    }
    if let Some(rest) = after_byte(text, b'{') {
        if levels == 0 {
            return Err(JsonStop::Deep(text.len()));
        }
        return object(alloc, rest, levels - 1);
    }
    scalar(alloc, text)
}

#[cycle(read)]
fn spaced(alloc: Global, text: &str, levels: usize) -> Result<(Value, &str), JsonStop>
    ensures { Gives (λ x. (x.0, x.1.now)) result (spaced_at (node_at levels) text.now) }
{
    let (value, rest) = node(alloc, unspaced(text), levels)?;
    Ok((value, unspaced(rest)))
}

#[cycle(read)]
fn list(alloc: Global, text: &str, levels: usize) -> Result<(Value, &str), JsonStop>
    ensures { Gives (λ x. (x.0, x.1.now)) result (list_at (node_at levels) text.now) }
{
    let inside = unspaced(text);
    if let Some(rest) = after_byte(inside, b']') {
        return Ok((Value::List(Items::new(alloc)), rest));
    }
    let (found, rest) = items(alloc, inside, levels)?;
    Ok((Value::List(found), rest))
}

#[cycle(read)]
fn items(alloc: Global, text: &str, levels: usize) -> Result<(Items<Value>, &str), JsonStop>
    ensures { Gives (λ x. (x.0, x.1.now)) result (items_at levels text.now) }
{
    let mut found = Items::new(alloc);
    let mut rest = text;
    for _ in 0..text.len() {
        let (item, after) = spaced(alloc, rest, levels)?;
        found.push(item)?;
        if let Some(behind) = after_byte(after, b']') {
            return Ok((found, behind));
        }
        let Some(more) = after_byte(after, b',') else {
            return Err(stopped(after.as_bytes()));
        };
        rest = more;
    }
    Err(stopped(rest.as_bytes()))
}

#[cycle(read)]
fn object(alloc: Global, text: &str, levels: usize) -> Result<(Value, &str), JsonStop>
    ensures { Gives (λ x. (x.0, x.1.now)) result (object_at (node_at levels) text.now) }
{
    let inside = unspaced(text);
    if let Some(rest) = after_byte(inside, b'}') {
        return Ok((Value::Object(Fields::new(alloc)), rest));
    }
    let (pairs, rest) = members(alloc, inside, levels)?;
    Ok((Value::Object(gathered(pairs)?), rest))
}

// The pairs of an object, up to its end, in the order of the text.
#[cycle(read)]
fn members(alloc: Global, text: &str, levels: usize) -> Result<(JsonMembers, &str), JsonStop>
    ensures { Gives (λ x. (put_all [] x.0.items, x.1.now)) result (members_at levels text.now) }
{
    let mut found = Vec::new(alloc);
    let mut rest = text;
    for _ in 0..text.len() {
        let (key, value, after) = entry(alloc, rest, levels)?;
        add_pair(&mut found, key, value)?;
        if let Some(behind) = after_byte(after, b'}') {
            return Ok((found, behind));
        }
        let Some(more) = after_byte(after, b',') else {
            return Err(stopped(after.as_bytes()));
        };
        rest = more;
    }
    Err(stopped(rest.as_bytes()))
}

#[cycle(read)]
fn entry(alloc: Global, text: &str, levels: usize) -> Result<(Text, Value, &str), JsonStop>
    ensures { Gives (λ x. ((x.0, x.1), x.2.now)) result (entry_at (node_at levels) text.now) }
{
    let (key, rest) = key(alloc, unspaced(text))?;
    let rest = after_colon(unspaced(rest))?;
    let (value, rest) = spaced(alloc, rest, levels)?;
    Ok((key, value, rest))
}

#[tactic(auto, unfolding(crate::specs::Reading::read))]
fn read_text(alloc: Global, text: &str, levels: usize) -> Result<Value, JsonStop>
    ensures { Gives (λ value. value) result (read_all levels text.now) }
{
    let (value, rest) = spaced(alloc, text, levels)?;
    if rest.is_empty() {
        Ok(value)
    } else {
        Err(stopped(rest.as_bytes()))
    }
}

// A place from the front of so many bytes, for one from their end.
fn fault_of(stop: JsonStop, length: usize) -> JsonFault
    ensures { result ≡ fault_at stop length }
{
    match stop {
        JsonStop::Memory => JsonFault::Memory,
        JsonStop::At(left) => JsonFault::At(length.saturating_sub(left)),
        JsonStop::Deep(left) => JsonFault::Deep(length.saturating_sub(left)),
    }
}

/// Reads a JSON text (RFC 8259) whose arrays and objects nest at most 100 deep.
///
/// A number that `Number::read` refuses becomes the text of its spelling. Of two equal keys the last
/// one's value stands. An escaped surrogate without its partner reads as U+FFFD.
///
/// Bytes that are no UTF-8 are `NotUtf8`, which is tested first. Reading then goes once over the
/// text, copies what a string has between escapes as a whole, sorts the keys of each object once, and
/// recurses once for each level. It takes memory for the value, and for the pairs of the objects that
/// are open.
pub fn read_json(alloc: Global, bytes: &[u8]) -> Result<Value, JsonFault>
    // What is read is a JSON text of that value, of at most 100 levels.
    ensures found { IfOk result (λ value. JsonWithin 100 bytes.now value) }
    // Each such text is read, with its one value, unless memory runs out.
    ensures only { (d : Value) → JsonWithin 100 bytes.now d → IsOnly d result }
    // Other bytes have the fault that is theirs.
    ensures fault { IfErr result (IsFault 100 bytes.now) }
{
    let text = match str::from_utf8(bytes) {
        Ok(text) => text,
        Err(error) => return Err(JsonFault::NotUtf8(error.valid_up_to())),
    };
    match read_text(alloc, text, 100) {
        Ok(value) => Ok(value),
        Err(stop) => Err(fault_of(stop, bytes.len())),
    }
}
