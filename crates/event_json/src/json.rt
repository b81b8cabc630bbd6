// Writing a value as compact JSON.
ghost use Rattle.std.specs.Prelude.{◌≡◌, ◌<◌, ◌≤◌, length, ◌++◌, OnOk, OnErr, IsUtf8, true};
ghost use Rattle.plain_data.specs.Calendar.{IsMoment};
ghost use Rattle.event_tree.specs.Sound.{is_number, sound, items_sound, members_sound};
ghost use Rattle.event_json.specs.Untimed.{ReadsBack};
ghost use Rattle.event_json.specs.Json.{json, quoted, quoted_time, escaped, items_text, members_text, comma_if, number_text, sign_of, pointed_digits, zeros, hex_digit};
ghost use Rattle.event_tree.specs.Adds.{Adds, Keeps};

use crate::string::run_length;
use crate::time::time_text;
use event_tree::{Number, Text, Value};
use itoa::Buffer;
use plain_data::Instant;
use std::alloc::AllocError;

/// Appends the one compact JSON text of a value (RFC 8259): no blanks, keys in byte order, a time
/// as its text in quotes, a number as its decimal text.
///
/// Want of memory leaves the bytes as they were. Bytes that are UTF-8 are so with the text behind
/// them. Where lists and objects nest at most 100 deep, `read_json` reads the text as the value, with
/// the text of each time in its place.
pub fn write_json(value: &Value, to: &mut Vec<u8>) -> Result<(), AllocError>
    ensures ok { OnOk result (to.new.items ≡ to.old.items ++ json value.now) }
    ensures err { OnErr result (to.new.items ≡ to.old.items) }
    ensures utf8 { IsUtf8 to.old.items → OnOk result (IsUtf8 to.new.items) }
    ensures reads_back { OnOk result (ReadsBack value.now) }
{
    let length = to.len();
    let written = add_value(to, value);
    if written.is_err() {
        to.truncate(length);
    }
    written
}

#[tactic(auto, using(event_tree::proofs::Depths::falls, event_tree::proofs::Sounds::sounds, crate::proofs::Jsons::jsons))]
#[cycle(write)]
fn add_value(to: &mut Vec<u8>, value: &Value) -> Result<(), AllocError>
    ensures ok { OnOk result (Adds (json value.now) to.old.items to.new.items) }
    ensures err { OnErr result (Keeps to.old.items to.new.items) }
    ensures sound { OnOk result (sound value.now ≡ true) }
{
    match value {
        Value::Null => add_text(to, "null"),
        Value::Bool(true) => add_text(to, "true"),
        Value::Bool(false) => add_text(to, "false"),
        Value::Num(number) => add_number(to, number),
        Value::Text(text) => add_quoted(to, text.as_str()),
        Value::Time(moment) => add_time(to, *moment),
        Value::List(items) => {
            add_text(to, "[")?;
            add_items(to, items.as_slice())
        }
        Value::Object(fields) => {
            add_text(to, "{")?;
            add_members(to, fields.members())
        }
    }
}

#[tactic(auto, using(event_tree::proofs::Depths::falls, event_tree::proofs::Sounds::sounds, crate::proofs::Jsons::jsons))]
#[cycle(write)]
fn add_items(to: &mut Vec<u8>, items: &[Value]) -> Result<(), AllocError>
    ensures ok { OnOk result (Adds (items_text items.now) to.old.items to.new.items) }
    ensures err { OnErr result (Keeps to.old.items to.new.items) }
    ensures sound { OnOk result (items_sound items.now ≡ true) }
{
    let mut later = false;
    for item in items {
        add_comma(to, later)?;
        add_value(to, item)?;
        later = true;
    }
    add_text(to, "]")
}

#[tactic(auto, using(event_tree::proofs::Depths::falls, event_tree::proofs::Sounds::sounds, crate::proofs::Jsons::jsons))]
#[cycle(write)]
fn add_members(to: &mut Vec<u8>, members: &[(Text, Value)]) -> Result<(), AllocError>
    ensures ok { OnOk result (Adds (members_text members.now) to.old.items to.new.items) }
    ensures err { OnErr result (Keeps to.old.items to.new.items) }
    ensures sound { OnOk result (members_sound members.now ≡ true) }
{
    let mut later = false;
    for member in members {
        add_comma(to, later)?;
        add_quoted(to, member.0.as_str())?;
        add_text(to, ":")?;
        add_value(to, &member.1)?;
        later = true;
    }
    add_text(to, "}")
}

fn add_comma(to: &mut Vec<u8>, later: bool) -> Result<(), AllocError>
    ensures ok { OnOk result (Adds (comma_if later) to.old.items to.new.items) }
    ensures err { OnErr result (Keeps to.old.items to.new.items) }
{
    if later { add_text(to, ",") } else { Ok(()) }
}

fn add_quoted(to: &mut Vec<u8>, text: &str) -> Result<(), AllocError>
    ensures ok { OnOk result (Adds (quoted text.now) to.old.items to.new.items) }
    ensures err { OnErr result (Keeps to.old.items to.new.items) }
{
    add(to, b"\"")?;
    let mut rest = text.as_bytes();
    loop {
        let count = run_length(rest);
        add(to, &rest[..count])?;
        if count == rest.len() {
            return add(to, b"\"");
        }
        add_escaped(to, rest[count])?;
        rest = &rest[count + 1..];
    }
}

fn add_escaped(to: &mut Vec<u8>, byte: u8) -> Result<(), AllocError>
    ensures ok { OnOk result (Adds (escaped byte) to.old.items to.new.items) }
    ensures err { OnErr result (Keeps to.old.items to.new.items) }
{
    match byte {
        b'"' => add(to, b"\\\""),
        b'\\' => add(to, b"\\\\"),
        b'\x08' => add(to, b"\\b"),
        b'\t' => add(to, b"\\t"),
        b'\n' => add(to, b"\\n"),
        b'\x0C' => add(to, b"\\f"),
        b'\r' => add(to, b"\\r"),
        0..=31 => add(
            to,
            &[b'\\', b'u', b'0', b'0', hex(byte / 16), hex(byte % 16)],
        ),
        _ => add(to, &[byte]),
    }
}

/// A digit in base 16.
fn hex(n: u8) -> u8
    requires { n < 16 }
    ensures { result ≡ hex_digit n }
{
    if n < 10 { b'0' + n } else { b'a' - 10 + n }
}

fn add_time(to: &mut Vec<u8>, moment: Instant) -> Result<(), AllocError>
    ensures ok { OnOk result (Adds (quoted_time moment) to.old.items to.new.items) }
    ensures err { OnErr result (Keeps to.old.items to.new.items) }
    ensures moment { IsMoment moment }
{
    let (text, length) = time_text(moment);
    add(to, b"\"")?;
    add(to, &text[..length])?;
    add(to, b"\"")
}

fn add_number(to: &mut Vec<u8>, number: &Number) -> Result<(), AllocError>
    ensures ok { OnOk result (Adds (number_text number.now) to.old.items to.new.items) }
    ensures err { OnErr result (Keeps to.old.items to.new.items) }
    ensures sound { is_number number.now ≡ true }
{
    let places = number.scale() as usize;
    add_sign(to, number.mantissa())?;
    let mut buffer = Buffer::new();
    let digits = buffer.format(number.mantissa().unsigned_abs());
    add_pointed(to, digits.as_bytes(), places)
}

fn add_sign(to: &mut Vec<u8>, number: i64) -> Result<(), AllocError>
    ensures ok { OnOk result (Adds (sign_of number) to.old.items to.new.items) }
    ensures err { OnErr result (Keeps to.old.items to.new.items) }
{
    if number < 0 { add(to, b"-") } else { Ok(()) }
}

/// Adds the digits with a point before the last `places` of them, and zeros in front where they are
/// too few.
fn add_pointed(to: &mut Vec<u8>, digits: &[u8], places: usize) -> Result<(), AllocError>
    requires few { places ≤ 18 }
    requires some { 0 < length digits.now }
    ensures ok { OnOk result (Adds (pointed_digits places digits.now) to.old.items to.new.items) }
    ensures err { OnErr result (Keeps to.old.items to.new.items) }
{
    if places == 0 {
        return add(to, digits);
    }
    if digits.len() <= places {
        add(to, b"0.")?;
        add_zeros(to, places - digits.len())?;
        return add(to, digits);
    }
    let (whole, fraction) = digits.split_at(digits.len() - places);
    add(to, whole)?;
    add(to, b".")?;
    add(to, fraction)
}

fn add_zeros(to: &mut Vec<u8>, count: usize) -> Result<(), AllocError>
    requires { count ≤ 18 }
    ensures ok { OnOk result (Adds (zeros count) to.old.items to.new.items) }
    ensures err { OnErr result (Keeps to.old.items to.new.items) }
{
    add(to, &b"000000000000000000"[..count])
}

fn add(to: &mut Vec<u8>, bytes: &[u8]) -> Result<(), AllocError>
    ensures ok { OnOk result (Adds bytes.now to.old.items to.new.items) }
    ensures err { OnErr result (Keeps to.old.items to.new.items) }
{
    to.extend_from_slice(bytes)?;
    Ok(())
}

fn add_text(to: &mut Vec<u8>, text: &str) -> Result<(), AllocError>
    ensures ok { OnOk result (Adds text.now to.old.items to.new.items) }
    ensures err { OnErr result (Keeps to.old.items to.new.items) }
{
    add(to, text.as_bytes())
}
