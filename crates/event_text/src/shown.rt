// The text that a value is shown by.
ghost use Rattle.std.specs.Prelude.{◌≡◌, IfOk};
ghost use Rattle.event_json.specs.Json.{json, comma_if};
ghost use Rattle.event_json.specs.TimeText.{time_text_of};
ghost use Rattle.event_text.specs.Adds.{AddsText};
ghost use Rattle.event_text.specs.Shown.{shown, items_shown};

use event_json::{time_text, write_json};
use event_tree::Value;
use plain_data::{Instant, Text};
use std::alloc::{AllocError, Global};
use std::mem;

/// The text that a value is shown by, where a text is wanted: null is the empty text, a text itself,
/// a time its text, a list its items' texts with a comma between, and a truth value, a number and an
/// object are shown by their JSON text.
pub fn value_text(alloc: Global, value: &Value) -> Result<Text, AllocError>
    ensures { IfOk result (λ text. text ≡ shown value.now) }
{
    let mut text = String::new(alloc);
    add_shown(&mut text, value)?;
    Ok(Text::from_string(text))
}

// Where memory ran out, what is left of `to` is of no use.
#[tactic(auto, using(event_tree::proofs::Depths::falls, crate::proofs::Shows::shows))]
#[cycle(show)]
pub(crate) fn add_shown(to: &mut String, value: &Value) -> Result<(), AllocError>
    ensures { AddsText result (shown value.now) to.old to.new }
{
    match value {
        Value::Null => Ok(()),
        Value::Text(text) => to.push_str(text.as_str()),
        Value::Time(moment) => add_time(to, *moment),
        Value::List(items) => add_items(to, items.as_slice()),
        Value::Bool(_) => add_json(to, value),
        Value::Num(_) => add_json(to, value),
        Value::Object(_) => add_json(to, value),
    }
}

#[tactic(auto, using(event_tree::proofs::Depths::falls, crate::proofs::Shows::shows))]
#[cycle(show)]
fn add_items(to: &mut String, items: &[Value]) -> Result<(), AllocError>
    ensures { AddsText result (items_shown items.now) to.old to.new }
{
    let mut later = false;
    for item in items {
        add_comma(to, later)?;
        add_shown(to, item)?;
        later = true;
    }
    Ok(())
}

fn add_comma(to: &mut String, later: bool) -> Result<(), AllocError>
    ensures { AddsText result (comma_if later) to.old to.new }
{
    if later { to.push_str(",") } else { Ok(()) }
}

fn add_time(to: &mut String, moment: Instant) -> Result<(), AllocError>
    ensures { AddsText result (time_text_of moment) to.old to.new }
{
    let (text, length) = time_text(moment);
    // SAFETY: proved; the text of an instant is ASCII.
    to.push_str(unsafe { str::from_utf8_unchecked(&text[..length]) })
}

fn add_json(to: &mut String, value: &Value) -> Result<(), AllocError>
    ensures { AddsText result (json value.now) to.old to.new }
{
    let empty = String::new(*to.allocator());
    let mut bytes = mem::replace(to, empty).into_bytes();
    write_json(value, &mut bytes)?;
    // SAFETY: proved; what stood there is UTF-8, and `write_json` keeps that.
    *to = unsafe { String::from_utf8_unchecked(bytes) };
    Ok(())
}
