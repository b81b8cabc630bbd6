// The event of a line of text.
ghost use Rattle.std.specs.Prelude.{◌≡◌, ◌≤◌, IfOk, OnOk, [], ◌∷◌, ◌++◌, codes, length};
ghost use Rattle.plain_data.specs.Members.{AllBelow};
ghost use Rattle.event_tree.specs.declared.value.Value.TheVariants as v;
ghost use Rattle.event_tree.specs.Events.{both};
ghost use Rattle.in_lines.specs.Events.{event_of, members_of};

use event_tree::{Event, Fields, Text, Value};
use plain_data::Instant;
use std::alloc::{AllocError, Global};

/// How many bytes a line may have: a longer one is cut there.
pub const LINE_LIMIT: usize = 1_048_576;

/// The event of a line that a poll at `moment` made whole: the line as `message` and as
/// `[event][original]`, `@timestamp`, and `@version` `1`.
pub fn line_event(alloc: Global, line: &str, moment: Instant) -> Result<Value, AllocError>
    ensures { IfOk result
        (λ event. event ≡ event_of (record { line = line.now; moment = moment })) }
{
    Ok(Value::Object(line_fields(alloc, line, moment)?))
}

/// The same as an event, with nothing in its meta. The line has at most 8,388,558 bytes, since the event
/// holds it twice, has 100 bytes more, and at most 16,777,216 in all; the text of a line of `LINE_LIMIT` bytes has at
/// most three times as many. The only error is want of memory.
pub fn event_of_line(alloc: Global, line: &str, moment: Instant) -> Result<Event, AllocError>
    requires { length line.now ≤ 8388558 }
    ensures { IfOk result (λ event. event
        ≡ both (event_of (record { line = line.now; moment = moment })) (v.Object [])) }
{
    // For the proof alone: this call's clause says that the moment lies in its years.
    let _nanos = moment.nanos();
    let fields = line_fields(alloc, line, moment)?;
    let size = 100 + 2 * line.len() as u64;
    Ok(Event::from_objects(alloc, fields, Fields::new(alloc), size))
}

fn line_fields(alloc: Global, line: &str, moment: Instant) -> Result<Fields<Value>, AllocError>
    ensures { IfOk result
        (λ fields. fields ≡ members_of (record { line = line.now; moment = moment })) }
{
    let mut fields = Fields::with_capacity(alloc, 4)?;
    add_member(alloc, &mut fields, "@timestamp", Value::Time(moment))?;
    add_text(alloc, &mut fields, "@version", "1")?;
    add_original(alloc, &mut fields, line)?;
    add_text(alloc, &mut fields, "message", line)?;
    Ok(fields)
}

/// The object that keeps the line as it came.
fn add_original(alloc: Global, fields: &mut Fields<Value>, line: &str) -> Result<(), AllocError>
    requires { AllBelow fields.old (codes "event") }
    ensures { OnOk result (fields.new ≡ fields.old
        ++ (codes "event", v.Object ((codes "original", v.Text line.now) ∷ [])) ∷ []) }
{
    let mut original = Fields::with_capacity(alloc, 1)?;
    add_text(alloc, &mut original, "original", line)?;
    add_member(alloc, fields, "event", Value::Object(original))
}

fn add_text(
    alloc: Global,
    fields: &mut Fields<Value>,
    name: &str,
    text: &str,
) -> Result<(), AllocError>
    requires { AllBelow fields.old name.now }
    ensures { OnOk result (fields.new ≡ fields.old ++ (name.now, v.Text text.now) ∷ []) }
{
    add_member(alloc, fields, name, Value::Text(Text::of(alloc, text)?))
}

fn add_member(
    alloc: Global,
    fields: &mut Fields<Value>,
    name: &str,
    value: Value,
) -> Result<(), AllocError>
    requires { AllBelow fields.old name.now }
    ensures { OnOk result (fields.new ≡ fields.old ++ (name.now, value) ∷ []) }
{
    fields.push(Text::of(alloc, name)?, value)
}
