// The events of letters, with what is said of these.
ghost use Rattle.std.specs.Prelude.{◌≡◌, [], ◌∷◌, true, codes, IfOk};
ghost use Rattle.event_tree.specs.Events.{to};
ghost use Rattle.dead_letter_reader.specs.Marks.{letter_metadata, events_of, marked};

use dead_letters::{DeadLetter, DeadRow};
use event_tree::{Event, Fields, Items, Path, PutFault, Text, Value};
use std::alloc::{AllocError, Global};

/// The events of letters, in order. An error is want of memory.
pub(crate) fn events_of(alloc: Global, rows: &[DeadRow]) -> Result<Items<Event>, AllocError>
    ensures { IfOk result (λ events. events ≡ events_of rows.now) }
{
    let mut events = Items::with_capacity(alloc, rows.len())?;
    let path = path_of_mark(alloc)?;
    for row in rows {
        events.push(marked(&row.letter, &path)?)?;
    }
    Ok(events)
}

// Where an event says what became of it.
fn path_of_mark(alloc: Global) -> Result<Path, AllocError>
    ensures { IfOk result (λ path. path ≡ to true (codes "dead_letter_queue" ∷ [])) }
{
    let mut parts = Items::with_capacity(alloc, 2)?;
    parts.push(Text::of(alloc, "@metadata")?)?;
    parts.push(Text::of(alloc, "dead_letter_queue")?)?;
    Ok(Path::of_parts(parts))
}

// The event of a letter, with what is said of it at this path, if there is room for it.
fn marked(letter: &DeadLetter, path: &Path) -> Result<Event, AllocError>
    requires { path.now ≡ to true (codes "dead_letter_queue" ∷ []) }
    ensures { IfOk result (λ event. event ≡ marked letter.now) }
{
    let mut event = letter.event.copy()?;
    match event.put(path, letter_metadata(letter)?) {
        Err(PutFault::Memory) => Err(AllocError),
        _ => Ok(event),
    }
}

// What is said of a letter.
fn letter_metadata(letter: &DeadLetter) -> Result<Value, AllocError>
    ensures { IfOk result (λ value. value ≡ letter_metadata letter.now) }
{
    let alloc = letter.kind.allocator();
    let mut fields = Fields::with_capacity(alloc, 4)?;
    fields.push(Text::of(alloc, "entry_time")?, Value::Time(letter.moment))?;
    fields.push(
        Text::of(alloc, "plugin_id")?,
        Value::Text(letter.id.copy()?),
    )?;
    fields.push(
        Text::of(alloc, "plugin_type")?,
        Value::Text(letter.kind.copy()?),
    )?;
    fields.push(
        Text::of(alloc, "reason")?,
        Value::Text(letter.reason.copy()?),
    )?;
    Ok(Value::Object(fields))
}
