// Changing a field of an event, and the result of a filter that makes one event.
ghost use Rattle.std.specs.Prelude.{◌≡◌, ◌∷◌, [], IfOk};
ghost use Rattle.event_text.specs.Options.{tagged};
ghost use Rattle.filter_settings.specs.Trying as spec;
ghost use Rattle.filter_settings.specs.Trying.{tried};

use event_text::{Applied, Options, add_tag};
use event_tree::{Event, Events, Path, PutFault, Text, Value};
use std::alloc::{AllocError, Global};

/// What becomes of a value.
#[derive(Drop)]
pub enum Change {
    /// It stays as it is.
    Keep,
    /// It becomes this one.
    Set(Value),
    /// It can't become what is wanted.
    Fail,
}

/// Puts a value at a path. `false` where that is refused, and then the event is as it was.
pub fn put_at(event: &mut Event, path: &Path, value: Value) -> Result<bool, AllocError>
    ensures { IfOk result (λ fine. tried fine event.new ≡ spec.put_at path.now value event.old) }
{
    match event.put(path, value) {
        Ok(()) => Ok(true),
        Err(PutFault::Memory) => Err(AllocError),
        Err(PutFault::ThroughScalar) => Ok(false),
        Err(PutFault::Deep) => Ok(false),
        Err(PutFault::Large) => Ok(false),
    }
}

/// Does to the value at a path what the change says. `false` where it fails or is refused, and then
/// the event is as it was.
pub fn change_at(event: &mut Event, path: &Path, change: Change) -> Result<bool, AllocError>
    ensures { IfOk result (λ fine. tried fine event.new ≡ spec.change_at path.now change
        event.old) }
{
    match change {
        Change::Keep => Ok(true),
        Change::Set(value) => put_at(event, path, value),
        Change::Fail => Ok(false),
    }
}

/// What a filter gives that makes one event of an event: where all was `fine` the event with the
/// options, which matched, and else the event with the tag, which did not.
pub fn finish(
    event: Event,
    fine: bool,
    options: &Options,
    tag: &Text,
) -> Result<Applied, AllocError>
    ensures { IfOk result (λ applied. applied ≡ spec.finished options.now tag.now
        (tried fine event)) }
{
    let event = if fine {
        options.apply(event)?
    } else {
        with_tag(event, tag)?
    };
    one_applied(tag.allocator(), event, fine)
}

fn with_tag(event: Event, tag: &Text) -> Result<Event, AllocError>
    ensures { IfOk result (λ changed. changed ≡ tagged tag.now event) }
{
    let mut event = event;
    add_tag(&mut event, tag.copy()?)?;
    Ok(event)
}

/// What a filter gives that makes this one event, and whether it matched.
pub fn one_applied(alloc: Global, event: Event, matched: bool) -> Result<Applied, AllocError>
    ensures { IfOk result (λ applied. applied ≡ spec.one_applied event matched) }
{
    let events = one_event(alloc, event)?;
    Ok(Applied { events, matched })
}

/// A list of one event.
pub fn one_event(alloc: Global, event: Event) -> Result<Events, AllocError>
    ensures { IfOk result (λ events. events ≡ event ∷ []) }
{
    let mut events = Events::new(alloc);
    events.push(event)?;
    Ok(events)
}
