//! What an input makes of an event besides reading its line.

ghost use Rattle.std.specs.Prelude.{◌≡◌, ◌≤◌, IfOk, OnOk, length};
ghost use Rattle.in_lines.specs.Settings as spec;

use crate::Codec;
use crate::decoding::{event_by_codec, put_missing};
use event_text::Options;
use event_tree::{Event, Text, Value};
use plain_data::Instant;
use std::alloc::{AllocError, Global};

/// How an input makes events of its lines.
pub struct EventSettings {
    /// How a line is read.
    pub codec: Codec,
    /// The `type` of each event that has none.
    pub event_type: Option<Text>,
    /// The fields and tags that each event gets, as a filter's options add them.
    pub options: Options,
}

// Written out, so that it is one call wherever an error is handed on while settings are held.
impl Drop for EventSettings {
    fn drop(self) {
        let EventSettings {
            codec: _,
            event_type: _event_type,
            options: _options,
        } = self;
    }
}

impl EventSettings {
    /// The event of a line that a poll at `moment` made whole: by the codec, as [`event_by_codec`] says, and then with the
    /// settings, as [`EventSettings::apply`] has it. The line has at most 8,388,558 bytes. The only error is want of
    /// memory.
    pub fn event(&self, alloc: Global, line: &str, moment: Instant) -> Result<Event, AllocError>
        requires { length line.now ≤ 8388558 }
        ensures { IfOk result (λ event. event
            ≡ spec.event_with self.now (record { line = line.now; moment = moment })) }
    {
        let event = event_by_codec(alloc, self.codec, line, moment)?;
        self.apply(alloc, event)
    }

    /// The event with the `type`, where it has none, then with the fields, then with the tags. A field that is there becomes a list
    /// of the old values and the new one; a tag that stands already is not added again. What the event can't hold is not
    /// set. The only error is want of memory; then the event is lost.
    pub fn apply(&self, alloc: Global, event: Event) -> Result<Event, AllocError>
        ensures { IfOk result (λ changed. changed ≡ spec.with_settings self.now event) }
    {
        let mut event = event;
        self.put_type(alloc, &mut event)?;
        self.options.apply(event)
    }

    fn put_type(&self, alloc: Global, event: &mut Event) -> Result<(), AllocError>
        ensures { OnOk result (event.new ≡ spec.with_type self.now.event_type event.old) }
    {
        match &self.event_type {
            Some(name) => put_missing(alloc, event, "type", Value::Text(name.copy()?)),
            None => Ok(()),
        }
    }
}
