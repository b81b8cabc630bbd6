// Lists of events and of pairs of texts, and the events that were not delivered.
ghost use Rattle.std.specs.Prelude.{◌≡◌, IfOk};

use crate::event::Event;
use plain_data::{Items, Text};
use std::alloc::AllocError;

/// Events in order.
pub type Events = Items<Event>;

/// Pairs of texts in order, as of a field and what to set there.
pub type Pairs = Items<(Text, Text)>;

/// What could not be delivered, in order.
pub type DeadList = Items<DeadPart>;

/// An event that was not delivered: the kind and the id of the plugin where it failed, and why.
#[derive(Drop)]
pub struct DeadPart {
    /// The kind of the plugin, as `mutate`, or `if` for a condition.
    pub kind: Text,
    /// The id of the plugin or the condition.
    pub id: Text,
    /// Why the event was not delivered.
    pub reason: Text,
    /// The event as it was then.
    pub event: Event,
}

impl DeadPart {
    /// The same again.
    pub fn copy(&self) -> Result<DeadPart, AllocError>
        ensures { IfOk result (λ copy. copy ≡ self.now) }
    {
        Ok(DeadPart {
            kind: self.kind.copy()?,
            id: self.id.copy()?,
            reason: self.reason.copy()?,
            event: self.event.copy()?,
        })
    }
}

impl Clone for DeadPart {
    ghost is_clone = { λ part copy. copy ≡ part };

    fn clone(&self) -> Result<Self, AllocError> {
        self.copy()
    }
}
