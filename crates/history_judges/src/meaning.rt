// What a judge is told of configurations, and what it is told that they make of events.

use config_tree::{Config, Plugin};
use event_tree::{DeadList, Event, Events, Text};
use foreign_parts::{Place, Verdict};
use in_lines::Poll;
use std::alloc::AllocError;

/// A configuration that was adopted, with the numbers of its boxes.
#[derive(Clone, Copy)]
pub struct Plan<'a> {
    pub generation: u64,
    pub config: &'a Config,
    pub draws: &'a [(Text, u64)],
}

/// Events that are due to one of the places of an output: its id, and the name of its plugin.
#[derive(Drop)]
pub struct DueEvents {
    pub id: Text,
    pub kind: Text,
    pub place: Place,
    pub events: Events,
}

/// A delivery that is due of a batch.
#[derive(Drop)]
pub enum Due {
    /// Letters to the dead letter queue.
    Letters(DeadList),
    Events(DueEvents),
}

/// What a configuration makes of a batch.
#[derive(Drop)]
pub struct Derived {
    /// Whether the verdicts are those that are used, all of them, and no more are wanted.
    pub exactly: bool,
    /// The deliveries in order, with as many of the verdicts as are used.
    pub due: Vec<Due>,
}

/// A look of an input at one of its sources: the name of the source, as the number of a connection or the path of a
/// file, and what was found there.
#[derive(Drop)]
pub struct SourceLook {
    pub source: Text,
    pub poll: Poll,
}

/// What an input makes of its looks.
#[derive(Drop)]
pub struct Given {
    /// The events, before the input's own settings act on them.
    pub events: Events,
    /// Whether nothing comes any more.
    pub is_ended: bool,
}

/// What configurations mean: all that a judge is told of filters, outputs and inputs.
pub trait Meaning {
    /// What is due of a batch of these events, with these verdicts of boxed filters.
    fn due(
        &self,
        plan: Plan<'_>,
        events: &[&Event],
        verdicts: &[Verdict],
    ) -> Result<Derived, AllocError>;

    /// The bytes of events by the codec of the output with this id.
    fn bytes(&self, config: &Config, id: &Text, events: &[Event]) -> Result<Vec<u8>, AllocError>;

    /// The ids of the outputs that aren't built in, in the order of the text.
    fn boxed(&self, config: &Config) -> Result<Vec<Text>, AllocError>;

    /// The id of the input that stands at this place of its configuration, counted from 0.
    fn input_id(&self, place: usize, statement: &Plugin) -> Result<Text, AllocError>;

    /// The address on which an input listens, if it does.
    fn address(&self, statement: &Plugin) -> Result<Option<Text>, AllocError>;

    /// What an input's own settings make of an event.
    fn applied(&self, statement: &Plugin, event: &Event) -> Result<Event, AllocError>;

    /// What an input makes of the looks that it made since it was opened.
    fn given(&self, statement: &Plugin, looks: &[SourceLook]) -> Result<Given, AllocError>;
}
