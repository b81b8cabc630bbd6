// What a filter makes of an event.
use event_tree::Events;

/// What a filter made of an event: the events that stand in its place, and whether the filter matched.
#[derive(Drop)]
pub struct Applied {
    pub events: Events,
    pub matched: bool,
}
