// The cells of a batch: events under way, and what came of the others.
use crate::targets::Targets;
use condition_eval::Reason;
use event_tree::Event;
use foreign_parts::Verdict;

/// What came of a batch so far, in order.
#[derive(Drop)]
pub enum Cell {
    /// An event that passes over so many steps, and where it was sent so far.
    At(u64, Event, Targets),
    /// Something that no step changes.
    Came(Outcome),
}

/// What came of an event, or was used for it, in the end.
pub enum Outcome {
    /// An event that goes no further, and where it was sent.
    Consumed(Event, Targets),
    /// An event that is dead: the number of its condition, and why that is wrong; and where it was
    /// sent.
    Dead(u64, Reason, Event, Targets),
    /// A verdict that was used.
    Verdict(Verdict),
}

// Written out, so that it is one call wherever an error is handed on while an outcome is held.
impl Drop for Outcome {
    fn drop(self) {
        match self {
            Outcome::Consumed(_event, _targets) => {}
            Outcome::Dead(_, _reason, _event, _targets) => {}
            Outcome::Verdict(_verdict) => {}
        }
    }
}
