// Boxes and links that were drawn from a rack.
ghost use Rattle.std.specs.Prelude.{IfOk};

use crate::want::Want;
use event_tree::Event;
use foreign_parts::{FilterCall, LinkTaker, Verdict};
use plain_data::Text;
use std::alloc::AllocError;

/// A box that was drawn from a rack for a plugin.
#[derive(Drop)]
pub struct Drawn<P> {
    pub want: Want,
    pub plugged: P,
}

// It answers as its box does.
impl<F: FilterCall> FilterCall for Drawn<F> {
    ghost may = { λ drawn. F.may drawn.plugged };

    fn ask(&self, event: &Event) -> Result<Verdict, AllocError> {
        self.plugged.ask(event)
    }
}

/// The boxes and links of a configuration, drawn from a rack.
#[derive(Drop)]
pub(crate) struct DrawnBoxes<F, O> {
    /// For each filter that is a box one for each worker, in the order of the text.
    pub filters: Vec<Drawn<F>>,
    /// For each output that is a box one.
    pub outputs: Vec<Drawn<O>>,
    /// The links that lay in the rack, by their addresses.
    pub links: Vec<(Text, LinkTaker)>,
}
