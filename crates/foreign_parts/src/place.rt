// The places where an output delivers events.
ghost use Rattle.std.specs.Prelude.{◌≡◌, IfOk};

use event_tree::Text;
use std::alloc::AllocError;

/// Where events are delivered.
#[derive(Drop)]
pub enum Place {
    Stdout,
    /// The file of this path.
    File(Text),
    /// The pipeline that listens on this address.
    Address(Text),
    /// The boxed output of this number.
    Foreign(u64),
    /// Nowhere: the events are let go.
    Discard,
    /// The dead letter queue. It stands in a history alone: no output has this place.
    Dead,
}

impl Place {
    /// The same again.
    pub fn copy(&self) -> Result<Place, AllocError>
        ensures { IfOk result (λ copy. copy ≡ self.now) }
    {
        Ok(match self {
            Place::Stdout => Place::Stdout,
            Place::File(path) => Place::File(path.copy()?),
            Place::Address(address) => Place::Address(address.copy()?),
            Place::Foreign(number) => Place::Foreign(*number),
            Place::Discard => Place::Discard,
            Place::Dead => Place::Dead,
        })
    }
}
