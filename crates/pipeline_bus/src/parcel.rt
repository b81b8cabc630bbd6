// Parcels of events with their numbers, and the answers to them.
ghost use Rattle.std.specs.Prelude.{◌≡◌};
ghost use Rattle.pipeline_bus.specs.Parcels.{filled, is_last};

use event_tree::Event;
use plain_data::{Items, Text};
use rtrb::Protocol;

/// Events on their way to the pipeline that listens on an address.
///
/// A parcel without events is a last parcel: it says that nothing follows for now, and gets no answer.
#[derive(Drop)]
pub struct Parcel {
    /// Its number on its link: parcels with events count from 1, and a last parcel has the number 0.
    pub number: u64,
    pub address: Text,
    pub events: Items<Event>,
}

impl Parcel {
    /// Whether it has no events.
    pub fn is_last(&self) -> bool
        ensures { result ≡ is_last self.now }
    {
        self.events.as_slice().is_empty()
    }

    /// 1 where it has events, and else 0.
    pub(crate) fn filled(&self) -> u32
        ensures { result ≡ filled self.now }
    {
        if self.is_last() { 0 } else { 1 }
    }
}

/// What became of a parcel.
#[derive(Clone, Copy, PartialEq, Eq)]
pub enum Heard {
    /// Each of its events stands in the listener's queue, and is marked there.
    Assured,
    /// Nobody listens on its address any more, and none of its events was taken.
    NotListening,
}

/// The answer to the parcel of this number.
#[derive(Clone, Copy, PartialEq, Eq)]
pub struct Answer {
    pub number: u64,
    pub answer: Heard,
}

/// The rule of a ring of parcels: parcels with events are numbered from 1 on, and a last parcel has the number 0.
#[derive(Clone, Copy)]
pub struct Numbered;

impl Protocol<Parcel> for Numbered {
    ghost use Rattle.pipeline_bus.specs.Parcels.{HasNextNumber};

    ghost allows = { HasNextNumber };
}

/// The rule of a ring of answers: the n-th answer is of the parcel with the number n.
#[derive(Clone, Copy)]
pub struct InTurn;

impl Protocol<Answer> for InTurn {
    ghost use Rattle.pipeline_bus.specs.Parcels.{IsInTurn};

    ghost allows = { IsInTurn };
}
