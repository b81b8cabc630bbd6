// Room for the parcels that a ring holds.
ghost use Rattle.std.specs.Prelude.{◌≡◌, ◌≤◌, ◌<◌, ◌++◌, [], ◌∷◌, length, nat_lt, IfOk, IfSome, IfNone};
ghost use Rattle.pipeline_bus.specs.Parcels.{with_events};

use crate::link::SLOTS;
use crate::parcel::Parcel;
use std::alloc::{AllocError, Global};
use std::collections::VecDeque;
use std::marker::Model;

/// Room for as many parcels as a ring holds, which contracts see as the list of them, the oldest first.
#[derive(Drop)]
pub(crate) struct Room {
    parcels: VecDeque<Parcel>,
    with_events: u32,
}

impl Model for Room {
    ghost use Rattle.std.specs.Prelude.{◌≡◌, ◌≤◌, List};
    ghost use Rattle.pipeline_bus.specs.Parcels as count;
    ghost use Rattle.std.specs.VecDeque.{deque_capacity};
    ghost use Rattle.std.specs.Coded.{codes};
    ghost use Rattle.event_tree.specs.contracts.value.Value as tree;
    ghost use Rattle.pipeline_bus.specs.declared.parcel.Parcel.{Parcel};

    ghost Value = { List Parcel };

    ghost coded = { Prim.hlevel (codes, tree.the_row.coded) };

    ghost view = { λ room. room.parcels.items };

    ghost invariant = { λ room. (16 ≤ deque_capacity room.parcels) × (room.with_events ≡ count.with_events room.parcels.items) };
}

impl Room {
    #[tactic(auto, unfolding(crate::specs::Parcels::with_events))]
    pub(crate) fn new(alloc: Global) -> Result<Self, AllocError>
        ensures { IfOk result (λ room. room ≡ []) }
    {
        Ok(Room {
            parcels: VecDeque::with_capacity(alloc, SLOTS)?,
            with_events: 0,
        })
    }

    pub(crate) fn has_room(&self) -> bool
        ensures { result ≡ nat_lt (length self.now) 16 }
    {
        self.parcels.len() < SLOTS
    }

    #[tactic(auto, using(crate::proofs::Numbers::counted_more, crate::proofs::Numbers::counted_few, crate::proofs::Numbers::filled_once))]
    pub(crate) fn add(&mut self, parcel: Parcel)
        requires { length self.old < 16 }
        ensures { self.new ≡ self.old ++ parcel ∷ [] }
    {
        self.with_events += parcel.filled();
        self.parcels.push_back_reserved(parcel);
    }

    #[tactic(auto, using(crate::proofs::Numbers::counted_behind))]
    pub(crate) fn take_oldest(&mut self) -> Option<Parcel>
        ensures some { IfSome result (λ parcel. self.old ≡ parcel ∷ self.new) }
        ensures none { IfNone result ((self.old ≡ []) × (self.new ≡ [])) }
    {
        let parcel = self.parcels.pop_front()?;
        self.with_events -= parcel.filled();
        Some(parcel)
    }

    /// How many of the parcels have events.
    pub(crate) fn with_events(&self) -> u32
        ensures { result ≡ with_events self.now }
    {
        self.with_events
    }
}
