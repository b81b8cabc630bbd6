// The output `elasticsearch` as a box for a rack.
use crate::bulk::Bulk;
use crate::peer::Peer;
use event_tree::Event;
use foreign_parts::{DeliverFault, Delivery, ForeignOutput, FromFault, Settings};

impl<Q: Peer + Send> ForeignOutput for Bulk<Q> {
    ghost use Rattle.std.specs.Prelude.{◌+◌};
    ghost use Rattle.out_bulk.specs.Settings.{bulk_refusal};

    ghost refusal = { λ _ entries. bulk_refusal entries };

    ghost held = { λ s. s.held };

    ghost faults = { λ s. Q.faults s.peer + s.bad };

    ghost laters = { λ s. s.laters };

    ghost closes = { λ s. s.closes };

    fn configure(&mut self, settings: &Settings) -> Result<(), FromFault> {
        self.configure(settings)
    }

    fn deliver(&mut self, events: &[Event]) -> Result<Delivery, DeliverFault> {
        self.deliver(events)
    }

    fn close(&mut self) {
        self.close()
    }
}
