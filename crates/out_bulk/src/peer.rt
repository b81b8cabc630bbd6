// The trait of what bulk requests are sent to.
use foreign_parts::DeliverFault;
use std::alloc::AllocError;
use thiserror::Error;

/// Why no reply came.
#[derive(Clone, Copy, Debug, Error)]
pub enum PeerFault {
    /// The peer failed, and the count of its faults rose in that call.
    #[error("the peer failed")]
    Failed,
    #[error("out of memory")]
    Memory,
}

/// What requests are sent to.
pub trait Peer: Drop {
    ghost use Rattle.std.specs.Prelude.{ℕ, List, Option};
    ghost use Rattle.io_traits.specs.Counts.{HasCause};
    ghost use Rattle.out_bulk.specs.Exchanges.{Exchange, Asks, HasFailed};

    /// The requests that it was sent, each with its reply where one came, where it tells them.
    ghost asked: { Self → Option (List Exchange) };

    /// How often it failed.
    ghost faults: { Self → ℕ };

    /// Sends a request to a host, and puts the bytes of the reply in the place of what stands in `reply`: its head, and its
    /// body as it came. What stands there after a fault is not said.
    fn ask(&mut self, host: &str, request: &[u8], reply: &mut Vec<u8>) -> Result<(), PeerFault>
        ensures asked { Asks result host.now request.now reply.new.items (asked self.old)
            (asked self.new) }
        ensures faults { HasCause (faults self.old) (faults self.new) (HasFailed result) };
}

impl From<PeerFault> for DeliverFault {
    ghost use Rattle.std.specs.Prelude.{◌≡◌};
    ghost use Rattle.out_bulk.specs.Exchanges.{delivers_as};

    ghost from_gives = { λ fault result. result ≡ delivers_as fault };

    fn from(fault: PeerFault) -> DeliverFault {
        match fault {
            PeerFault::Failed => DeliverFault::Failed,
            PeerFault::Memory => DeliverFault::Memory,
        }
    }
}

impl From<AllocError> for PeerFault {
    ghost use Rattle.std.specs.Prelude.{◌≡◌};
    ghost use Rattle.out_bulk.specs.declared.peer.PeerFault.TheVariants.{Memory};

    ghost from_gives = { λ _ fault. fault ≡ Memory };

    fn from(_error: AllocError) -> PeerFault {
        PeerFault::Memory
    }
}
