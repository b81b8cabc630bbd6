// The damage of a file, and the errors of what is kept in files of a store.
ghost use Rattle.std.specs.Prelude.{◌≡◌};

use crate::{Failed, ListFault};
use plain_data::Text;
use std::alloc::AllocError;

/// What stands in a file in another way than its writer left it.
#[derive(Drop)]
pub struct Damage {
    /// The name of the file in its store.
    pub file: Text,
    /// The place in the file, in bytes from its beginning.
    pub place: u64,
    /// What stands there.
    pub found: u64,
    /// What ought to stand there. It differs from what was found.
    pub expected: u64,
}

/// Why something that is kept in files of a store was not read.
#[derive(Drop)]
pub enum QueueFault {
    /// A call of the store failed, and its count of faults rose.
    Fault,
    /// A file is damaged.
    Damaged(Damage),
    /// There was no memory for it.
    Memory,
}

impl From<Failed> for QueueFault {
    ghost use Rattle.io_traits.specs.declared.queue_faults.QueueFault.{QueueFault};
    ghost use Rattle.io_traits.specs.declared.queue_faults.QueueFault.TheVariants.{Fault};

    ghost from_gives = { λ _ fault. fault ≡ Fault };

    fn from(_failed: Failed) -> QueueFault {
        QueueFault::Fault
    }
}

impl From<ListFault> for QueueFault {
    ghost use Rattle.io_traits.specs.Faults.{by_list};

    ghost from_gives = { λ listed fault. fault ≡ by_list listed };

    fn from(fault: ListFault) -> QueueFault {
        match fault {
            ListFault::Failed => QueueFault::Fault,
            ListFault::Memory => QueueFault::Memory,
        }
    }
}

impl From<AllocError> for QueueFault {
    ghost use Rattle.io_traits.specs.declared.queue_faults.QueueFault.TheVariants.{Memory};

    ghost from_gives = { λ _ fault. fault ≡ Memory };

    fn from(_error: AllocError) -> QueueFault {
        QueueFault::Memory
    }
}
