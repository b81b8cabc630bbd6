// Why a queue was not repaired.
ghost use Rattle.std.specs.Prelude.{◌≡◌};

use io_traits::{Failed, ListFault};
use std::alloc::AllocError;

/// Why a queue was not repaired.
#[derive(Clone, Copy)]
pub(crate) enum RepairFault {
    /// A call of the store failed.
    Store,
    /// Memory ran out.
    Memory,
    /// The new queue has no number left for a row.
    NumbersSpent,
    /// The folder of the new queue has a file.
    NotNew,
}

impl From<Failed> for RepairFault {
    ghost use Rattle.pq_tools.specs.declared.fault.RepairFault.TheVariants.{Store};

    ghost from_gives = { λ _ fault. fault ≡ Store };

    fn from(_failed: Failed) -> RepairFault {
        RepairFault::Store
    }
}

impl From<ListFault> for RepairFault {
    ghost use Rattle.pq_tools.specs.Repairs.{by_list};

    ghost from_gives = { λ listed fault. fault ≡ by_list listed };

    fn from(fault: ListFault) -> RepairFault {
        match fault {
            ListFault::Failed => RepairFault::Store,
            ListFault::Memory => RepairFault::Memory,
        }
    }
}

impl From<AllocError> for RepairFault {
    ghost use Rattle.pq_tools.specs.declared.fault.RepairFault.TheVariants.{Memory};

    ghost from_gives = { λ _ fault. fault ≡ Memory };

    fn from(_error: AllocError) -> RepairFault {
        RepairFault::Memory
    }
}
