// Why a row of a page isn't read: a mismatch in the file, a fault of the store, or want of memory.
ghost use Rattle.std.specs.Prelude.{◌≡◌};
ghost use Rattle.queue_page.specs.Answers.{IsNamed};

use io_traits::{Damage, Failed, QueueFault};
use plain_data::Text;
use std::alloc::{AllocError, Global};

/// What is wrong in a page: two numbers that differ, and where.
#[derive(Clone, Copy)]
pub(crate) struct Mismatch {
    /// The place in the file, in bytes from its beginning.
    pub(crate) place: u64,
    /// What stands there.
    pub(crate) found: u64,
    /// What ought to stand there.
    pub(crate) expected: u64,
}

/// Why a row was not read.
#[derive(Clone, Copy)]
pub(crate) enum RowFault {
    /// The page is damaged there.
    Mismatch(Mismatch),
    /// A call of the store failed.
    Fault,
    /// There was no memory for it.
    Memory,
}

impl From<Mismatch> for RowFault {
    ghost use Rattle.queue_page.specs.declared.fault.RowFault.TheVariants as r;

    ghost from_gives = { λ misfit fault. fault ≡ r.Mismatch misfit };

    fn from(misfit: Mismatch) -> RowFault {
        RowFault::Mismatch(misfit)
    }
}

impl From<Failed> for RowFault {
    ghost use Rattle.queue_page.specs.declared.fault.RowFault.TheVariants as r;

    ghost from_gives = { λ _ fault. fault ≡ r.Fault };

    fn from(_failed: Failed) -> RowFault {
        RowFault::Fault
    }
}

impl From<AllocError> for RowFault {
    ghost use Rattle.queue_page.specs.declared.fault.RowFault.TheVariants as r;

    ghost from_gives = { λ _ fault. fault ≡ r.Memory };

    fn from(_error: AllocError) -> RowFault {
        RowFault::Memory
    }
}

/// The fault of a row in the file of this name.
pub(crate) fn named(alloc: Global, name: &str, fault: RowFault) -> QueueFault
    ensures { IsNamed name.now fault result }
{
    match fault {
        RowFault::Mismatch(misfit) => match Text::of(alloc, name) {
            Ok(file) => QueueFault::Damaged(Damage {
                file,
                place: misfit.place,
                found: misfit.found,
                expected: misfit.expected,
            }),
            Err(_) => QueueFault::Memory,
        },
        RowFault::Fault => QueueFault::Fault,
        RowFault::Memory => QueueFault::Memory,
    }
}
