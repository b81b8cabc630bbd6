// The errors of reading and appending dead letters.
use io_traits::Failed;
use std::alloc::AllocError;

/// A record of a segment that doesn't read.
#[derive(Clone, Copy, Debug, PartialEq, Eq)]
pub struct RecordFault {
    /// The place in the segment where the record begins, in bytes from its beginning.
    pub place: u64,
    /// What was found: where the record ends, if it leaves the segment; else its CRC-32, if it isn't the
    /// computed one; else the place in its body that fits no letter.
    pub found: u64,
    /// What was expected: the length of the segment; the computed CRC-32; the length of the body, or one
    /// more where that was found.
    pub expected: u64,
}

/// Why the letters of a segment were not read.
#[derive(Clone, Copy, Debug, PartialEq, Eq, Drop)]
pub enum ReadFault {
    /// A record doesn't read.
    At(RecordFault),
    /// Memory ran out.
    Memory,
}

impl From<AllocError> for ReadFault {
    ghost use Rattle.std.specs.Prelude.{◌≡◌};
    ghost use Rattle.dead_letters.specs.declared.faults.ReadFault.TheVariants.{Memory};

    ghost from_gives = { λ _ fault. fault ≡ Memory };

    fn from(_error: AllocError) -> ReadFault {
        ReadFault::Memory
    }
}

/// Why letters were not appended to a queue.
#[derive(Debug, PartialEq, Eq, Drop)]
pub enum DeadFault {
    /// The queue holds its letters, and has no room: how many bytes it has, how many would be added, and how
    /// many it may have.
    Full(u128, u128, u64),
    /// Memory ran out. Nothing was written.
    Memory,
    /// A call of the store failed, and its count of faults rose.
    Fault,
}

impl From<AllocError> for DeadFault {
    ghost use Rattle.std.specs.Prelude.{◌≡◌};
    ghost use Rattle.dead_letters.specs.declared.faults.DeadFault.TheVariants.{Memory};

    ghost from_gives = { λ _ fault. fault ≡ Memory };

    fn from(_error: AllocError) -> DeadFault {
        DeadFault::Memory
    }
}

impl From<Failed> for DeadFault {
    ghost use Rattle.std.specs.Prelude.{◌≡◌};
    ghost use Rattle.dead_letters.specs.declared.faults.DeadFault.TheVariants.{Fault};

    ghost from_gives = { λ _ fault. fault ≡ Fault };

    fn from(_failed: Failed) -> DeadFault {
        DeadFault::Fault
    }
}
