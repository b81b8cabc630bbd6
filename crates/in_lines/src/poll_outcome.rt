// What a poll of an input came to, and its errors.
use io_traits::Failed;
use std::alloc::AllocError;

/// What a poll of an input found.
#[derive(Clone, Copy, Debug, PartialEq, Eq)]
pub enum Got {
    /// At least one whole line is held.
    Lines,
    /// No whole line is held so far.
    NotYet,
    /// No line is held, and none will come.
    End,
}

/// Why a poll of an input was not made, or not to its end.
#[derive(Clone, Copy, Debug, PartialEq, Eq)]
pub enum PollFault {
    /// A call of the outside failed, and the count of its faults rose.
    Fault,
    /// There was no memory for what comes.
    Memory,
}

impl From<Failed> for PollFault {
    ghost use Rattle.std.specs.Prelude.{◌≡◌};
    ghost use Rattle.in_lines.specs.declared.poll_outcome.PollFault.{PollFault};

    ghost from_gives = { λ _ fault. fault ≡ PollFault.Fault };

    fn from(_failed: Failed) -> PollFault {
        PollFault::Fault
    }
}

impl From<AllocError> for PollFault {
    ghost use Rattle.std.specs.Prelude.{◌≡◌};
    ghost use Rattle.in_lines.specs.declared.poll_outcome.PollFault.{PollFault};

    ghost from_gives = { λ _ fault. fault ≡ PollFault.Memory };

    fn from(_error: AllocError) -> PollFault {
        PollFault::Memory
    }
}
