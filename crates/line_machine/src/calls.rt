// The calls of a line with their answers and faults.
ghost use Rattle.std.specs.Prelude.{◌≡◌};

use dead_letters::DeadFault;
use event_tree::Text;
use io_traits::{Damage, Failed, QueueFault};
use pipeline_bus::Answer;
use std::alloc::AllocError;

/// Why a call of a line had to stop. Behind `Store`, `Output`, `DeadFull`, and `Memory` from a delivery, the line
/// takes no further call and is opened again.
#[derive(Drop)]
pub enum LineFault {
    /// A call of the line's store failed.
    Store,
    /// A read of this input failed.
    Input(usize),
    /// The output with this id failed.
    Output(Text),
    /// A file of the line is damaged.
    Damaged(Damage),
    /// The queue has no number left for a row or for a page.
    NumbersSpent,
    /// The dead letter queue holds back what would be added to what it has, by its limit: each in bytes.
    DeadFull { size: u128, added: u128, limit: u64 },
    /// There was no memory for it.
    Memory,
}

impl From<AllocError> for LineFault {
    ghost use Rattle.line_machine.specs.declared.calls.LineFault.TheVariants.{Memory};

    ghost from_gives = { λ _ fault. fault ≡ Memory };

    fn from(_error: AllocError) -> LineFault {
        LineFault::Memory
    }
}

/// Of what fails here a line's store is one: a failed source or output has a name, which its caller knows.
impl From<Failed> for LineFault {
    ghost use Rattle.line_machine.specs.declared.calls.LineFault.TheVariants.{Store};

    ghost from_gives = { λ _ fault. fault ≡ Store };

    fn from(_failed: Failed) -> LineFault {
        LineFault::Store
    }
}

impl From<QueueFault> for LineFault {
    ghost use Rattle.line_machine.specs.Faults.{of_queue_fault};

    ghost from_gives = { λ queue fault. fault ≡ of_queue_fault queue };

    fn from(fault: QueueFault) -> LineFault {
        match fault {
            QueueFault::Fault => LineFault::Store,
            QueueFault::Damaged(damage) => LineFault::Damaged(damage),
            QueueFault::Memory => LineFault::Memory,
        }
    }
}

impl From<DeadFault> for LineFault {
    ghost use Rattle.line_machine.specs.Faults.{of_dead_fault};

    ghost from_gives = { λ dead fault. fault ≡ of_dead_fault dead };

    fn from(fault: DeadFault) -> LineFault {
        match fault {
            DeadFault::Full(size, added, limit) => LineFault::DeadFull { size, added, limit },
            DeadFault::Memory => LineFault::Memory,
            DeadFault::Fault => LineFault::Store,
        }
    }
}

/// What accepting an event came to.
#[derive(Drop)]
pub enum Accepted {
    /// The event is the row of this number.
    Row(u64),
    /// The queue has no room for it now.
    Full,
    /// The input holds no whole event yet.
    NotYet,
    /// The input is at its end, and holds none.
    Ended,
}

/// What reading a batch came to.
#[derive(Drop)]
pub enum ReadOut {
    /// The batch of this number is out.
    Given(u64),
    /// No row is unread.
    Nothing,
    /// Every kit of the newest generation is out.
    NoKit,
}

/// What the next delivery of a batch came to.
#[derive(Drop)]
pub enum Delivered {
    /// It was made and told.
    Told,
    /// It waits for its address.
    Waiting,
    /// Its output takes it later.
    Later,
    /// Nothing of the batch is left to deliver.
    Finished,
}

/// A step that a line may be asked for.
#[derive(Drop)]
pub enum Act {
    Accept(usize),
    Read,
    Take,
    Deliver(u64),
    Acknowledge(u64),
    Mark,
    Assure(usize),
    Purge,
    Answer(usize),
}

/// A call of a line, with its answer.
#[derive(Drop)]
pub enum Call {
    Accept(usize, Result<Accepted, LineFault>),
    Read(Result<ReadOut, LineFault>),
    /// Whether there was memory for its result.
    Collect(u64, bool),
    Deliver(u64, Result<Delivered, LineFault>),
    Acknowledge(u64),
    Mark(Result<u64, LineFault>),
    Assure(usize, Result<u64, LineFault>),
    Purge(Result<Option<u32>, LineFault>),
    AnswerLink(usize, Option<Answer>),
    /// Whether each last parcel that is due is sent.
    PushLast(bool),
    /// Whether there was memory for it.
    Room(bool),
    Adopt,
    Connect,
    /// Whether an end was given back.
    Release(bool),
    /// Whether the line drains.
    Stop(bool),
    GoOn(usize),
    /// A step whose condition doesn't hold.
    Skipped(Act),
}
