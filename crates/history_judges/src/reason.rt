// Why a judge doesn't go on: what isn't legal, or want of memory.

use std::alloc::{AllocError, AllocFailed};

/// Why an entry isn't legal: the part of its rule that doesn't hold.
#[derive(Clone, Copy, Debug, PartialEq, Eq)]
pub enum Reason {
    /// The pipeline was never opened.
    NotOpened,
    /// No configuration was adopted since the pipeline was opened.
    NotAdopted,
    /// The entry before it wants another one just behind it.
    Unfinished,
    /// The number isn't one that may come next.
    Number,
    /// There is no input of this number, or it is closed and the event came in no parcel.
    Input,
    /// The front isn't the one up to which rows are settled.
    Front,
    /// The generation isn't that of the newest configuration, or not the next one.
    Generation,
    /// A batch since the pipeline was opened had this number.
    Used,
    /// The batch has no rows.
    Empty,
    /// The rows aren't the first of those that are unread.
    NotFirst,
    /// No batch of this number is out.
    NotOut,
    /// The batch didn't come back.
    NotBack,
    /// The batch came back before.
    BackAgain,
    /// Other verdicts are used.
    Verdicts,
    /// The policy doesn't allow it.
    Policy,
    /// Nothing is shed.
    Nothing,
    /// The places don't rise, or the rows that were found don't.
    Order,
    /// No letters may come next that have these places.
    Places,
    /// It isn't what is due next.
    NotDue,
    /// The fates aren't those of these events.
    Fates,
    /// The letters of what was rejected don't stand just before, or letters stand there though nothing was.
    Rejections,
    /// What was shed just before isn't of these letters.
    Shed,
    /// Not all that is due was told.
    Untold,
    /// The configuration is the one that was adopted last.
    Same,
    /// A boxed output has no box, or a box isn't that of one, or two have one number.
    Draws,
    /// A row was found that was never written so.
    Unknown,
    /// A row that is settled is neither found nor acknowledged.
    Lost,
    /// A row before one that was found is neither found nor acknowledged.
    Gap,
    /// No answer was heard that assures a parcel of these events, or it served a delivery before.
    Unanswered,
    /// The parcel isn't the next one on its way to the address.
    Parcel,
    /// The answer isn't that of the oldest parcel with events that has none.
    Answer,
}

/// An entry that isn't legal: its place among those that its pipeline told, from 0 on, and why.
#[derive(Clone, Copy, Debug, PartialEq, Eq)]
pub struct Illegal {
    pub place: usize,
    pub reason: Reason,
}

/// Why a judge doesn't go on: what it judges isn't legal, or it found no memory.
#[derive(Clone, Copy, Debug, PartialEq, Eq)]
pub enum Fault {
    Illegal(Reason),
    Memory,
}

impl From<AllocError> for Fault {
    fn from(_error: AllocError) -> Fault {
        Fault::Memory
    }
}

impl<T: Drop> From<AllocFailed<T>> for Fault {
    fn from(_error: AllocFailed<T>) -> Fault {
        Fault::Memory
    }
}

/// What a judge says, where it goes on.
pub type Judged<T> = Result<T, Fault>;

/// What a rule wants.
pub fn want(holds: bool, reason: Reason) -> Judged<()> {
    if holds {
        Ok(())
    } else {
        Err(Fault::Illegal(reason))
    }
}
