// Copies of what entries tell, item by item.
ghost use Rattle.std.specs.Prelude.{◌≡◌, IfOk};

use element_code::Origin;
use event_tree::{DeadPart, Event, Text};
use foreign_parts::{Fate, Verdict};
use plain_data::Items;
use queue_core::QueueRow;
use std::alloc::{AllocError, Global};

/// What can be copied.
pub(crate) trait Copied: Drop {
    /// The same again.
    fn copied(&self) -> Result<Self, AllocError>
        ensures { IfOk result (λ copy. copy ≡ self.now) };
}

/// The same items again.
pub(crate) fn copies<T: Copied>(alloc: Global, items: &[T]) -> Result<Items<T>, AllocError>
    ensures { IfOk result (λ copies. copies ≡ items.now) }
{
    let mut copies = Items::with_capacity(alloc, items.len())?;
    for item in items {
        copies.push(item.copied()?)?;
    }
    Ok(copies)
}

impl Copied for u64 {
    fn copied(&self) -> Result<u64, AllocError> {
        Ok(*self)
    }
}

impl Copied for usize {
    fn copied(&self) -> Result<usize, AllocError> {
        Ok(*self)
    }
}

impl Copied for Event {
    fn copied(&self) -> Result<Event, AllocError> {
        self.copy()
    }
}

impl Copied for Verdict {
    fn copied(&self) -> Result<Verdict, AllocError> {
        self.copy()
    }
}

impl Copied for DeadPart {
    fn copied(&self) -> Result<DeadPart, AllocError> {
        self.copy()
    }
}

impl Copied for Fate {
    fn copied(&self) -> Result<Fate, AllocError> {
        Ok(match self {
            Fate::Took => Fate::Took,
            Fate::Rejected(status, text) => Fate::Rejected(*status, text.copy()?),
        })
    }
}

impl Copied for (Text, u64) {
    fn copied(&self) -> Result<(Text, u64), AllocError> {
        Ok((self.0.copy()?, self.1))
    }
}

impl Copied for QueueRow {
    fn copied(&self) -> Result<QueueRow, AllocError> {
        Ok(QueueRow {
            number: self.number,
            origin: copy_origin(&self.origin)?,
            event: self.event.copy()?,
        })
    }
}

fn copy_origin(origin: &Origin) -> Result<Origin, AllocError>
    ensures { IfOk result (λ copy. copy ≡ origin.now) }
{
    Ok(match origin {
        Origin::Unknown => Origin::Unknown,
        Origin::Id(id) => Origin::Id(id.copy()?),
    })
}
