// Entries that own what they tell, copied from those that lend it.
ghost use Rattle.std.specs.Prelude.{◌≡◌, IfOk};
ghost use Rattle.history_book.specs.BookEntries.{entry_of, kept_of};
ghost use Rattle.history_book.specs.Entries.{Deliver};

use crate::copies::copies;
use crate::entry::{Entry, ParcelAt};
use config_tree::Config;
use event_tree::{DeadList, Event, Events, Text};
use foreign_parts::{Fate, Fates, Place, Verdict};
use plain_data::Items;
use queue_core::QueueRow;
use settings_lines::Policy;
use std::alloc::{AllocError, Global};

/// An entry that owns what it tells, as a book keeps it. Each kind says what the one of that name of `Entry` says.
#[derive(Drop)]
pub enum KeptEntry {
    Accept {
        input: usize,
        parcel: Option<ParcelAt>,
        number: u64,
        event: Event,
    },
    Mark {
        front: u64,
    },
    Assure {
        input: usize,
        front: u64,
    },
    Read {
        batch: u64,
        generation: u64,
        numbers: Items<u64>,
    },
    Back {
        batch: u64,
        verdicts: Items<Verdict>,
    },
    Shed {
        batch: u64,
        older: u64,
        newer: Items<usize>,
    },
    Deliver {
        batch: u64,
        place: Place,
        events: Events,
        fates: Fates,
    },
    Letters {
        batch: u64,
        letters: DeadList,
    },
    Ack {
        batch: u64,
    },
    Purge {
        page: u32,
    },
    Adopt {
        generation: u64,
        config: Config,
        draws: Items<(Text, u64)>,
    },
    Opened {
        rows: Items<QueueRow>,
        limit: u64,
        policy: Policy,
    },
}

impl Entry<'_> {
    /// The same, with memory of its own.
    pub fn keep(&self, alloc: Global) -> Result<KeptEntry, AllocError>
        ensures { IfOk result (λ kept. kept_of kept ≡ entry_of self.now) }
    {
        Ok(match self {
            Entry::Accept {
                input,
                parcel,
                number,
                event,
            } => KeptEntry::Accept {
                input: *input,
                parcel: *parcel,
                number: *number,
                event: event.copy()?,
            },
            Entry::Mark { front } => KeptEntry::Mark { front: *front },
            Entry::Assure { input, front } => KeptEntry::Assure {
                input: *input,
                front: *front,
            },
            Entry::Read {
                batch,
                generation,
                numbers,
            } => KeptEntry::Read {
                batch: *batch,
                generation: *generation,
                numbers: copies(alloc, numbers)?,
            },
            Entry::Back { batch, verdicts } => KeptEntry::Back {
                batch: *batch,
                verdicts: copies(alloc, verdicts)?,
            },
            Entry::Shed {
                batch,
                older,
                newer,
            } => KeptEntry::Shed {
                batch: *batch,
                older: *older,
                newer: copies(alloc, newer)?,
            },
            Entry::Deliver {
                batch,
                place,
                events,
                fates,
            } => keep_delivery(alloc, *batch, place, events, fates)?,
            Entry::Letters { batch, letters } => KeptEntry::Letters {
                batch: *batch,
                letters: copies(alloc, letters)?,
            },
            Entry::Ack { batch } => KeptEntry::Ack { batch: *batch },
            Entry::Purge { page } => KeptEntry::Purge { page: *page },
            Entry::Adopt {
                generation,
                config,
                draws,
            } => KeptEntry::Adopt {
                generation: *generation,
                draws: copies(alloc, draws)?,
                config: config.copy()?,
            },
            Entry::Opened {
                rows,
                limit,
                policy,
            } => KeptEntry::Opened {
                rows: copies(alloc, rows)?,
                limit: *limit,
                policy: *policy,
            },
        })
    }
}

fn keep_delivery(
    alloc: Global,
    batch: u64,
    place: &Place,
    events: &[Event],
    fates: &[Fate],
) -> Result<KeptEntry, AllocError>
    ensures { IfOk result (λ kept. kept_of kept ≡ Deliver batch place.now events.now fates.now) }
{
    Ok(KeptEntry::Deliver {
        batch,
        place: place.copy()?,
        events: copies(alloc, events)?,
        fates: copies(alloc, fates)?,
    })
}
