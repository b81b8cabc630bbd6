// The entries of a history, which lend what they tell.
use config_tree::Config;
use event_tree::{DeadPart, Event, Text};
use foreign_parts::{Fate, Place, Verdict};
use queue_core::QueueRow;
use settings_lines::Policy;

/// A parcel of an input that listens on an address.
#[derive(Clone, Copy)]
pub struct ParcelAt {
    /// The place of its taker among those that the pipeline was given since it was last opened.
    pub place: usize,
    /// The number of the parcel.
    pub number: u64,
}

/// What a pipeline tells of one step.
///
/// It lends what takes memory, so that telling it to a book that keeps nothing costs nothing.
#[derive(Clone, Copy)]
pub enum Entry<'a> {
    /// An event came by an input, from a parcel or not, and was written to the queue as the row of this number.
    Accept {
        input: usize,
        parcel: Option<ParcelAt>,
        number: u64,
        event: &'a Event,
    },
    /// All rows up to this number are settled.
    Mark {
        front: u64,
    },
    /// An input was told that its events up to this number are settled.
    Assure {
        input: usize,
        front: u64,
    },
    /// A batch of these rows was read, to go by the configuration of this generation.
    Read {
        batch: u64,
        generation: u64,
        numbers: &'a [u64],
    },
    /// It went through the filters, whose boxes gave these verdicts.
    Back {
        batch: u64,
        verdicts: &'a [Verdict],
    },
    /// So many of the oldest segments of the dead letters leave, and of the letters that come next those at these
    /// places.
    Shed {
        batch: u64,
        older: u64,
        newer: &'a [usize],
    },
    /// Events were delivered to a place, which took or rejected each.
    Deliver {
        batch: u64,
        place: &'a Place,
        events: &'a [Event],
        fates: &'a [Fate],
    },
    /// Letters were delivered to the dead letter queue.
    Letters {
        batch: u64,
        letters: &'a [DeadPart],
    },
    /// The rows of a batch are acknowledged.
    Ack {
        batch: u64,
    },
    /// A page of the queue was removed.
    Purge {
        page: u32,
    },
    /// From now on batches go by this configuration. The numbers of the boxes that were drawn for its boxed outputs
    /// stand beside the ids of these.
    Adopt {
        generation: u64,
        config: &'a Config,
        draws: &'a [(Text, u64)],
    },
    /// The pipeline was opened: its queue held these rows, and this is what its dead letter queue may hold.
    Opened {
        rows: &'a [QueueRow],
        limit: u64,
        policy: Policy,
    },
}
