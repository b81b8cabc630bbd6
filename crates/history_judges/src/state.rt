// Where a pipeline stands after what it told.

use crate::meaning::{Due, Plan};
use crate::reason::{Fault, Judged, Reason, want};
use config_tree::Plugin;
use element_code::Origin;
use event_tree::{DeadPart, Event, Text};
use history_book::ParcelAt;
use queue_core::QueueRow;
use settings_lines::Policy;
use std::alloc::Global;

/// An input of a pipeline. Numbers count from 0 since the pipeline was opened.
#[derive(Drop)]
pub struct Input<'a> {
    pub number: usize,
    pub statement: &'a Plugin,
    pub id: Text,
    /// Whether the newest configuration has it.
    pub is_open: bool,
}

/// A row that was written.
#[derive(Drop)]
pub struct Written<'a> {
    pub number: u64,
    pub event: &'a Event,
    /// The number of its input, and the parcel in which the event came, if it came in one.
    pub input: usize,
    pub parcel: Option<ParcelAt>,
    /// The input's statement and its id, as they were then.
    pub statement: &'a Plugin,
    pub id: Text,
    /// Whether it was accepted since the pipeline was last opened.
    pub is_new: bool,
}

/// A batch that is read and not acknowledged: the configuration that it goes by, and its rows.
#[derive(Drop)]
pub struct Out<'a> {
    pub batch: u64,
    pub plan: Plan<'a>,
    pub numbers: &'a [u64],
    pub events: Vec<&'a Event>,
    pub is_back: bool,
    /// What is due of it, once it is back, and how many of these deliveries were told.
    pub due: Vec<Due>,
    pub told: usize,
}

/// What is shed of the dead letters: so many of the oldest segments, and of the letters that come next those at these
/// places.
#[derive(Clone, Copy)]
pub struct Shed<'a> {
    pub older: u64,
    pub newer: &'a [usize],
}

/// What stands between two entries that belong together, with the number of their batch.
#[derive(Clone, Copy)]
pub enum Between<'a> {
    Nothing,
    /// What is shed of the letters that come next, and of the segments before them.
    Shed(u64, Shed<'a>),
    /// The same, with the letters of events that the next delivery's place rejected, less those that were shed.
    Rejecting(u64, Shed<'a>, &'a [DeadPart]),
}

/// The limit of the dead letters in bytes, and what is done there.
#[derive(Clone, Copy)]
pub struct Limits {
    pub limit: u64,
    pub policy: Policy,
}

/// Where a pipeline stands.
#[derive(Drop)]
pub struct State<'a> {
    /// None before the pipeline was first opened.
    pub limits: Option<Limits>,
    /// The newest configuration since it was opened.
    pub plan: Option<Plan<'a>>,
    /// The inputs since it was opened, the open ones first.
    pub inputs: Vec<Input<'a>>,
    pub rows: Vec<Written<'a>>,
    /// The number up to which rows are settled.
    pub front: u64,
    pub acknowledged: Vec<u64>,
    /// The numbers of rows that batches were given since it was opened, and the numbers of these batches.
    pub read: Vec<u64>,
    pub batches: Vec<u64>,
    pub out: Vec<Out<'a>>,
    /// The least and the greatest number that the next row may have.
    pub low: u128,
    pub high: u128,
    pub between: Between<'a>,
    /// The inputs that were told since it was opened that rows are settled, and up to which.
    pub assured: Vec<(usize, u64)>,
}

impl<'a> State<'a> {
    /// Where a pipeline stands that told nothing yet. It takes no memory.
    pub fn start(alloc: Global) -> State<'a> {
        State {
            limits: None,
            plan: None,
            inputs: Vec::new(alloc),
            rows: Vec::new(alloc),
            front: 0,
            acknowledged: Vec::new(alloc),
            read: Vec::new(alloc),
            batches: Vec::new(alloc),
            out: Vec::new(alloc),
            low: 1,
            high: 1,
            between: Between::Nothing,
            assured: Vec::new(alloc),
        }
    }

    /// The allocator of what it keeps.
    pub fn alloc(&self) -> Global {
        *self.rows.allocator()
    }

    /// The newest configuration, where the last entry wants no other just behind it.
    pub fn running(&self) -> Judged<Plan<'a>> {
        let Some(plan) = self.plan else {
            return Err(Fault::Illegal(Reason::NotAdopted));
        };
        want(self.is_between_none(), Reason::Unfinished)?;
        Ok(plan)
    }

    /// Whether the last entry wants no other just behind it.
    pub fn is_between_none(&self) -> bool {
        matches!(self.between, Between::Nothing)
    }

    /// The batch of this number, if it is out.
    pub fn batch(&self, batch: u64) -> Option<&Out<'a>> {
        self.out.iter().find(|out| out.batch == batch)
    }

    /// The batch of this number, if it is out and back.
    pub fn batch_back(&self, batch: u64) -> Judged<&Out<'a>> {
        let Some(out) = self.batch(batch) else {
            return Err(Fault::Illegal(Reason::NotOut));
        };
        want(out.is_back, Reason::NotBack)?;
        Ok(out)
    }

    /// What is shed with the letters that come now.
    pub fn shed_now(&self) -> Shed<'a> {
        match self.between {
            Between::Nothing => Shed {
                older: 0,
                newer: &[],
            },
            Between::Shed(_, shed) | Between::Rejecting(_, shed, _) => shed,
        }
    }

    /// The number behind which no row was found, and none is settled.
    pub fn top(&self, found: &[QueueRow]) -> u64 {
        self.front.max(found.last().map_or(0, |row| row.number))
    }
}

impl Out<'_> {
    /// What is told next of what is due of it.
    pub fn next(&self) -> Option<&Due> {
        self.due.get(self.told)
    }
}

impl Written<'_> {
    /// Whether what was found is this row: it names no input, or the id that its input had then.
    pub fn is(&self, found: &QueueRow) -> bool {
        let named = match &found.origin {
            Origin::Unknown => true,
            Origin::Id(id) => *id == self.id,
        };
        named && found.number == self.number && found.event.same(self.event)
    }
}
