// Batches that were read and aren't acknowledged.
ghost use Rattle.std.specs.Prelude.{◌≡◌};
ghost use Rattle.line_core.specs.declared.batches.BatchStage.TheVariants as stage;
ghost use Rattle.line_core.specs.Batches.{batch_place, left_of, nothing_left, with_left};

use event_tree::DeadList;
use foreign_parts::Place;
use line_jobs::DueDelivery;
use plain_data::Items;
use queue_core::Numbers;
use std::alloc::Global;
use std::mem;

/// What is left to deliver of a batch: the letters of its dead events first, and then its deliveries in order.
#[derive(Drop)]
pub(crate) struct LeftOver {
    pub(crate) dead: DeadList,
    pub(crate) due: Items<DueDelivery>,
}

/// Where a batch is.
#[derive(Drop)]
pub(crate) enum BatchStage {
    /// With a worker.
    Away,
    /// Home, with what is left to deliver of it.
    Home(LeftOver),
    /// Its result is lost, since a worker found no memory.
    Lost,
}

/// A batch that was read and isn't acknowledged.
#[derive(Drop)]
pub(crate) struct LineBatch {
    pub(crate) number: u64,
    pub(crate) generation: u64,
    pub(crate) numbers: Numbers,
    /// How many rows it has.
    pub(crate) rows: u64,
    pub(crate) stage: BatchStage,
    /// Whether a delivery of it was refused in this turn.
    pub(crate) refused: bool,
}

impl LineBatch {
    /// Whether a worker has it.
    pub(crate) fn is_away(&self) -> bool {
        matches!(self.stage, BatchStage::Away)
    }

    /// Whether all of it is delivered.
    pub(crate) fn is_finished(&self) -> bool {
        match &self.stage {
            BatchStage::Home(left) => left.dead.is_empty() && left.due.is_empty(),
            _ => false,
        }
    }

    /// Whether it is home and something of it is left to deliver.
    pub(crate) fn has_left(&self) -> bool {
        match &self.stage {
            BatchStage::Home(left) => !left.dead.is_empty() || !left.due.is_empty(),
            _ => false,
        }
    }

    /// It comes home with what is due of it.
    pub(crate) fn come_home(&mut self, dead: DeadList, due: Items<DueDelivery>)
        ensures { self.new ≡ record self.old {
          stage = stage.Home (record { dead = dead; due = due });
        } }
    {
        self.stage = BatchStage::Home(LeftOver { dead, due });
    }

    /// Takes what is left to deliver of it out, where it is home.
    pub(crate) fn take_left(&mut self, alloc: Global) -> LeftOver
        ensures left { result ≡ left_of self.old.stage }
        ensures stage { self.new ≡ record self.old {
          stage = with_left nothing_left self.old.stage;
        } }
    {
        let none = LeftOver {
            dead: DeadList::new(alloc),
            due: Items::new(alloc),
        };
        match &mut self.stage {
            BatchStage::Home(left) => mem::replace(left, none),
            _ => none,
        }
    }

    /// Puts what is left to deliver of it back, where it is home.
    pub(crate) fn put_left(&mut self, left: LeftOver)
        ensures { self.new ≡ record self.old { stage = with_left left self.old.stage } }
    {
        if let BatchStage::Home(now) = &mut self.stage {
            *now = left;
        }
    }

    /// Its result is lost.
    pub(crate) fn lose(&mut self)
        ensures { self.new ≡ record self.old { stage = stage.Lost } }
    {
        self.stage = BatchStage::Lost;
    }

    /// The next place to which something of it is delivered, where that of letters is `letters`.
    pub(crate) fn next_place<'a>(&'a self, letters: &'a Place) -> Option<&'a Place> {
        match &self.stage {
            BatchStage::Home(left) if left.dead.is_empty() => match left.due.as_slice() {
                [] => None,
                [first, ..] => Some(&first.target.get().place),
            },
            BatchStage::Home(_) => Some(letters),
            _ => None,
        }
    }
}

/// The place of the batch of a number, or how many there are.
pub(crate) fn place_of(batches: &[LineBatch], number: u64) -> usize
    ensures { result ≡ batch_place number batches.now }
{
    for at in 0..batches.len() {
        if batches[at].number == number {
            return at;
        }
    }
    batches.len()
}
