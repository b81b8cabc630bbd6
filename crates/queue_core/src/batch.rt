// A batch of rows, and the cursor from which the next one is read.
ghost use Rattle.std.specs.Prelude.{◌≡◌, ◌⊎◌, ◌++◌, ◌∷◌, []};

use crate::kept::{KeptRow, KeptRows};
use crate::limits::Numbers;
use crate::page_rows::QueueRow;
use event_tree::Event;
use plain_data::Items;
use queue_page::PageBuffer;
use std::marker::Model;

/// Rows that a queue gives, one behind the other: at least one.
#[derive(Drop)]
pub struct Batch {
    /// The number of the first row, and that of the row behind the last. Rows between them that the batch
    /// doesn't have were acknowledged before.
    pub numbers: Numbers,
    /// The numbers of the rows.
    pub rows: Items<u64>,
    /// Their events.
    pub events: Items<Event>,
}

/// The place of the next unread row of a queue.
#[derive(Drop)]
pub(crate) struct Cursor {
    /// The number of the page in which it stands.
    pub(crate) page: u32,
    /// The number of the row.
    pub(crate) number: u64,
    /// Where it begins in the file of its page.
    pub(crate) place: u64,
    /// The part of that file that was read last.
    pub(crate) block: PageBuffer,
    /// Rows that were written and weren't given yet, so that they needn't be read.
    pub(crate) kept: KeptRows,
    /// Room for the rows of the next batch. It is taken while those of the last are still held: where it was
    /// asked for behind their release, the allocator would join all the memory that they gave back, and cut
    /// it up again for the next rows.
    pub(crate) room: Items<QueueRow>,
}

impl Model for Cursor {
    ghost use Rattle.queue_core.specs.Views.{CursorView};
    ghost use Rattle.std.specs.Coded.{codes};
    ghost use Rattle.event_tree.specs.contracts.value.Value as tree;

    ghost Value = { CursorView };

    ghost coded = { Prim.hlevel (codes, tree.the_row.coded) };

    ghost view = { λ c. record { page = c.page; number = c.number; place = c.place; block = c.block; kept = c.kept } };
}

impl Cursor {
    /// Keeps a row that was written, behind the others, if it may be kept.
    pub(crate) fn hold(&mut self, kept: KeptRow)
        ensures { (self.new ≡ record self.old { kept = self.old.kept ++ kept ∷ [] })
            ⊎ (self.new ≡ self.old) }
    {
        self.kept.push(kept);
    }
}
