// The queue: its pages, its cursor and what is acknowledged.
ghost use Rattle.std.specs.Prelude.{◌≡◌, ◌-◌, is_some, IsErr, IfOk, OnOk, OnErr};
ghost use Rattle.io_traits.specs.Counts.{HasCause};
ghost use Rattle.io_traits.specs.Moments.{EachMoment, LeavesBeside, ReadsBeside};
ghost use Rattle.queue_files.specs.Folders.{IsOwn, names_in};
ghost use Rattle.queue_files.specs.Steps.{marked};
ghost use Rattle.queue_core.specs.Calls.{behind_acknowledge, behind_mark, behind_purge, first_spent, last_number};
ghost use Rattle.queue_core.specs.Opens.{Becomes, IsReady, KeepsQueue, purged};

use crate::batch::Cursor;
use crate::limits::{Limits, Numbers};
use crate::marking::{acknowledge_all, mark_all, set_marks};
use crate::pages::OpenPage;
use crate::purging::first_spent;
use io_traits::{Failed, Store};
use plain_data::Text;
use queue_files::{Mark, mark_pages, remove_page};
use std::marker::Model;

/// A queue in a folder of a store, whose rows stand in pages.
#[derive(Drop)]
pub struct Queue {
    /// The path of the folder, which ends with a slash.
    pub(crate) folder: Text,
    pub(crate) limits: Limits,
    /// The pages below the head, in rising order.
    pub(crate) tails: Vec<OpenPage>,
    /// The head page, to which rows are appended.
    pub(crate) top: OpenPage,
    /// The checkpoint of each page below the head, and behind them that of the head page: their paths, and
    /// room for what is recorded next.
    pub(crate) marks: Vec<Mark>,
    /// How many bytes all pages have.
    pub(crate) bytes: u128,
    /// How many rows weren't given yet.
    pub(crate) unread: u64,
    /// The first of them.
    pub(crate) cursor: Cursor,
}

impl Model for Queue {
    ghost use Rattle.queue_core.specs.Calls.{IsHeldQueue};
    ghost use Rattle.queue_core.specs.Views.{QueueView};
    ghost use Rattle.std.specs.Coded.{codes};
    ghost use Rattle.event_tree.specs.contracts.value.Value as tree;

    ghost Value = { QueueView };

    ghost coded = { Prim.hlevel (codes, tree.the_row.coded) };

    ghost view = { λ q. record {
      folder = q.folder;
      limits = q.limits;
      tails = q.tails.items;
      top = q.top;
      unread = q.unread;
      cursor = q.cursor;
    } };

    ghost invariant = { λ q. IsHeldQueue (record {
      folder = q.folder;
      limits = q.limits;
      tails = q.tails.items;
      top = q.top;
      unread = q.unread;
      cursor = q.cursor;
    }) q.marks.items q.bytes };
}

impl Queue {
    /// How many rows weren't given yet.
    pub fn unread(&self) -> u64
        ensures { result ≡ self.now.unread }
    {
        self.unread
    }

    /// Whether `purge` would remove a page. It takes no memory.
    pub fn has_spent_page(&self) -> bool
        ensures { result ≡ is_some (first_spent self.now.tails) }
    {
        first_spent(self.tails.as_slice()).is_some()
    }

    /// The rows of these numbers are acknowledged: those of a batch that this queue gave. A number that no
    /// row has changes nothing. It takes no memory.
    pub fn acknowledge(&mut self, numbers: Numbers)
        ensures { self.new ≡ behind_acknowledge numbers self.old }
    {
        acknowledge_all(&mut self.tails, numbers);
        self.top.acknowledge(numbers);
    }

    /// Settles all files of the store, records of each page what is acknowledged, and settles that. The
    /// answer is the highest number that was written; a row up to there is in the queue whenever a stop
    /// comes, until it is acknowledged. It takes no memory.
    ///
    /// Behind an error the queue has to be opened again.
    pub fn mark<S: Store>(&mut self, store: &mut S) -> Result<u64, Failed>
        requires { IsReady S.Store self.old store.old }
        ensures number { IfOk result (λ number. number ≡ last_number self.old) }
        ensures marked { OnOk result (self.new ≡ behind_mark self.old) }
        ensures err { OnErr result (self.new ≡ self.old) }
        ensures ready { OnOk result (IsReady S.Store self.new store.new) }

        // Of the queue of a folder: a stop at any moment leaves it, and then all of it is recorded.
        ensures keeps { KeepsQueue S.Store self.old store.old store.new }
        ensures records { OnOk result
            (Becomes S.Store marked self.old self.new store.old store.new) }

        // Other files read as before, and a stop leaves them as it might have left them.
        ensures beside { ReadsBeside S.Store (IsOwn (names_in self.old.folder)) store.old
            store.new }
        ensures beside_moments { EachMoment S.Store store.old store.new
            (LeavesBeside S.Store (IsOwn (names_in self.old.folder)) store.old) }

        ensures cause { HasCause (S.faults store.old) (S.faults store.new) (IsErr result) }
    {
        set_marks(&mut self.marks, self.tails.as_slice(), &self.top);
        mark_pages(store, self.marks.as_slice())?;
        mark_all(&mut self.tails);
        self.top.record();
        Ok(self.top.end().saturating_sub(1))
    }

    /// Removes the least page below the head all of whose rows are recorded as acknowledged, settles that,
    /// and removes its checkpoint; the answer is the number of the page, and `None` where there is no such
    /// page. It takes no memory.
    ///
    /// Behind an error the queue has to be opened again.
    pub fn purge<S: Store>(&mut self, store: &mut S) -> Result<Option<u32>, Failed>
        requires { IsReady S.Store self.old store.old }
        ensures number { IfOk result (λ number. number ≡ first_spent self.old.tails) }
        ensures purged { OnOk result (self.new ≡ behind_purge self.old) }
        ensures err { OnErr result (self.new ≡ self.old) }
        ensures ready { OnOk result (IsReady S.Store self.new store.new) }

        // Of the queue of a folder: a stop at any moment leaves it, and then it lacks the page.
        ensures keeps { KeepsQueue S.Store self.old store.old store.new }
        ensures removes { OnOk result
            (Becomes S.Store purged self.old self.new store.old store.new) }

        // Other files read as before, and a stop leaves them as it might have left them.
        ensures beside { ReadsBeside S.Store (IsOwn (names_in self.old.folder)) store.old
            store.new }
        ensures beside_moments { EachMoment S.Store store.old store.new
            (LeavesBeside S.Store (IsOwn (names_in self.old.folder)) store.old) }

        ensures cause { HasCause (S.faults store.old) (S.faults store.new) (IsErr result) }
    {
        let Some(place) = first_spent(self.tails.as_slice()) else {
            return Ok(None);
        };
        let page = self.tails[place].file.as_str();
        remove_page(store, page, self.marks[place].file.as_str())?;
        let page = self.tails.remove(place);
        self.marks.remove(place);
        self.bytes -= u128::from(page.state().length);
        Ok(Some(page.number))
    }
}
