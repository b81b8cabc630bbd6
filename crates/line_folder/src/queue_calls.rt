// The calls of the queue, which leave the output files and the dead letters ready.
ghost use Rattle.std.specs.Prelude.{◌≡◌, ◌≤◌, ◌-◌, ◌↔◌, ◌⊎◌, true, false, is_some, length, IsTrue, IsErr, IfOk, IfErr, OnOk, OnErr, Ok, Err, None};
ghost use Rattle.io_traits.specs.Calls.{ChangesNothing};
ghost use Rattle.io_traits.specs.Counts.{HasCause};
ghost use Rattle.io_traits.specs.Moments.{EachMoment, LeavesBeside, ReadsBeside};
ghost use Rattle.io_traits.specs.declared.queue_faults.QueueFault.TheVariants as f;
ghost use Rattle.queue_files.specs.Folders.{IsOwn, names_in};
ghost use Rattle.queue_files.specs.Steps.{marked};
ghost use Rattle.queue_core.specs.Calls.{behind_acknowledge, behind_mark, behind_purge, end_of, first_spent, last_number};
ghost use Rattle.queue_core.specs.Keeping.{cause_of, with_kept, KeepsOne};
ghost use Rattle.queue_core.specs.Opens.{Becomes, IsOfFiles, KeepsQueue, purged};
ghost use Rattle.queue_core.specs.Taking.{rows_in, GivesNextRows, HasSameNext, IsSameButNext};
ghost use Rattle.queue_core.specs.Writing.{behind_write, frame_size, is_full, numbers_spent, with_written, KeepsEither};
ghost use Rattle.queue_core.specs.declared.writing.WriteFault.TheVariants as w;
ghost use Rattle.line_folder.specs.Readiness.{AreOutputsReady, IsFolderReady};

use crate::folder::LineFolder;
use event_tree::Event;
use io_traits::{Failed, QueueFault, Store};
use queue_core::{Batch, Numbers, Unwritten};
use std::alloc::Global;

impl LineFolder {
    /// How many rows of the queue weren't given yet.
    pub fn unread(&self) -> u64
        ensures { result ≡ self.now.queue.unread }
    {
        self.queue.unread()
    }

    /// Whether `purge` would remove a page. It takes no memory.
    pub fn has_spent_page(&self) -> bool
        ensures { result ≡ is_some (first_spent self.now.queue.tails) }
    {
        self.queue.has_spent_page()
    }

    /// Appends a row to the queue, and keeps its event for the batch that gives it, as
    /// [`queue_core::Queue::write_and_keep`].
    ///
    /// Behind `Fault` the queue has to be opened again; output files and letters are ready.
    pub fn write_and_keep<S: Store>(
        &mut self,
        alloc: Global,
        store: &mut S,
        origin: &str,
        event: Event,
    ) -> Result<u64, Unwritten>
        requires some { 1 ≤ length origin.now }
        requires short { length origin.now ≤ 255 }
        requires ready { IsFolderReady S.Store self.old store.old }
        ensures ready { OnOk result (IsFolderReady S.Store self.new store.new) }
        ensures outputs { self.new.outputs ≡ self.old.outputs }
        ensures outputs_ready { AreOutputsReady S.Store self.new.outputs store.new }
        ensures number { IfOk result (λ number. number ≡ end_of self.old.queue.top) }
        ensures written { OnOk result (self.new.queue ≡ with_kept self.new.queue.cursor.kept
            (behind_write (frame_size origin.now event) self.old.queue)) }
        ensures kept { OnOk result
            (KeepsOne self.old.queue.cursor.kept self.new.queue.cursor.kept) }
        ensures err { OnErr result (self.new ≡ self.old) }
        ensures event { IfErr result (λ unwritten. unwritten.event ≡ event) }

        // Of the queue of a folder: a stop at any moment leaves it, or it with the row, which may be missing.
        ensures keeps { KeepsEither S.Store (with_written self.old.queue origin.now event)
            self.old.queue store.old store.new }
        ensures adds { OnOk result
            (Becomes S.Store (with_written self.old.queue origin.now event) self.old.queue
            self.new.queue store.old store.new) }

        // Other files read as before, and a stop leaves them as it might have left them.
        ensures beside { ReadsBeside S.Store (IsOwn (names_in self.old.queue.folder)) store.old
            store.new }
        ensures beside_moments { EachMoment S.Store store.old store.new
            (LeavesBeside S.Store (IsOwn (names_in self.old.queue.folder)) store.old) }

        // Each fault exactly where it has its cause.
        ensures spent { (cause_of result ≡ Err w.NumbersSpent)
            ↔ (numbers_spent (frame_size origin.now event) self.old.queue ≡ true) }
        ensures full { (cause_of result ≡ Err w.Full)
            ↔ ((numbers_spent (frame_size origin.now event) self.old.queue ≡ false)
            × (is_full (frame_size origin.now event) self.old.queue ≡ true)) }
        ensures refused { IfErr result (λ unwritten.
            (unwritten.cause ≡ w.Fault) ⊎ (store.new ≡ store.old)) }
        ensures cause { HasCause (S.faults store.old) (S.faults store.new)
            (cause_of result ≡ Err w.Fault) }
    {
        self.queue.write_and_keep(alloc, store, origin, event)
    }

    /// The next unread rows of the queue, at most so many, as [`queue_core::Queue::take_batch`].
    pub fn take_batch<S: Store>(
        &mut self,
        alloc: Global,
        store: &mut S,
        most: u32,
    ) -> Result<Option<Batch>, QueueFault>
        requires most { 1 ≤ most }
        requires ready { IsFolderReady S.Store self.old store.old }
        ensures ready { IsFolderReady S.Store self.new store.new }
        ensures outputs { self.new.outputs ≡ self.old.outputs }

        // The next rows, and the queue behind them; or the first damage of an element that is read for them.
        ensures batch { IsTrue S.tells → IsOfFiles self.old.queue (S.seen store.old)
            → GivesNextRows most (S.seen store.old) self.old.queue result self.new.queue }
        ensures none { self.old.queue.unread ≡ 0 → result ≡ Ok None }
        ensures unread { IfOk result (λ batch.
            self.new.queue.unread ≡ self.old.queue.unread - rows_in batch) }
        ensures rest { IsSameButNext self.old.queue self.new.queue }
        ensures err { OnErr result (HasSameNext self.old.queue self.new.queue) }

        // Of the queue of a folder: it stays, and so does what a stop leaves.
        ensures keeps { KeepsQueue S.Store self.old.queue store.old store.new }
        ensures stays { Becomes S.Store (λ q. q) self.old.queue self.new.queue store.old
            store.new }

        // Other files read as before, and a stop leaves them as it might have left them.
        ensures beside { ReadsBeside S.Store (IsOwn (names_in self.old.queue.folder)) store.old
            store.new }
        ensures beside_moments { EachMoment S.Store store.old store.new
            (LeavesBeside S.Store (IsOwn (names_in self.old.queue.folder)) store.old) }

        ensures same { ChangesNothing S.tells S.seen S.moment S.may_leave store.old store.new }
        ensures cause { HasCause (S.faults store.old) (S.faults store.new) (result ≡ Err f.Fault) }
    {
        self.queue.take_batch(alloc, store, most)
    }

    /// The rows of these numbers are acknowledged: those of a batch that the queue gave. It takes no memory, and
    /// leaves all ready.
    pub fn acknowledge(&mut self, numbers: Numbers)
        ensures { self.new
            ≡ record self.old { queue = behind_acknowledge numbers self.old.queue } }
    {
        self.queue.acknowledge(numbers)
    }

    /// Settles all files of the store, and records of each page of the queue what is acknowledged, as
    /// [`queue_core::Queue::mark`]. The answer is the highest number that was written. It takes no memory.
    ///
    /// Behind an error the queue has to be opened again; output files and letters are ready.
    pub fn mark<S: Store>(&mut self, store: &mut S) -> Result<u64, Failed>
        requires { IsFolderReady S.Store self.old store.old }
        ensures ready { OnOk result (IsFolderReady S.Store self.new store.new) }
        ensures outputs { self.new.outputs ≡ self.old.outputs }
        ensures outputs_ready { AreOutputsReady S.Store self.new.outputs store.new }
        ensures number { IfOk result (λ number. number ≡ last_number self.old.queue) }
        ensures marked { OnOk result (self.new.queue ≡ behind_mark self.old.queue) }
        ensures err { OnErr result (self.new ≡ self.old) }

        // Of the queue of a folder: a stop at any moment leaves it, and then all of it is recorded.
        ensures keeps { KeepsQueue S.Store self.old.queue store.old store.new }
        ensures records { OnOk result (Becomes S.Store marked self.old.queue self.new.queue
            store.old store.new) }

        // Other files read as before, and a stop leaves them as it might have left them.
        ensures beside { ReadsBeside S.Store (IsOwn (names_in self.old.queue.folder)) store.old
            store.new }
        ensures beside_moments { EachMoment S.Store store.old store.new
            (LeavesBeside S.Store (IsOwn (names_in self.old.queue.folder)) store.old) }

        ensures cause { HasCause (S.faults store.old) (S.faults store.new) (IsErr result) }
    {
        self.queue.mark(store)
    }

    /// Removes the least page of the queue below the head all of whose rows are recorded as acknowledged, as
    /// [`queue_core::Queue::purge`]. It takes no memory.
    ///
    /// Behind an error the queue has to be opened again; output files and letters are ready.
    pub fn purge<S: Store>(&mut self, store: &mut S) -> Result<Option<u32>, Failed>
        requires { IsFolderReady S.Store self.old store.old }
        ensures ready { OnOk result (IsFolderReady S.Store self.new store.new) }
        ensures outputs { self.new.outputs ≡ self.old.outputs }
        ensures outputs_ready { AreOutputsReady S.Store self.new.outputs store.new }
        ensures number { IfOk result (λ number. number ≡ first_spent self.old.queue.tails) }
        ensures purged { OnOk result (self.new.queue ≡ behind_purge self.old.queue) }
        ensures err { OnErr result (self.new ≡ self.old) }

        // Of the queue of a folder: a stop at any moment leaves it, and then it lacks the page.
        ensures keeps { KeepsQueue S.Store self.old.queue store.old store.new }
        ensures removes { OnOk result (Becomes S.Store purged self.old.queue self.new.queue
            store.old store.new) }

        // Other files read as before, and a stop leaves them as it might have left them.
        ensures beside { ReadsBeside S.Store (IsOwn (names_in self.old.queue.folder)) store.old
            store.new }
        ensures beside_moments { EachMoment S.Store store.old store.new
            (LeavesBeside S.Store (IsOwn (names_in self.old.queue.folder)) store.old) }

        ensures cause { HasCause (S.faults store.old) (S.faults store.new) (IsErr result) }
    {
        self.queue.purge(store)
    }
}
