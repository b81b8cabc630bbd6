//! What holds of open queues and of batches as rows. Each function here does nothing: its clause is a theorem.
ghost use Rattle.queue_core.specs.Acknowledging.{AcknowledgedIsOpen, AcknowledgedIsReady};
ghost use Rattle.queue_core.specs.Beside.{HoldsBeside, StaysOpen, StaysReady};
ghost use Rattle.queue_core.specs.GivenOnce.{RowsAreGivenOnce};
ghost use Rattle.queue_core.specs.NextBatch.{NextBatchIsRead};
ghost use Rattle.queue_core.specs.QueueBatches.{FirstRowsAreTaken};
ghost use Rattle.queue_core.specs.Recovery.{WhatIsKeptIsOpened};
ghost use Rattle.queue_core.specs.Unread.{NextRowsAreRead};
ghost use Rattle.queue_core.specs.UnreadRows.{AcknowledgedLeavesUnread, AllAreGiven, MarkLeavesUnread};
ghost use Rattle.queue_core.specs.UnreadRows.{OpenedRowsAreUnread};
ghost use Rattle.queue_core.specs.UnreadRows.{PurgeLeavesUnread, WrittenComesLast};

use io_traits::Store;

/// The rows that are read of a page for a batch are the next ones that aren't below a number, as many as the
/// batch may have.
pub fn next_rows_are_read()
    ensures { NextRowsAreRead }
{}

/// Where the rows of the pages of a queue stand in their files, those that are read for a batch are the next
/// ones that aren't recorded as acknowledged, in order, as many as the batch may have; and the row behind them
/// is the next one then.
pub fn next_batch_is_read()
    ensures { NextBatchIsRead }
{}

/// Of a queue whose rows stand in its files a batch takes the first unread rows, in order, as many as it may
/// have, and none where no row is unread; the others are the unread rows behind it.
pub fn first_rows_are_taken()
    ensures { FirstRowsAreTaken }
{}

/// A store that holds the queue of a folder holds it with rows acknowledged: nothing is recorded of that before
/// a mark. And the queue takes calls as before.
pub fn acknowledged_rows_leave_the_queue<S: Store>()
    ensures holds { AcknowledgedIsOpen S.Store }
    ensures ready { AcknowledgedIsReady S.Store }
{}

/// Reads of a store that holds a queue with unread rows give that queue, so a batch takes the first of them. Of
/// a queue that was opened all rows are unread, page by page, but those recorded as acknowledged.
pub fn opened_rows_are_unread<S: Store>()
    ensures { OpenedRowsAreUnread S.Store }
{}

/// An acknowledgement leaves the same rows unread: what is given next doesn't depend on it before a mark.
pub fn acknowledged_rows_leave_unread<S: Store>()
    ensures { AcknowledgedLeavesUnread S.Store }
{}

/// A row that is written comes behind all unread rows, in the head page or a new one. Where it needs a new
/// page, that takes each acknowledged row to have been given.
pub fn a_written_row_comes_last<S: Store>()
    ensures { WrittenComesLast S.Store }
{}

/// A page that goes leaves the same rows unread, since all of its own are recorded as acknowledged.
pub fn a_purge_leaves_unread<S: Store>()
    ensures { PurgeLeavesUnread S.Store }
{}

/// Where each acknowledged row was given, a mark leaves the same rows unread.
pub fn a_mark_leaves_unread<S: Store>()
    ensures { MarkLeavesUnread S.Store }
{}

/// Of a queue that was opened, and behind a mark, each acknowledged row was given or is recorded.
pub fn all_acknowledged_rows_are_given<S: Store>()
    ensures { AllAreGiven S.Store }
{}

/// From an opening on each row is given once, in the order of the numbers, whatever calls come one behind the
/// other: those that were found, and then those that were written. Where batches are acknowledged that were given,
/// no mark passes over a row; and there is no batch exactly where all rows were given.
pub fn each_row_is_given_once<S: Store>()
    ensures { RowsAreGivenOnce S.Store }
{}

/// A folder that holds a queue, as each does that a stop at any moment of a call leaves, is opened, and never found
/// damaged. What is opened gives the rows of the queue, page by page, that weren't acknowledged when that was last
/// recorded, or aren't now; and of those behind the last record the first, be they none or all.
pub fn what_is_kept_is_opened<S: Store>()
    ensures { WhatIsKeptIsOpened S.Store }
{}

/// Calls of others on the store, which change no file of the queue's folder, leave the queue: whatever a stop
/// leaves meanwhile holds it, the store holds it when they are done, and it takes calls as before.
pub fn others_change_nothing<S: Store>()
    ensures holds { HoldsBeside S.Store }
    ensures opens { StaysOpen S.Store }
    ensures ready { StaysReady S.Store }
{}
