//! What holds of the inputs of a line. Each function here does nothing: its clauses are theorems.
ghost use Rattle.line_inputs.specs.Positions.{StaysReady, StoredReady};

use io_traits::Store;

/// An input whose position files are ready is so when others have changed files of their own on its store.
pub fn others_change_nothing<S: Store>()
    ensures { StaysReady S.Store }
{}

/// What its polls, events and rows leave of its position files leaves them ready.
pub fn polls_and_rows_leave_it_ready<S: Store>()
    ensures { StoredReady S.Store }
{}
