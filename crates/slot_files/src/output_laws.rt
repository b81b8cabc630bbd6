//! What holds of output files with their position files. Each function here does nothing: its clauses are
//! theorems.
ghost use Rattle.slot_files.specs.Contents.{HeldIsCounted, HoldsOne, DamagesDiffer};
ghost use Rattle.slot_files.specs.Outputs.{ReadyHasRoom, StandsBeside, StaysReady};

use io_traits::Store;

/// Of a file that holds a content so many bytes count, and it isn't damaged.
pub fn what_is_held_counts()
    ensures { HeldIsCounted }
{}

/// A file holds one content.
pub fn one_content_is_held()
    ensures { HoldsOne }
{}

/// Where a file is damaged, what was found differs from what was expected.
pub fn damages_differ()
    ensures { DamagesDiffer }
{}

/// An output file that is ready has room in its position file for the slot of its next batch.
pub fn what_is_ready_has_room<S: Store>()
    ensures { ReadyHasRoom S.Store }
{}

/// Whatever a stop leaves while others change files of their own, an output file that was ready has its
/// content; and it is ready when they are done.
pub fn others_change_nothing<S: Store>()
    ensures stands { StandsBeside S.Store }
    ensures ready { StaysReady S.Store }
{}
