//! What holds of file inputs. Each function here does nothing: its clauses are theorems.
ghost use Rattle.in_file.specs.Growing.{GrowthStands, LookStands};
ghost use Rattle.in_file.specs.Positions.{KeptReady, ReadyHasRoom, StandsBeside, StaysReady};

use io_traits::Store;

/// An input that is ready has room in its position file for its next slot.
pub fn what_is_ready_has_room<S: Store>()
    ensures { ReadyHasRoom S.Store }
{}

/// An input that is ready is so behind polls and lines.
pub fn polls_and_lines_leave_it_ready<S: Store>()
    ensures { KeptReady S.Store }
{}

/// Whatever a stop leaves while others change files of their own, the position of an input that was ready stands; and
/// it is ready when they are done.
pub fn others_change_nothing<S: Store>()
    ensures stands { StandsBeside S.Store }
    ensures ready { StaysReady S.Store }
{}

/// While a file only grows, the bytes that were read of it are those that it has from where the reading began.
pub fn what_was_read_stands_in_the_file()
    ensures look { LookStands }
    ensures growth { GrowthStands }
{}
