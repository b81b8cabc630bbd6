//! What holds of the folder of a queue. Each function here does nothing: its clauses are theorems.
ghost use Rattle.queue_files.specs.Laws.{StandingIsKept, NamesDiffer, FoundGoesByPages, ReadIsRecorded, TailsStand, MarkedHeadsStand, OpenHeadsStand, RestingIsKept, MarkingIsKept, StaysNew, FirstIsHeld, FirstIsEmpty, HeldStands, SameFilesStand, RolledIsQueue, RolledIsHeld, PurgedIsQueue, PurgedStands, PurgedIsHeld, MarkedKeeps, MarkedRolledKeeps, RowKeeps, RolledKeeps, PurgedKeeps, FoundBeside, KeptBeside};

/// A folder whose files are those of a queue, each for itself, holds the rows of the queue.
pub fn what_stands_is_kept()
    ensures { StandingIsKept }
{}

/// No two files of a folder have one name.
pub fn names_differ()
    ensures { NamesDiffer }
{}

/// Pages above the head, checkpoints of pages from the head on, and what stands behind the rows of the head
/// page change nothing of what a folder holds.
pub fn what_is_found_goes_by_pages()
    ensures { FoundGoesByPages }
{}

/// What the newest slot of a checkpoint is read as is recorded there.
pub fn what_is_read_is_recorded()
    ensures { ReadIsRecorded }
{}

/// Whatever a stop leaves while marks are written, each page stands: its checkpoint says what it said before,
/// or what is acknowledged now.
pub fn marks_may_be_torn()
    ensures tails { TailsStand }
    ensures head { MarkedHeadsStand }
{}

/// Whatever a stop leaves of rows behind the last mark, the head page stands with the first of them.
pub fn rows_may_be_torn()
    ensures { OpenHeadsStand }
{}

/// Whatever a stop leaves of a queue between two calls, and while a mark is written, holds the queue.
pub fn whatever_stops_is_kept()
    ensures resting { RestingIsKept }
    ensures marking { MarkingIsKept }
{}

/// A new folder stays new while its page 0 is made, and holds the first queue, which has no row, once its head
/// slot is written.
pub fn a_new_folder_has_no_row()
    ensures new { StaysNew }
    ensures held { FirstIsHeld }
    ensures empty { FirstIsEmpty }
{}

/// What reads give of a queue stands file by file, and so does a folder with the same files of a queue,
/// whatever else is in it.
pub fn same_files_stand()
    ensures held { HeldStands }
    ensures same { SameFilesStand }
{}

/// Once a new head page is begun, reads give the queue with it.
pub fn a_new_head_page_is_held()
    ensures queue { RolledIsQueue }
    ensures held { RolledIsHeld }
{}

/// Where one of the pages below the head is gone, the folder holds the queue without it.
pub fn a_page_may_go()
    ensures queue { PurgedIsQueue }
    ensures stands { PurgedStands }
    ensures held { PurgedIsHeld }
{}

/// A folder that holds what a call makes of a queue holds the queue before the call, too: after a mark, a new
/// head page, both of them, or a purge. And one that holds a queue holds it with a row more, which may be missing.
pub fn what_follows_keeps_what_was()
    ensures marked { MarkedKeeps }
    ensures rolled { RolledKeeps }
    ensures marked_rolled { MarkedRolledKeeps }
    ensures purged { PurgedKeeps }
    ensures row { RowKeeps }
{}

/// What a folder holds, and whether it holds a queue, goes by its own files alone, whatever becomes of the
/// others.
pub fn other_files_change_nothing()
    ensures found { FoundBeside }
    ensures kept { KeptBeside }
{}
