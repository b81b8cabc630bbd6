//! What holds of the steps of a queue. Each function here does nothing: its clauses are theorems.
ghost use Rattle.queue_files.specs.Marks.{MarksKeep, MarksRecord};
ghost use Rattle.queue_files.specs.Reading.{PagesAreFound};
ghost use Rattle.queue_files.specs.Removing.{UnreadFilesMayGo};

/// Whatever a stop leaves while the marks of a queue are written holds the queue, and once they are written
/// all of it is recorded.
pub fn marks_keep_the_queue()
    ensures any_moment { MarksKeep }
    ensures recorded { MarksRecord }
{}

/// What is read of the pages that stand below the head of a folder, and of its head page, is what the folder
/// holds.
pub fn the_pages_that_stand_are_found()
    ensures { PagesAreFound }
{}

/// Pages above the head, checkpoints from it on and checkpoints without a page may go, each for itself: what a
/// folder holds stays.
pub fn unread_files_may_go()
    ensures { UnreadFilesMayGo }
{}
