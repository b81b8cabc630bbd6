//! What holds of output files and dead letters beside each other, and of fates. Each function here does
//! nothing: its clauses are theorems.
ghost use Rattle.line_outputs.specs.NewLetters.{FatesAreAsMany};
ghost use Rattle.line_outputs.specs.OpenFiles.{FilesStand, FilesStayReady};
ghost use Rattle.line_outputs.specs.Readiness.{FilesKeepLetters, LettersKeepFiles, OpenCountsWhole, OutputsStayReady};

use io_traits::Store;

/// Whatever a stop leaves while others change files of their own on the store, an output file that is open has
/// its content; and when they are done, the output files and the dead letters are ready.
pub fn others_change_nothing<S: Store>()
    ensures stands { FilesStand S.Store }
    ensures files { FilesStayReady S.Store }
    ensures outputs { OutputsStayReady S.Store }
{}

/// A delivery to an output file leaves the dead letters of the folder ready, and an append of letters the
/// output files that are open: their names differ.
pub fn files_and_letters_stay_ready<S: Store>()
    ensures letters { FilesKeepLetters S.Store }
    ensures files { LettersKeepFiles S.Store }
{}

/// Of an output file that is open all counts: a delivery leaves all its bytes, and then the batch.
pub fn all_of_an_open_file_counts<S: Store>()
    ensures { OpenCountsWhole S.Store }
{}

/// The fates of events are as many as the events, so that what was rejected of them can be asked.
pub fn fates_are_as_many_as_events()
    ensures { FatesAreAsMany }
{}
