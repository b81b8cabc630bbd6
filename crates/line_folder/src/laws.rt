//! What holds of the parts of a folder beside each other. Each function here does nothing: its clauses are theorems.
ghost use Rattle.line_folder.specs.FileNames.{NamesTellParts};
ghost use Rattle.line_folder.specs.Readiness.{AcknowledgedKeepsFolder, DeliveryKeepsInputs, DeliveryKeepsOpen, DeliveryKeepsQueue};
ghost use Rattle.line_folder.specs.Readiness.{InputsKeepFolder, InputsKeepInputs, InputsKeepOpen, LettersKeepInputs, LettersKeepOpen, LettersKeepQueue};
ghost use Rattle.line_folder.specs.Readiness.{PartsAreApart, QueueKeepsInputs, QueueKeepsOutputs};

use io_traits::Store;

/// Each file of a pipeline belongs to one part, by its name: pages and checkpoints to the queue, and the dead letters, the
/// positions of output files, those of inputs and the files outside of the folder to theirs.
pub fn names_tell_parts()
    ensures { NamesTellParts }
{}

/// A test of parts tells files of others from those of a queue, of dead letters, of open output files and of an input.
pub fn parts_are_apart<S: Store>()
    ensures { PartsAreApart S.Store }
{}

/// A call of the queue leaves the output files that are open and the dead letters ready.
pub fn the_queue_leaves_outputs_ready<S: Store>()
    ensures { QueueKeepsOutputs S.Store }
{}

/// A delivery to a file outside of the folder, and an append of letters, leave the queue ready, and the store
/// holds it still.
pub fn outputs_leave_the_queue_ready<S: Store>()
    ensures delivery { DeliveryKeepsQueue S.Store }
    ensures delivery_open { DeliveryKeepsOpen S.Store }
    ensures letters { LettersKeepQueue S.Store }
    ensures letters_open { LettersKeepOpen S.Store }
{}

/// Calls of the queue and of the outputs leave an input ready that records its position in the folder, and so do inputs
/// that read other paths.
pub fn inputs_stay_ready<S: Store>()
    ensures queue { QueueKeepsInputs S.Store }
    ensures delivery { DeliveryKeepsInputs S.Store }
    ensures letters { LettersKeepInputs S.Store }
    ensures inputs { InputsKeepInputs S.Store }
{}

/// An input that records its position in the folder leaves all parts ready, and the store holds the queue still.
pub fn inputs_leave_the_folder_ready<S: Store>()
    ensures folder { InputsKeepFolder S.Store }
    ensures opens { InputsKeepOpen S.Store }
{}

/// Acknowledged rows leave all parts ready.
pub fn acknowledged_rows_leave_the_folder_ready<S: Store>()
    ensures { AcknowledgedKeepsFolder S.Store }
{}
