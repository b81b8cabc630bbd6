//! What holds behind any list of calls. Each function here does nothing: its clauses are theorems.
ghost use Rattle.dead_letter_reader.specs.Steps.{AllAreSentAtTheEnd, LettersAreSentInOrder};

/// Behind any list of steps from an opening on, the parcels, less those that were answered `NotListening`, have a
/// front of the letters, in order and each once, and those that were answered `Assured` have the first of them.
/// Behind a step that answers `Ended` both have all letters, and the last parcel was sent.
pub fn letters_are_sent_in_order()
    ensures in_order { LettersAreSentInOrder }
    ensures ended { AllAreSentAtTheEnd }
{}
