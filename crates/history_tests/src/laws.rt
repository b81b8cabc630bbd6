//! Of histories that no table can have: the contract of a function that does nothing.

ghost use Rattle.history_tests.specs.Unanswered.{UnansweredIsNotLegal};

/// What a pipeline does isn't legal where it tells a delivery to an address and heard no answer since it was opened.
pub fn a_delivery_without_its_answer_is_not_legal()
    ensures { UnansweredIsNotLegal }
{}
