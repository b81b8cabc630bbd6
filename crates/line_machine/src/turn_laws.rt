//! What holds of the steps that are chosen. Each function here does nothing: its clauses are theorems.
ghost use Rattle.event_flow.specs.Meaning.{Makes};
ghost use Rattle.history_book.specs.Contents.{Bytes};
ghost use Rattle.history_book.specs.Links.{Listening};
ghost use Rattle.history_book.specs.Sound.{Places};
ghost use Rattle.line_machine.specs.Choices.{ChoicesAreNew, ChoicesCanBeDone, ChoicesHaveWork, NoneIsDone, NoneIsRest, RestHasNone, TurnsEnd};

/// A step that is chosen by a line's summary can be asked for where the line stands, there is something to do for it,
/// and it wasn't refused in this turn.
pub fn choices_can_be_done()
    ensures done { (listening : Listening) (places : Places) → ChoicesCanBeDone listening places }
    ensures work { (makes : Makes) (listening : Listening) (bytes : Bytes) (places : Places)
        → ChoicesHaveWork makes listening bytes places }
    ensures new { (listening : Listening) (places : Places) → ChoicesAreNew listening places }
{}

/// Where nothing was refused and no result of a batch was lost, no step is chosen exactly where the line has nothing
/// left to do, and no parcel shows at an end that listens: it is at rest, or was told to stop and has come to an end.
/// Then it is done, or stopped.
pub fn none_is_chosen_at_rest()
    ensures none { (makes : Makes) (listening : Listening) (bytes : Bytes) (places : Places)
        → NoneIsRest makes listening bytes places }
    ensures done { (makes : Makes) (listening : Listening) (bytes : Bytes) (places : Places)
        → NoneIsDone makes listening bytes places }
    ensures rest { (makes : Makes) (listening : Listening) (bytes : Bytes) (places : Places)
        → RestHasNone makes listening bytes places }
{}

/// A turn ends: each call that is refused leaves fewer that can be.
pub fn turns_end()
    ensures { (makes : Makes) (listening : Listening) (bytes : Bytes) (places : Places)
        → TurnsEnd makes listening bytes places }
{}
