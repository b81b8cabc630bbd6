//! What holds of spellings, as contracts of functions that do nothing.
ghost use Rattle.std.specs.Prelude.{◌≡◌, List, ℕ, ◌++◌, []};
ghost use Rattle.event_tree.specs.Events.{Ev};
ghost use Rattle.element_code.specs.Parts.{event_spelling};
ghost use Rattle.element_code.specs.Values.{IsWhole};
ghost use Rattle.element_code.specs.Faults.{HasOnePlace, IsRefusedAt, SpelledAreNotRefused};
ghost use Rattle.element_code.specs.RowBodies.{NoRowBeginsAnother, IsRowRefusedAt, BodiesAreNotRefused};

/// No spelling of an event begins another: bytes that go on are those of no event, or of the same one
/// with nothing behind it.
pub fn no_spelling_begins_another()
    ensures { (event other : Ev) (more : List ℕ) → IsWhole event → IsWhole other
        → event_spelling event ++ more ≡ event_spelling other → (event ≡ other) × (more ≡ []) }
{}

/// Bytes are refused at one place at most: what `decode` answers where it reads no event is the one
/// place that the definition allows.
pub fn bytes_are_refused_at_one_place()
    ensures { HasOnePlace IsRefusedAt }
{}

/// No body of a row begins another: bytes that go on are the body of no row, or of the same one with
/// nothing behind it.
pub fn no_row_body_begins_another()
    ensures { NoRowBeginsAnother }
{}

/// Bytes are refused as the body of a row at one place at most.
pub fn row_bodies_are_refused_at_one_place()
    ensures { HasOnePlace IsRowRefusedAt }
{}

/// What is spelled is refused nowhere: bytes are a spelling, or have the place of a fault, and never both.
pub fn what_is_spelled_is_not_refused()
    ensures events { SpelledAreNotRefused }
    ensures rows { BodiesAreNotRefused }
{}
