//! Laws of the definitions of events and their texts. Each is the contract of a function that does
//! nothing: a caller learns the law by the call.
#![tactic(auto)]

ghost use Rattle.std.specs.Prelude.{◌≡◌, ℕ, List, Some, flat_map};
ghost use Rattle.event_tree.specs.Number.{Num};
ghost use Rattle.event_tree.specs.NumberTexts.{NumberReads, IsI64};
ghost use Rattle.event_json.specs.Json.{number_text};
ghost use Rattle.event_text.specs.TextLaws.{PathsAreOne, PathsAreComputed, FaultyTextsAreNoPaths, FaultsAreOne, FaultsAreComputed, PathsHaveNoFault, NumbersAreOne, NumberTextsReadAsNoOther, DatesAreRead, FieldsAreRead, OthersStay, UnclosedStays, UnopenedStays, PlainTextsAreOnePiece, RunsAreParts, OtherRunsAreRefused, DaysHaveOneText};
ghost use Rattle.event_text.specs.Template.{template_parts, written, AreRead};

/// A text is a path in one way at most, which is the one that is computed, and it is none where a
/// fault stands in it.
pub fn paths_read_once()
    ensures once { PathsAreOne }
    ensures computed { PathsAreComputed }
    ensures faulty { FaultyTextsAreNoPaths }
{}

/// A text that is no path has one first fault at most, which is the one that is computed, and a path
/// has none.
pub fn path_faults_are_first()
    ensures once { FaultsAreOne }
    ensures computed { FaultsAreComputed }
    ensures none { PathsHaveNoFault }
{}

/// A text writes one number at most, in least form.
pub fn numbers_read_once()
    ensures { NumbersAreOne }
{}

/// The text of a number, as `write_json` writes it, reads as that number and as no other.
pub fn number_texts_read_back()
    ensures reads { (n : Num) → IsI64 n.mantissa → NumberReads (Some n) (number_text n) }
    ensures only { NumberTextsReadAsNoOther }
{}

/// The pieces of a template are written as its text, and each says what is written of it: no text is
/// lost, a field's text is a path that leads to the field, and a date's is its format.
pub fn pieces_are_those_of_the_text()
    ensures whole { (template : List ℕ) → flat_map written (template_parts template) ≡ template }
    ensures read { (template : List ℕ) → AreRead (template_parts template) }
{}

/// What begins with `%{`, a format behind `+` or else a path, and the next `}`, is that date or field,
/// and then come the pieces of the rest. Where it is neither, where no `}` stands behind, and where a
/// text begins otherwise, its first byte is plain, and reading goes on behind it. So these are all pieces
/// that a template has. A text with no `%` is plain.
pub fn placeholders_are_read()
    ensures date { DatesAreRead }
    ensures field { FieldsAreRead }
    ensures other { OthersStay }
    ensures unclosed { UnclosedStays }
    ensures unopened { UnopenedStays }
    ensures plain { PlainTextsAreOnePiece }
{}

/// A format is its longest runs of one letter, or of bytes that are no letters, each a part of its own.
pub fn formats_are_read_run_by_run()
    ensures part { RunsAreParts }
    ensures other { OtherRunsAreRefused }
{}

/// Events of the same day fill a template for which the day alone counts (`Template::day_of`) to the same text.
pub fn a_day_has_one_text()
    ensures { DaysHaveOneText }
{}
