//! What holds of JSON texts, as contracts of functions that do nothing.
ghost use Rattle.std.specs.Prelude.{◌≡◌, ◌↔◌, ℕ, ℤ, List, Option, Some, None, true};
ghost use Rattle.event_tree.specs.Number.{Num, IsLeast, least};
ghost use Rattle.event_tree.specs.NumberTexts.{NumberReads};
ghost use Rattle.event_tree.specs.Sound.{sound};
ghost use Rattle.event_tree.specs.declared.value.Value.{Value};
ghost use Rattle.event_json.specs.LeastForms.{IsValueOf};
ghost use Rattle.event_json.specs.NumberGrammar.{IsNumberText};
ghost use Rattle.event_json.specs.TextLaws.{TextsHaveOneValue, TextsAreComputed, TextsHaveNoFault, FaultsAreOne};
ghost use Rattle.event_json.specs.Untimed.{ReadsBack, timeless, untimed};

/// What `write_json` writes of a value is a JSON text of that value with the text of each time in its
/// place, of as many levels as the value has. With at most 100 of them `read_json` therefore reads it
/// so.
pub fn what_is_written_reads_back()
    ensures { (value : Value) → sound value ≡ true → ReadsBack value }
{}

/// A value in which no time stands is itself with the text of each time in its place: `read_json` reads
/// what `write_json` writes of such a value as that value, where it nests at most 100 deep.
pub fn values_without_times_stay()
    ensures { (value : Value) → timeless value ≡ true → untimed value ≡ value }
{}

/// What `Number::read` answers is what the grammar of JSON says (RFC 8259, section 6): the number of 64
/// bits in least form that has the value of the text, if the text is one of the grammar and there is such
/// a number, and none otherwise.
pub fn numbers_are_those_of_the_grammar()
    ensures { (read : Option Num) (text : List ℕ) → NumberReads read text ↔ IsNumberText read text }
{}

/// What `Number::new` answers is the least form: of at most 18 places, with no zero at its end where there
/// are places, and of the same value. It is none only where no least form has that value.
pub fn least_forms_are_least()
    ensures some { (mantissa : ℤ) (places : ℕ) (n : Num) → least mantissa places ≡ Some n
        → IsLeast n.mantissa n.scale × IsValueOf mantissa places n }
    ensures none { (mantissa : ℤ) (places : ℕ) (n : Num) → least mantissa places ≡ None
        → IsLeast n.mantissa n.scale → IsValueOf mantissa places n → ⊥ }
{}

/// A JSON text (RFC 8259) has one value, however many levels are allowed, which is the one that is
/// computed, and bytes that are no text are none that is computed.
pub fn texts_have_one_value()
    ensures once { TextsHaveOneValue }
    ensures computed { TextsAreComputed }
{}

/// A text has no fault, and bytes that are no text have one fault, at one place: what `read_json`
/// answers is the one that the definition allows.
pub fn faults_are_at_one_place()
    ensures none { TextsHaveNoFault }
    ensures once { FaultsAreOne }
{}
