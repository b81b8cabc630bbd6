//! What holds of every value of an event, and the texts that values are shown by, as contracts of
//! functions that do nothing: a caller learns the law by the call.
ghost use Rattle.std.specs.Prelude.{◌≡◌, ◌↔◌, ℕ, ℤ, List, [], Bool, true, false, Some, map, slice_get};
ghost use Rattle.std.specs.Str.{IsUtf8};
ghost use Rattle.plain_data.specs.Members.{Rises};
ghost use Rattle.plain_data.specs.Calendar.{IsMoment};
ghost use Rattle.event_tree.specs.Number.{Num};
ghost use Rattle.event_tree.specs.Values.{Members};
ghost use Rattle.event_tree.specs.Sound.{sound};
ghost use Rattle.event_tree.specs.Events.{Ev, Way, IsEvent, event_at};
ghost use Rattle.event_tree.specs.declared.value.Value.{Value};
ghost use Rattle.event_tree.specs.declared.value.Value.TheVariants as v;
ghost use Rattle.event_json.specs.TimeText.{time_text_of};
ghost use Rattle.event_json.specs.Json.{json};
ghost use Rattle.event_text.specs.Shown.{joined, shown};
ghost use Rattle.event_text.specs.ValueLaws.{IsNumber, IsSoundMember};

/// What it says that a value is sound: a text is UTF-8, a number one of 64 bits in least form, a time
/// lies in the years 0001 to 9999, the items of a list are sound, and so are the values of an object,
/// whose keys are UTF-8 and rise strictly.
pub fn sound_values_hold()
    ensures text { (bytes : List ℕ) → sound (v.Text bytes) ≡ true ↔ IsUtf8 bytes }
    ensures number { (n : Num) → sound (v.Num n) ≡ true ↔ IsNumber n }
    ensures time { (nanos : ℤ) → sound (v.Time nanos) ≡ true ↔ IsMoment nanos }
    ensures item { (items : List Value) (at : ℕ) (item : Value) → sound (v.List items) ≡ true
        → slice_get items at ≡ Some item → sound item ≡ true }
    ensures rises { (members : Members) → sound (v.Object members) ≡ true → Rises members }
    ensures member { (members : Members) (at : ℕ) (member : List ℕ × Value)
        → sound (v.Object members) ≡ true → slice_get members at ≡ Some member → IsSoundMember member }
{}

/// Every value that stands in an event is sound, whatever calls made the event.
pub fn what_is_got_is_sound()
    ensures { (way : Way) (event : Ev) (value : Value) → IsEvent event
        → event_at way event ≡ Some value → sound value ≡ true }
{}

/// The text that a value is shown by: null by the empty text, a text by itself, a time by its text, a
/// list by its items' texts with a comma between, and all others by their JSON text.
pub fn values_are_shown()
    ensures null { shown v.Null ≡ [] }
    ensures bool { (truth : Bool) → shown (v.Bool truth) ≡ json (v.Bool truth) }
    ensures number { (n : Num) → shown (v.Num n) ≡ json (v.Num n) }
    ensures text { (bytes : List ℕ) → shown (v.Text bytes) ≡ bytes }
    ensures time { (nanos : ℤ) → shown (v.Time nanos) ≡ time_text_of nanos }
    ensures list { (items : List Value) → shown (v.List items) ≡ joined false (map shown items) }
    ensures object { (members : Members) → shown (v.Object members) ≡ json (v.Object members) }
{}
