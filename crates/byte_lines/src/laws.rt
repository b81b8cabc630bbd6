//! Laws of the definitions. Each is the contract of a function that does nothing: a caller learns the
//! law by the call.
#![tactic(auto, using(crate::proofs::Giving::laws))]

ghost use Rattle.std.specs.Prelude.{◌≡◌, ◌≢◌, ◌<◌, ◌++◌, ℕ, Bool, List, [], ◌∷◌, true, false, length};
ghost use Rattle.std.specs.Str.{IsUtf8};
ghost use Rattle.byte_lines.specs.Split.{HasNoLineFeed, RawLine, IsRawLine, SplitsInto, line_bytes, line_content, split_of};
ghost use Rattle.byte_lines.specs.Split.RawLine.{Ended};
ghost use Rattle.byte_lines.specs.Text.{DecodesTo, text_of};
ghost use Rattle.byte_lines.specs.Lines.{line_text, whole_lines};
ghost use Rattle.byte_lines.specs.Unread.{lines_left, unread};

/// The lines and the rest that are computed are those of the bytes, and no others are. A line says all its bytes
/// but one carriage return before its line feed.
pub fn lines_are_those_of_the_bytes()
    ensures are { (limit : ℕ) (bytes : List ℕ) → 0 < limit
        → SplitsInto limit bytes (split_of limit bytes).lines (split_of limit bytes).rest }
    ensures only { (limit : ℕ) (bytes rest : List ℕ) (lines : List RawLine)
        → 0 < limit → SplitsInto limit bytes lines rest
        → (lines ≡ (split_of limit bytes).lines) × (rest ≡ (split_of limit bytes).rest) }
    ensures carriage_return { (bytes : List ℕ) → line_content (Ended (bytes ++ 13 ∷ [])) ≡ bytes }
    ensures other_byte { (bytes : List ℕ) (b : ℕ) → b ≢ 13
        → line_content (Ended (bytes ++ b ∷ [])) ≡ bytes ++ b ∷ [] }
    ensures empty { line_content (Ended []) ≡ [] }
{}

/// The text that is computed is the one to which the bytes decode, and no other is. It is UTF-8, and UTF-8 stays
/// as it is.
pub fn text_is_that_of_the_bytes()
    ensures is { (bytes : List ℕ) → DecodesTo bytes (text_of bytes) }
    ensures only { (bytes text : List ℕ) → DecodesTo bytes text → text ≡ text_of bytes }
    ensures utf8 { (bytes : List ℕ) → IsUtf8 (text_of bytes) }
    ensures same { (text : List ℕ) → IsUtf8 text → text_of text ≡ text }
{}

/// Where bytes come in two pieces, the lines of the first and then those of its rest and the second piece are the
/// lines of all the bytes, and the rest is the same. So however bytes are cut, their lines are the same.
pub fn cutting_changes_nothing()
    ensures lines { (limit : ℕ) (bytes more : List ℕ) → 0 < limit
        → let rest = (split_of limit bytes).rest in
        (split_of limit (bytes ++ more)).lines ≡ (split_of limit bytes).lines ++ (split_of limit (rest ++ more)).lines }
    ensures texts { (limit : ℕ) (bytes more : List ℕ) → 0 < limit
        → let rest = (split_of limit bytes).rest in
        whole_lines limit (bytes ++ more) ≡ whole_lines limit bytes ++ whole_lines limit (rest ++ more) }
    ensures rest { (limit : ℕ) (bytes more : List ℕ) → 0 < limit
        → let rest = (split_of limit bytes).rest in
        (split_of limit (bytes ++ more)).rest ≡ (split_of limit (rest ++ more)).rest }
    ensures settled { (limit : ℕ) (bytes : List ℕ) → 0 < limit
        → let rest = (split_of limit bytes).rest in
        split_of limit rest ≡ record { lines = []; rest = rest } }
{}

/// What a reader gives: a line at the front of the bytes comes first. Less than a line comes at an end, unless it is
/// empty, and not before.
pub fn lines_come_one_by_one()
    ensures first { (limit : ℕ) (line : RawLine) (more : List ℕ) (ended : Bool)
        → 0 < limit → IsRawLine limit line
        → lines_left (unread limit (line_bytes line ++ more) ended)
        ≡ line_text line ∷ lines_left (unread limit more ended) }
    ensures last { (limit : ℕ) (rest : List ℕ) → 0 < length rest → length rest < limit
        → HasNoLineFeed rest
        → lines_left (unread limit rest true) ≡ text_of rest ∷ [] }
    ensures waits { (limit : ℕ) (rest : List ℕ) → length rest < limit → HasNoLineFeed rest
        → lines_left (unread limit rest false) ≡ [] }
    ensures nothing { (limit : ℕ) (ended : Bool)
        → 0 < limit → lines_left (unread limit [] ended) ≡ [] }
{}
