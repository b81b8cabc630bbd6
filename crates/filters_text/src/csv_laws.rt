// The law that a row of CSV is the only one of its text.
ghost use Rattle.std.specs.Prelude.{◌≡◌, ◌<◌, ℕ, List, IsUtf8};
ghost use Rattle.filters_text.specs.Rows.{one_row, only, rows};

/// Where the separator and the quote are of ASCII, the row that a text is is the only row that it has: its fields
/// are text.
pub fn rows_are_text()
    ensures { (separator quote : ℕ) (text : List ℕ) → separator < 128 → quote < 128 → IsUtf8 text
        → one_row separator quote text ≡ only (rows separator quote text) }
{}
