// The trait of books that pipelines tell their steps to.
ghost use Rattle.std.specs.Prelude.{◌≡◌, [], ◌∷◌, true, IsSome};
ghost use Rattle.io_traits.specs.Telling.{Grows};
ghost use Rattle.history_book.specs.BookEntries.{entry_of};

use crate::entry::Entry;

/// What pipelines tell their steps to.
pub trait Book {
    ghost use Rattle.std.specs.Prelude.{ℕ, List, Option};
    ghost use Rattle.history_book.specs.Entries.{Entry as Told};

    /// All that it was told, each with the number of the pipeline that told it, where it keeps all of it.
    ghost told: { Self → Option (List (ℕ × Told)) };

    /// Whether it keeps anything of what it is told: a book that tells keeps. Where it doesn't, what takes memory to be told
    /// need not be made.
    fn keeps(&self) -> bool
        ensures { IsSome (told self.now) → result ≡ true };

    /// A pipeline, by its number, tells of a step. A book that has no memory for it keeps nothing of it, and from
    /// then on it doesn't keep all that it was told.
    fn tell(&mut self, line: u32, entry: Entry<'_>)
        ensures { Grows (told self.old) (told self.new) ((line, entry_of entry.entry) ∷ []) };
}
