// A book that keeps nothing.
use crate::book::Book;
use crate::entry::Entry;

/// A book that keeps nothing.
#[derive(Clone, Copy)]
pub struct BlankBook;

impl Book for BlankBook {
    ghost use Rattle.std.specs.Prelude.{None};

    ghost told = { λ _. None };

    fn keeps(&self) -> bool {
        false
    }

    fn tell(&mut self, _line: u32, _entry: Entry<'_>) {}
}
