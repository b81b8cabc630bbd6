// A book that keeps all entries while there is memory.
ghost use Rattle.std.specs.Prelude.{◌≡◌, [], ◌∷◌, ◌++◌, OnOk, OnErr};
ghost use Rattle.history_book.specs.BookEntries.{entry_of};
ghost use Rattle.history_book.specs.Books.{blank, history, Adds};

use crate::book::Book;
use crate::entry::Entry;
use crate::kept::KeptEntry;
use plain_data::Items;
use std::alloc::{AllocError, Global};
use std::marker::Model;

/// An entry, and the number of the pipeline that told it.
#[derive(Drop)]
pub struct Told {
    pub line: u32,
    pub entry: KeptEntry,
}

/// A book that keeps all that it is told, until it finds no memory: from then on it keeps what it had.
#[derive(Drop)]
pub struct FullBook {
    entries: Items<Told>,
    is_whole: bool,
}

impl Model for FullBook {
    ghost use Rattle.std.specs.Coded.{codes};
    ghost use Rattle.history_book.specs.Books.{BookView};
    ghost use Rattle.history_book.specs.contracts.kept.KeptEntry as kept;

    ghost Value = { BookView };

    ghost coded = { Prim.hlevel (codes, kept.the_row.coded) };

    ghost view = { λ book. record { entries = book.entries; is_whole = book.is_whole } };
}

impl FullBook {
    /// It was told nothing yet, and takes no memory.
    pub fn new(alloc: Global) -> FullBook
        ensures { result ≡ blank }
    {
        FullBook {
            entries: Items::new(alloc),
            is_whole: true,
        }
    }

    /// What it keeps, the oldest first.
    pub fn entries(&self) -> &[Told]
        ensures { result.now ≡ self.now.entries }
    {
        self.entries.as_slice()
    }

    /// Whether it keeps all that it was told.
    pub fn is_whole(&self) -> bool
        ensures { result ≡ self.now.is_whole }
    {
        self.is_whole
    }

    /// Where it keeps all that it was told and finds memory, it keeps this entry behind the others. Otherwise it
    /// keeps what it had, and not all that it was told from then on.
    pub fn tell(&mut self, line: u32, entry: Entry<'_>)
        ensures { Adds line (entry_of entry.entry) self.old self.new }
    {
        if self.is_whole {
            self.is_whole = self.add(line, &entry).is_ok();
        }
    }

    fn add(&mut self, line: u32, entry: &Entry<'_>) -> Result<(), AllocError>
        ensures ok { OnOk result
            (history self.new ≡ history self.old ++ (line, entry_of entry.now) ∷ []) }
        ensures err { OnErr result (self.new.entries ≡ self.old.entries) }
        ensures same { self.new.is_whole ≡ self.old.is_whole }
    {
        let entry = entry.keep(self.entries.allocator())?;
        self.entries.push(Told { line, entry })
    }
}

impl Book for FullBook {
    ghost use Rattle.history_book.specs.Books.{told_by};

    ghost told = { told_by };

    fn keeps(&self) -> bool {
        true
    }

    fn tell(&mut self, line: u32, entry: Entry<'_>) {
        self.tell(line, entry);
    }
}
