// Files in memory whose content changes between calls.
ghost use Rattle.std.specs.Prelude.{◌≡◌, ◌≤◌, ◌↔◌, [], Err, true, IfOk, IsErr, IsTrue, length, option_map};
ghost use Rattle.io_traits.specs.Folders.{Lists};
ghost use Rattle.io_traits.specs.Reads.{GivesInto};
ghost use Rattle.io_memory.specs.Tables.{content_of};
ghost use Rattle.io_memory.specs.Showings.{shown_from};

use crate::listing::list_in;
use crate::scripts::Script;
use crate::tables::{FileTable, copy_from, length_in};
use io_traits::{Failed, Files, ListFault};
use plain_data::Names;
use std::alloc::Global;
use std::marker::Model;

/// Files that stand from a call on.
#[derive(Drop)]
pub struct Showing {
    /// The number of the first call that sees them, from 0.
    pub from: u64,
    pub files: FileTable,
}

/// Files in memory that change between calls as others would change them, which it tells.
pub struct MemoryFiles {
    empty: FileTable,
    contents: Vec<Showing>,
    script: Script,
}

// Written out, so that it is one call wherever an error is handed on.
impl Drop for MemoryFiles {
    fn drop(self) {
        let MemoryFiles {
            empty: _empty,
            contents: _contents,
            script: _script,
        } = self;
    }
}

impl Model for MemoryFiles {
    ghost use Rattle.std.specs.Prelude.{◌≡◌, []};
    ghost use Rattle.io_memory.specs.Showings.{Shows};

    ghost Value = { Shows };

    ghost view = { λ s. record { contents = s.contents.items; script = s.script } };

    ghost invariant = { λ s. s.empty ≡ [] };
}

impl MemoryFiles {
    ghost use Rattle.io_memory.specs.Scripts.{CountsFault, fails_next, begun};
    ghost use Rattle.io_memory.specs.Showings.{shown_at, shown_now};

    /// Files of which a call sees the last of these contents that stand from its number or an earlier
    /// one on; none where there are none.
    pub fn new(alloc: Global, contents: Vec<Showing>, script: Script) -> MemoryFiles
        ensures { result ≡ record { contents = contents.items; script = script } }
    {
        MemoryFiles {
            empty: FileTable::new(alloc),
            contents,
            script,
        }
    }

    /// Its script, which counts the calls and the faults.
    pub fn script(&self) -> &Script
        ensures { result.now ≡ self.now.script }
    {
        &self.script
    }

    // The files that the call of this number sees.
    fn shown(&self, number: u64) -> &FileTable
        ensures { content_of result.now ≡ shown_at self.now number }
    {
        shown_in(&self.empty, &self.contents, number)
    }

    /// The last parts of the names in a folder. It answers `ListFault::Memory` where there is no
    /// memory for them, and fails exactly where its script names the call.
    pub fn list(&mut self, alloc: Global, folder: &str) -> Result<Names, ListFault>
        ensures fails { (result ≡ Err ListFault.Failed) ↔ IsTrue (fails_next self.old.script) }
        ensures state { self.new ≡ record self.old { script = begun self.old.script } }
        ensures names { IfOk result (λ names. Lists (shown_now self.old) folder.now names) }
        ensures cause { CountsFault self.old.script self.new.script
            (result ≡ Err ListFault.Failed) }
    {
        let number = self.script.made();
        if self.script.begin().is_err() {
            return Err(ListFault::Failed);
        }
        match list_in(self.shown(number), alloc, folder) {
            Ok(names) => Ok(names),
            Err(_) => Err(ListFault::Memory),
        }
    }

    /// The length of a file. It fails exactly where its script names the call.
    pub fn length(&mut self, path: &str) -> Result<Option<u64>, Failed>
        ensures fails { IsErr result ↔ IsTrue (fails_next self.old.script) }
        ensures state { self.new ≡ record self.old { script = begun self.old.script } }
        ensures length { IfOk result (λ n. n ≡ option_map length (shown_now self.old path.now)) }
        ensures cause { CountsFault self.old.script self.new.script (IsErr result) }
    {
        let number = self.script.made();
        self.script.begin()?;
        Ok(length_in(self.shown(number), path))
    }

    /// Reads of a file. It fails exactly where its script names the call.
    pub fn read(&mut self, path: &str, at: u64, into: &mut [u8]) -> Result<usize, Failed>
        ensures fails { IsErr result ↔ IsTrue (fails_next self.old.script) }
        ensures state { self.new ≡ record self.old { script = begun self.old.script } }
        ensures within { IfOk result (λ n. n ≤ length into.old) }
        ensures gives { IfOk result (GivesInto (shown_now self.old path.now) at into.old into.new) }
        ensures cause { CountsFault self.old.script self.new.script (IsErr result) }
    {
        let number = self.script.made();
        self.script.begin()?;
        Ok(copy_from(self.shown(number), path, at, into))
    }
}

// The files that the call of this number sees.
fn shown_in<'a>(empty: &'a FileTable, contents: &'a [Showing], number: u64) -> &'a FileTable
    ensures { result.now ≡ shown_from empty.now contents.now number }
{
    let mut shown = empty;
    for showing in contents {
        if showing.from <= number {
            shown = &showing.files;
        }
    }
    shown
}

impl Files for MemoryFiles {
    ghost use Rattle.io_memory.specs.Showings.{shown_at};

    ghost tells = { true };

    ghost shows = { λ s. shown_at s };

    ghost calls = { λ s. s.script.made };

    ghost faults = { λ s. s.script.faults };

    fn list(&mut self, alloc: Global, folder: &str) -> Result<Names, ListFault> {
        self.list(alloc, folder)
    }

    fn length(&mut self, path: &str) -> Result<Option<u64>, Failed> {
        self.length(path)
    }

    fn read(&mut self, path: &str, at: u64, into: &mut [u8]) -> Result<usize, Failed> {
        self.read(path, at, into)
    }
}
