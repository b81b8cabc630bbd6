// A store over the files of the machine.
ghost use Rattle.std.specs.Prelude.{◌≡◌, ◌≤◌, ◌||◌, true, false, None, Err, IfOk, IsErr, is_err, length};
ghost use Rattle.std.proofs.lemmas.Bool.{false≢true};
ghost use Rattle.io_traits.specs.Counts.{HasCause};
ghost use Rattle.io_real.specs.Adapters.{store_called, store_listed, store_synced};

use crate::fault_counts::{counted, counted_list};
use crate::opened_files::OpenedFiles;
use io_traits::{Failed, ListFault, Store};
use plain_data::Names;
use std::alloc::Global;
use std::fs::File;
use std::io::{self, ErrorKind};
use std::marker::Model;
use std::rt::Files;

/// A store over the files of the machine. A contract sees its count of faults, and
/// whether a sync failed.
///
/// What an earlier process left unsynced is synced before it is relied on: a folder when a name in it
/// is first asked for, and a file when it is first opened. Both are opened for reading alone, and a
/// file is opened for writing before its first change. A folder is no file.
///
/// A file is opened once and kept open; where 32 are, one is closed, which is synced first if it
/// changed. What is appended is there for every later read. A file that is made has its folders made
/// where they are missing; one whose name is a link to no file is made where the link leads. A sync
/// syncs the files that changed since the last one, and then the folders in which names changed, one
/// by one.
///
/// On a folder of its own, `data/main`, the store takes a lock, on the file `data/main.lock` beside it,
/// and holds it for as long as it lives. Where another store holds it, the call failed. A folder is its
/// own where the store lists it, as each opening of a queue does first: then the lock is taken before
/// anything is read of it, or, where the folder is missing, once it is made; or where the store changes a
/// file in it that has the name of a queue's file (`page.N`, `checkpoint.N`, `checkpoint.head`). Reads of
/// files in other folders take none.
///
/// Once a sync failed, each later one fails too: the machine may have dropped what it could not
/// write, and a sync that came after would not say so.
pub struct FileStore<R> {
    rt: R,
    opened: OpenedFiles,
    is_lost: bool,
    faults: u64,
}

// Written out, so that it is one call wherever an error is handed on.
impl<R: Drop> Drop for FileStore<R> {
    fn drop(self) {
        let FileStore {
            rt: _rt,
            opened: _opened,
            is_lost: _,
            faults: _,
        } = self;
    }
}

impl<R> Model for FileStore<R> {
    ghost use Rattle.io_real.specs.Adapters.{StoreCounts};

    ghost Value = { StoreCounts };

    ghost view = { λ s. record { faults = s.faults; is_lost = s.is_lost } };
}

impl<R> FileStore<R> {
    /// A store over a runtime, or a reference to one. Names are paths.
    pub fn new(alloc: Global, rt: R) -> FileStore<R>
        ensures { result ≡ record { faults = 0; is_lost = false } }
    {
        FileStore {
            rt,
            opened: OpenedFiles::new(alloc),
            is_lost: false,
            faults: 0,
        }
    }

    /// How many calls failed.
    pub fn faults(&self) -> u64
        ensures { result ≡ self.now.faults }
    {
        self.faults
    }
}

impl<R: Files<File = File> + AllocGlobal + Clone + Drop> FileStore<R> {
    // Syncs, unless a sync failed before.
    fn settle(&mut self) -> io::Result<()>
        ensures state { self.new ≡ record self.old { is_lost = self.old.is_lost || is_err result } }
        ensures lost { self.old.is_lost ≡ true → IsErr result }
    {
        if self.is_lost {
            return Err(ErrorKind::Other.into());
        }
        let outcome = self.opened.sync(&self.rt);
        self.is_lost = outcome.is_err();
        outcome
    }
}

impl<R: Files<File = File> + AllocGlobal + Clone + Drop> Store for FileStore<R> {
    ghost tells = { false };

    ghost seen = { λ _ _. None };

    ghost moment = { λ _. 0 };

    ghost may_leave = { λ _ _ _. ⊥ };

    ghost faults = { λ s. s.faults };

    fn list(&mut self, alloc: Global, folder: &str) -> Result<Names, ListFault>
        ensures state { self.new ≡ store_listed self.old result }

        // What every store promises.
        ensures cause { HasCause self.old.faults self.new.faults (result ≡ Err ListFault.Failed) }
    {
        let outcome = self.opened.list(&self.rt, alloc, folder);
        counted_list(&mut self.faults, outcome)
    }

    fn length(&mut self, name: &str) -> Result<Option<u64>, Failed>
        ensures state { self.new ≡ store_called self.old result }

        // What every store promises.
        ensures cause { HasCause self.old.faults self.new.faults (IsErr result) }
    {
        let outcome = self.opened.length(&self.rt, name);
        counted(&mut self.faults, outcome)
    }

    fn read(&mut self, name: &str, at: u64, into: &mut [u8]) -> Result<usize, Failed>
        ensures state { self.new ≡ store_called self.old result }

        // What every store promises.
        ensures within { IfOk result (λ n. n ≤ length into.old) }
        ensures cause { HasCause self.old.faults self.new.faults (IsErr result) }
    {
        let outcome = self.opened.read(&self.rt, name, at, into);
        counted(&mut self.faults, outcome)
    }

    fn append(&mut self, name: &str, bytes: &[u8]) -> Result<(), Failed>
        ensures state { self.new ≡ store_called self.old result }

        // What every store promises.
        ensures cause { HasCause self.old.faults self.new.faults (IsErr result) }
    {
        let outcome = self.opened.append(&self.rt, name, bytes);
        counted(&mut self.faults, outcome)
    }

    fn write_at(&mut self, name: &str, at: u64, bytes: &[u8]) -> Result<(), Failed>
        ensures state { self.new ≡ store_called self.old result }

        // What every store promises.
        ensures cause { HasCause self.old.faults self.new.faults (IsErr result) }
    {
        let outcome = self.opened.write_at(&self.rt, name, at, bytes);
        counted(&mut self.faults, outcome)
    }

    fn cut(&mut self, name: &str, length: u64) -> Result<(), Failed>
        ensures state { self.new ≡ store_called self.old result }

        // What every store promises.
        ensures cause { HasCause self.old.faults self.new.faults (IsErr result) }
    {
        let outcome = self.opened.cut(&self.rt, name, length);
        counted(&mut self.faults, outcome)
    }

    fn remove(&mut self, name: &str) -> Result<(), Failed>
        ensures state { self.new ≡ store_called self.old result }

        // What every store promises.
        ensures cause { HasCause self.old.faults self.new.faults (IsErr result) }
    {
        let outcome = self.opened.remove(&self.rt, name);
        counted(&mut self.faults, outcome)
    }

    /// Once a sync failed, each later one fails too.
    fn sync(&mut self) -> Result<(), Failed>
        ensures state { self.new ≡ store_synced self.old result }
        ensures lost { self.old.is_lost ≡ true → IsErr result }

        // What every store promises.
        ensures cause { HasCause self.old.faults self.new.faults (IsErr result) }
    {
        let outcome = self.settle();
        counted(&mut self.faults, outcome)
    }

    ghost images_tell = { λ s t i left. absurd left };

    ghost seen_is_image = { λ s told. absurd (false≢true told) };
}
