// Files of the machine that other programs write.
ghost use Rattle.std.specs.Prelude.{◌≡◌, ◌≤◌, false, None, Err, IfOk, IsErr, length};
ghost use Rattle.io_traits.specs.Counts.{HasCause};
ghost use Rattle.io_real.specs.Adapters.{called, called_list};

use crate::fault_counts::{counted, counted_list};
use crate::folders::names_in;
use crate::kept_files::KeptFiles;
use io_traits::{Failed, Files, ListFault};
use plain_data::Names;
use std::alloc::Global;
use std::fs::{self, File};
use std::io::{self, ErrorKind};
use std::marker::Model;
use std::rt::Files as RuntimeFiles;

/// The files of the machine, which other programs write. A contract sees its counts.
///
/// Each call goes by the path, so that it sees the file that has this name at that time. A folder is no
/// file. A file that was read is kept open for the next read, up to 32 of them; it is closed where a read
/// finds that its name is gone or is another file's.
#[derive(Drop)]
pub struct RealFiles<R> {
    rt: R,
    kept: KeptFiles,
    calls: u64,
    faults: u64,
}

impl<R> Model for RealFiles<R> {
    ghost use Rattle.io_real.specs.Adapters.{CallCounts};

    ghost Value = { CallCounts };

    ghost view = { λ s. record { calls = s.calls; faults = s.faults } };
}

impl<R> RealFiles<R> {
    /// Files over a runtime, or a reference to one.
    pub fn new(alloc: Global, rt: R) -> RealFiles<R>
        ensures { result ≡ record { calls = 0; faults = 0 } }
    {
        RealFiles {
            rt,
            kept: KeptFiles::new(alloc),
            calls: 0,
            faults: 0,
        }
    }

    /// How many calls were made, up to the last value of u64.
    pub fn calls(&self) -> u64
        ensures { result ≡ self.now.calls }
    {
        self.calls
    }

    /// How many calls failed.
    pub fn faults(&self) -> u64
        ensures { result ≡ self.now.faults }
    {
        self.faults
    }
}

// The length of a file; None where there is none, or a folder.
fn length_of(rt: &impl RuntimeFiles<File = File>, path: &str) -> io::Result<Option<u64>> {
    match fs::metadata(rt, path) {
        Ok(metadata) if metadata.is_dir() => Ok(None),
        Ok(metadata) => Ok(Some(metadata.len())),
        Err(error) if error.kind() == ErrorKind::NotFound => Ok(None),
        Err(error) => Err(error),
    }
}

impl<R: RuntimeFiles<File = File> + AllocGlobal + Clone + Drop> Files for RealFiles<R> {
    ghost tells = { false };

    ghost shows = { λ _ _ _. None };

    ghost calls = { λ s. s.calls };

    ghost faults = { λ s. s.faults };

    fn list(&mut self, alloc: Global, folder: &str) -> Result<Names, ListFault>
        ensures state { self.new ≡ called_list self.old result }

        // What all files promise.
        ensures cause { HasCause self.old.faults self.new.faults (result ≡ Err ListFault.Failed) }
    {
        self.calls = self.calls.saturating_add(1);
        let outcome = names_in(&self.rt, alloc, folder);
        counted_list(&mut self.faults, outcome)
    }

    fn length(&mut self, path: &str) -> Result<Option<u64>, Failed>
        ensures state { self.new ≡ called self.old result }

        // What all files promise.
        ensures cause { HasCause self.old.faults self.new.faults (IsErr result) }
    {
        self.calls = self.calls.saturating_add(1);
        let outcome = length_of(&self.rt, path);
        counted(&mut self.faults, outcome)
    }

    fn read(&mut self, path: &str, at: u64, into: &mut [u8]) -> Result<usize, Failed>
        ensures state { self.new ≡ called self.old result }

        // What all files promise.
        ensures within { IfOk result (λ n. n ≤ length into.old) }
        ensures cause { HasCause self.old.faults self.new.faults (IsErr result) }
    {
        self.calls = self.calls.saturating_add(1);
        let outcome = self.kept.read(&self.rt, path, at, into);
        counted(&mut self.faults, outcome)
    }
}
