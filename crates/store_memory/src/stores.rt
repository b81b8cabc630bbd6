// A store in memory that logs its calls and shows what a stop at any moment may leave.
ghost use Rattle.std.specs.Prelude.{◌≡◌, ◌<◌, ◌≤◌, ◌+◌, ◌^◌, ◌↔◌, Err, take, IsTrue, IsErr, is_ok, IfOk, IfErr, OnOk, length, option_map};
ghost use Rattle.io_traits.specs.Folders.{Lists};
ghost use Rattle.io_traits.specs.Reads.{GivesInto, file_length};

use crate::calls::{Logged, StoreCall};
use crate::leftovers::leave_all;
use crate::steps::apply;
use io_memory::{FileTable, Script, bytes_in, copy, copy_from, length_in, list_in};
use io_traits::{Failed, ListFault, Store};
use plain_data::Names;
use std::alloc::{AllocError, Global};
use std::marker::Model;

/// A store in memory, which tells what it holds.
///
/// It keeps the files that it held at first and a log of all its calls. Its moment is the number of
/// calls in the log. A call that fails changes nothing; one that found no memory is not in the log.
pub struct MemoryStore {
    base: FileTable,
    files: FileTable,
    calls: Vec<Logged>,
    script: Script,
    stop: u64,
}

// Written out, so that it is one call wherever an error is handed on.
impl Drop for MemoryStore {
    fn drop(self) {
        let MemoryStore {
            base: _base,
            files: _files,
            calls: _calls,
            script: _script,
            stop: _,
        } = self;
    }
}

impl Model for MemoryStore {
    ghost use Rattle.std.specs.Prelude.{◌≡◌, ℕ, List};
    ghost use Rattle.io_traits.specs.Steps.{held};
    ghost use Rattle.store_memory.specs.Calls.{steps_of};
    ghost use Rattle.io_memory.specs.Tables.{content_of};
    ghost use Rattle.store_memory.specs.Keeping.{Keeping};

    ghost Value = { Keeping };

    ghost view = { λ s. record {
      base = s.base;
      calls = s.calls.items;
      script = s.script;
      stop = s.stop;
    } };

    ghost invariant = { λ s. (n : List ℕ) → content_of s.files n ≡ held (content_of s.base) (steps_of s.calls.items) n };
}

impl MemoryStore {
    ghost use Rattle.io_memory.specs.Scripts.{CountsFault};
    ghost use Rattle.store_memory.specs.Keeping.{Answered, AnsweredIf, AnsweredUnless, beginning, begun, freshly, is_failing, reads_of, moment_of, IsImageOf};
    ghost use Rattle.store_memory.specs.Leaving.{IsLeftAfter};
    ghost use Rattle.store_memory.specs.declared.calls.StoreCall.TheVariants.{Length, Read, Append, WriteAt, Cut, Remove, Sync};
    ghost use Rattle.store_memory.specs.declared.calls.StoreCall.TheVariants.{List as Listing};

    // Begins a call, which fails where the script names it, or once the store is stopped.
    fn begin(&mut self) -> Result<(), Failed>
        ensures fails { IsErr result ↔ IsTrue (is_failing self.old) }
        ensures state { self.new ≡ begun self.old }
        ensures cause { CountsFault self.old.script self.new.script (IsErr result) }
    {
        let is_stopped = self.script.made() >= self.stop;
        self.script.begin()?;
        if is_stopped {
            return Err(self.script.fail());
        }
        Ok(())
    }

    // Makes a call: its step, and its place in the log.
    fn make(&mut self, call: StoreCall) -> Result<(), Failed>
        ensures named { IsTrue (is_failing self.old) → IsErr result }
        ensures state { Answered self.old self.new call (is_ok result) }
        ensures cause { CountsFault self.old.script self.new.script (IsErr result) }
    {
        if let Err(failed) = self.begin() {
            let _ = self.calls.push(Logged {
                call,
                worked: false,
            });
            return Err(failed);
        }
        if self.calls.reserve(1).is_err() || apply(&mut self.files, &call).is_err() {
            return Err(self.script.fail());
        }
        let _ = self.calls.push(Logged { call, worked: true });
        Ok(())
    }

    // Makes a call, or fails where there was no memory to write it down.
    fn attempt(&mut self, call: Result<StoreCall, AllocError>) -> Result<(), Failed>
        ensures named { IsTrue (is_failing self.old) → IsErr result }
        ensures state { AnsweredIf self.old self.new call (is_ok result) }
        ensures cause { CountsFault self.old.script self.new.script (IsErr result) }
    {
        match call {
            Ok(call) => self.make(call),
            Err(_) => match self.begin() {
                Ok(()) => Err(self.script.fail()),
                Err(failed) => Err(failed),
            },
        }
    }

    /// A store that holds these files, all of them settled. The calls that the script names fail, and
    /// so does each call from the number `stop` on; u64::MAX is for a store that is never stopped.
    pub fn new(files: FileTable, script: Script, stop: u64) -> Result<MemoryStore, AllocError>
        ensures { IfOk result (λ s. s ≡ beginning files script stop) }
    {
        let base = copy(&files)?;
        let calls = Vec::new(base.allocator());
        Ok(MemoryStore {
            base,
            files,
            calls,
            script,
            stop,
        })
    }

    /// What reads give of a file; None where there is no such file. It is no call.
    pub fn bytes(&self, name: &str) -> Option<&[u8]>
        ensures { option_map (λ bytes. bytes.now) result ≡ reads_of self.now name.now }
    {
        bytes_in(&self.files, name)
    }

    /// Its calls, the first one first.
    pub fn calls(&self) -> &[Logged]
        ensures { result.now ≡ self.now.calls }
    {
        &self.calls
    }

    /// The moment of now: how many calls are in the log.
    pub fn moment(&self) -> u64
        ensures { result ≡ moment_of self.now }
    {
        self.calls.len() as u64
    }

    /// Its script, which counts the calls and the faults.
    pub fn script(&self) -> &Script
        ensures { result.now ≡ self.now.script }
    {
        &self.script
    }

    // The last parts of the names in a folder, if there is memory for them.
    fn names_in(&self, alloc: Global, folder: &str) -> Result<Names, ListFault>
        ensures names { IfOk result (λ names. Lists (reads_of self.now) folder.now names) }
        ensures memory { IfErr result (λ fault. fault ≡ ListFault.Memory) }
    {
        match list_in(&self.files, alloc, folder) {
            Ok(names) => Ok(names),
            Err(_) => Err(ListFault::Memory),
        }
    }

    /// What a stop at a moment may leave, as a store that was just opened, by a choice: with 0 all
    /// changes are there, with 1 none since the last sync before the moment, with 2 all but the last
    /// call, which is torn in its middle, and with any other number each change since the last sync
    /// left stale bytes. No call of that store fails.
    pub fn images(&self, moment: u64, choice: u64) -> Result<MemoryStore, AllocError>
        requires { moment ≤ moment_of self.now }
        ensures files { IfOk result (λ s.
            IsLeftAfter choice self.now.base (take moment self.now.calls) s.base) }
        ensures opened { IfOk result (λ s. s ≡ freshly s.base) }
        ensures image { IfOk result (λ s. IsImageOf self.now moment s) }
    {
        let files = leave_all(&self.base, &self.calls[..moment as usize], choice)?;
        let script = Script::empty(files.allocator());
        MemoryStore::new(files, script, u64::MAX)
    }

    // The length of a file, or 0 of a missing one.
    fn length_of(&self, name: &str) -> usize
        ensures length { result ≡ file_length (reads_of self.now name.now) }
        ensures fits { result < 2 ^ 63 }
    {
        match bytes_in(&self.files, name) {
            Some(bytes) => bytes.len(),
            None => 0,
        }
    }

    /// The last parts of the names in a folder, in byte order. It answers `ListFault::Memory` where
    /// there is no memory for them.
    pub fn list(&mut self, alloc: Global, folder: &str) -> Result<Names, ListFault>
        ensures named { IsTrue (is_failing self.old) → IsErr result }
        ensures state { AnsweredUnless self.old self.new (Listing folder.now) result }
        ensures names { IfOk result (λ names. Lists (reads_of self.old) folder.now names) }
        ensures cause { CountsFault self.old.script self.new.script
            (result ≡ Err ListFault.Failed) }
    {
        let call = StoreCall::list(self.base.allocator(), folder);
        match self.attempt(call) {
            Ok(()) => self.names_in(alloc, folder),
            Err(Failed) => Err(ListFault::Failed),
        }
    }

    /// The length of a file; None where there is no such file.
    pub fn length(&mut self, name: &str) -> Result<Option<u64>, Failed>
        ensures named { IsTrue (is_failing self.old) → IsErr result }
        ensures state { Answered self.old self.new (Length name.now) (is_ok result) }
        ensures length { IfOk result (λ n. n ≡ option_map length (reads_of self.old name.now)) }
        ensures cause { CountsFault self.old.script self.new.script (IsErr result) }
    {
        let call = StoreCall::length(self.base.allocator(), name);
        self.attempt(call)?;
        Ok(length_in(&self.files, name))
    }

    /// Reads the bytes of a file from a place on, as many as stand there and there is room for.
    pub fn read(&mut self, name: &str, at: u64, into: &mut [u8]) -> Result<usize, Failed>
        ensures named { IsTrue (is_failing self.old) → IsErr result }
        ensures state { Answered self.old self.new (Read name.now at) (is_ok result) }
        ensures within { IfOk result (λ n. n ≤ length into.old) }
        ensures gives { IfOk result (GivesInto (reads_of self.old name.now) at into.old into.new) }
        ensures cause { CountsFault self.old.script self.new.script (IsErr result) }
    {
        let call = StoreCall::read(self.base.allocator(), name, at);
        self.attempt(call)?;
        Ok(copy_from(&self.files, name, at, into))
    }

    /// Writes behind the end of a file, and makes a missing one.
    pub fn append(&mut self, name: &str, bytes: &[u8]) -> Result<(), Failed>
        ensures named { IsTrue (is_failing self.old) → IsErr result }
        ensures state { Answered self.old self.new (Append name.now bytes.now) (is_ok result) }
        ensures fits { OnOk result
            (file_length (reads_of self.old name.now) + length bytes.now < 2 ^ 64) }
        ensures cause { CountsFault self.old.script self.new.script (IsErr result) }
    {
        // So it is known that the new length is below 2^64.
        let _length = self.length_of(name);
        let call = StoreCall::append(self.base.allocator(), name, bytes);
        self.attempt(call)
    }

    /// Writes over the bytes of a file from a place on, and makes a missing one.
    pub fn write_at(&mut self, name: &str, at: u64, bytes: &[u8]) -> Result<(), Failed>
        requires { at ≤ file_length (reads_of self.old name.now) }
        ensures named { IsTrue (is_failing self.old) → IsErr result }
        ensures state { Answered self.old self.new (WriteAt name.now at bytes.now) (is_ok result) }
        ensures fits { OnOk result (at + length bytes.now < 2 ^ 64) }
        ensures cause { CountsFault self.old.script self.new.script (IsErr result) }
    {
        // So it is known that the new length is below 2^64.
        let _length = self.length_of(name);
        let call = StoreCall::write_at(self.base.allocator(), name, at, bytes);
        self.attempt(call)
    }

    /// Cuts a file to a length. A missing one stays missing.
    pub fn cut(&mut self, name: &str, length: u64) -> Result<(), Failed>
        requires { length ≤ file_length (reads_of self.old name.now) }
        ensures named { IsTrue (is_failing self.old) → IsErr result }
        ensures state { Answered self.old self.new (Cut name.now length) (is_ok result) }
        ensures cause { CountsFault self.old.script self.new.script (IsErr result) }
    {
        let call = StoreCall::cut(self.base.allocator(), name, length);
        self.attempt(call)
    }

    /// Removes a file, if there is one.
    pub fn remove(&mut self, name: &str) -> Result<(), Failed>
        ensures named { IsTrue (is_failing self.old) → IsErr result }
        ensures state { Answered self.old self.new (Remove name.now) (is_ok result) }
        ensures cause { CountsFault self.old.script self.new.script (IsErr result) }
    {
        let call = StoreCall::remove(self.base.allocator(), name);
        self.attempt(call)
    }

    /// Settles all files.
    pub fn sync(&mut self) -> Result<(), Failed>
        ensures named { IsTrue (is_failing self.old) → IsErr result }
        ensures state { Answered self.old self.new Sync (is_ok result) }
        ensures cause { CountsFault self.old.script self.new.script (IsErr result) }
    {
        self.attempt(Ok(StoreCall::Sync))
    }
}

impl Store for MemoryStore {
    ghost use Rattle.std.specs.Prelude.{true, refl};
    ghost use Rattle.io_traits.proofs.Leaving.{reads_as_now};
    ghost use Rattle.store_memory.specs.Calls.{steps_of};
    ghost use Rattle.io_memory.specs.Tables.{content_of};
    ghost use Rattle.store_memory.specs.Keeping.{reads_of, moment_of, LeavesFrom};

    ghost tells = { true };

    ghost seen = { λ s. reads_of s };

    ghost moment = { λ s. moment_of s };

    ghost may_leave = { λ s. LeavesFrom s };

    ghost faults = { λ s. s.script.faults };

    fn list(&mut self, alloc: Global, folder: &str) -> Result<Names, ListFault> {
        self.list(alloc, folder)
    }

    fn length(&mut self, name: &str) -> Result<Option<u64>, Failed> {
        self.length(name)
    }

    fn read(&mut self, name: &str, at: u64, into: &mut [u8]) -> Result<usize, Failed> {
        self.read(name, at, into)
    }

    fn append(&mut self, name: &str, bytes: &[u8]) -> Result<(), Failed> {
        self.append(name, bytes)
    }

    fn write_at(&mut self, name: &str, at: u64, bytes: &[u8]) -> Result<(), Failed> {
        self.write_at(name, at, bytes)
    }

    fn cut(&mut self, name: &str, length: u64) -> Result<(), Failed> {
        self.cut(name, length)
    }

    fn remove(&mut self, name: &str) -> Result<(), Failed> {
        self.remove(name)
    }

    fn sync(&mut self) -> Result<(), Failed> {
        self.sync()
    }

    ghost images_tell = { λ s t i left. refl };

    ghost seen_is_image = { λ s told. reads_as_now (content_of s.base) (steps_of s.calls) };
}
