// A sink that keeps the bytes that it takes.
ghost use Rattle.std.specs.Prelude.{◌≡◌, ◌≤◌, ◌<◌, ◌↔◌, Some, [], IfOk, IsErr, IsTrue, max, min, length, take};

use crate::scripts::Script;
use io_traits::{Failed, Sink};
use std::alloc::Global;
use std::marker::Model;

/// A sink that keeps the bytes that it takes, and tells them.
pub struct MemorySink {
    taken: Vec<u8>,
    flushed: usize,
    most: usize,
    script: Script,
}

// Written out, so that it is one call wherever an error is handed on.
impl Drop for MemorySink {
    fn drop(self) {
        let MemorySink {
            taken: _taken,
            flushed: _,
            most: _,
            script: _script,
        } = self;
    }
}

impl Model for MemorySink {
    ghost use Rattle.std.specs.Prelude.{◌≤◌, ◌<◌, take, drop, vec_len};
    ghost use Rattle.io_memory.specs.Sinks.{Writing};

    ghost Value = { Writing };

    ghost view = { λ s. record {
      flushed = take s.flushed s.taken.items;
      held = drop s.flushed s.taken.items;
      most = s.most;
      script = s.script;
    } };

    ghost invariant = { λ s. (s.flushed ≤ vec_len s.taken) × (0 < s.most) };
}

impl MemorySink {
    ghost use Rattle.io_memory.specs.Sinks.{taken_by, after_write, after_flush};
    ghost use Rattle.io_memory.specs.Scripts.{CountsFault, fails_next};

    /// A sink that took nothing so far. A write takes at most `most` bytes; 0 counts as 1. The reads
    /// that the script names are none of a sink.
    pub fn new(alloc: Global, most: usize, script: Script) -> MemorySink
        ensures { result ≡ record { flushed = []; held = []; most = max most 1; script = script } }
    {
        MemorySink {
            taken: Vec::new(alloc),
            flushed: 0,
            most: most.max(1),
            script,
        }
    }

    /// The bytes that it took.
    pub fn taken(&self) -> &[u8]
        ensures { result.now ≡ taken_by self.now }
    {
        &self.taken
    }

    /// How many of the bytes that it took are flushed: the first so many.
    pub fn flushed(&self) -> usize
        ensures { result ≡ length self.now.flushed }
    {
        self.flushed
    }

    /// Its script, which counts the calls and the faults.
    pub fn script(&self) -> &Script
        ensures { result.now ≡ self.now.script }
    {
        &self.script
    }

    /// Takes the first bytes, as many as it takes at most. It fails where its script names the call,
    /// and where it finds no memory.
    pub fn write(&mut self, bytes: &[u8]) -> Result<usize, Failed>
        ensures named { IsTrue (fails_next self.old.script) → IsErr result }
        ensures count { IfOk result (λ n. n ≡ min (length bytes.now) self.old.most) }
        ensures state { self.new ≡ after_write self.old bytes.now result }
        ensures some { IfOk result (λ n. 0 < length bytes.now → 0 < n) }
        ensures cause { CountsFault self.old.script self.new.script (IsErr result) }
    {
        self.script.begin()?;
        let count = bytes.len().min(self.most);
        if self.taken.extend_from_slice(&bytes[..count]).is_err() {
            return Err(self.script.fail());
        }
        Ok(count)
    }

    /// Flushes all that it took. It fails exactly where its script names the call.
    pub fn flush(&mut self) -> Result<(), Failed>
        ensures named { IsErr result ↔ IsTrue (fails_next self.old.script) }
        ensures state { self.new ≡ after_flush self.old result }
        ensures cause { CountsFault self.old.script self.new.script (IsErr result) }
    {
        self.script.begin()?;
        self.flushed = self.taken.len();
        Ok(())
    }
}

impl Sink for MemorySink {
    ghost use Rattle.io_memory.specs.Sinks.{taken_by};
    ghost use Rattle.io_traits.proofs.Growth.{within_front};

    ghost taken = { λ s. Some (taken_by s) };

    ghost flushed = { λ s. length s.flushed };

    ghost faults = { λ s. s.script.faults };

    fn write(&mut self, bytes: &[u8]) -> Result<usize, Failed> {
        self.write(bytes)
    }

    fn flush(&mut self) -> Result<(), Failed> {
        self.flush()
    }

    ghost flushed_within = { λ s. within_front s.flushed s.held };
}
