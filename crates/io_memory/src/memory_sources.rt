// A source of bytes in memory, and what its reads gave.
ghost use Rattle.std.specs.Prelude.{◌≡◌, ◌≢◌, ◌≤◌, ◌<◌, ◌↔◌, Some, [], Ok, IfOk, IsErr, IsTrue, max, map, length, drop};
ghost use Rattle.io_traits.specs.Pieces.{IfBytes};

use crate::scripts::Script;
use io_traits::{Failed, Source, Step};
use std::alloc::{AllocError, Global};
use std::marker::Model;

/// What a source in memory gave: bytes, or its end.
#[derive(Drop)]
pub enum SourceEvent {
    Bytes(Vec<u8>),
    End,
}

/// A source of given bytes, which tells what it holds.
pub struct MemorySource {
    bytes: Vec<u8>,
    at: usize,
    most: usize,
    given: Vec<SourceEvent>,
    script: Script,
}

// Written out, so that it is one call wherever an error is handed on.
impl Drop for MemorySource {
    fn drop(self) {
        let MemorySource {
            bytes: _bytes,
            at: _,
            most: _,
            given: _given,
            script: _script,
        } = self;
    }
}

impl Model for MemorySource {
    ghost use Rattle.std.specs.Prelude.{◌≤◌, ◌<◌, map, drop, vec_len};
    ghost use Rattle.io_memory.specs.Sources.{Reading};
    ghost use Rattle.io_memory.specs.Gave.{piece_of};

    ghost Value = { Reading };

    ghost view = { λ s. record {
      given = map piece_of s.given.items;
      left = drop s.at s.bytes.items;
      most = s.most;
      script = s.script;
    } };

    ghost invariant = { λ s. (s.at ≤ vec_len s.bytes) × (0 < s.most) };
}

impl MemorySource {
    ghost use Rattle.io_memory.specs.Gave.{piece_of};
    ghost use Rattle.io_memory.specs.Sources.{next_count, bytes_taken, after_read, written_over};
    ghost use Rattle.io_memory.specs.Scripts.{CountsFault, CountsWait, fails_next, waits_next};

    /// A source of these bytes. A read gives at most `most` of them at a time; 0 counts as 1.
    pub fn new(
        alloc: Global,
        bytes: &[u8],
        most: usize,
        script: Script,
    ) -> Result<MemorySource, AllocError>
        ensures { IfOk result (λ s. s ≡ record {
          given = [];
          left = bytes.now;
          most = max most 1;
          script = script;
        }) }
    {
        Ok(MemorySource {
            bytes: Vec::from_slice(alloc, bytes)?,
            at: 0,
            most: most.max(1),
            given: Vec::new(alloc),
            script,
        })
    }

    /// The pieces that it gave, in their order.
    pub fn given(&self) -> &[SourceEvent]
        ensures { map piece_of result.now ≡ self.now.given }
    {
        &self.given
    }

    /// The bytes that are left.
    pub fn left(&self) -> &[u8]
        ensures { result.now ≡ self.now.left }
    {
        &self.bytes[self.at..]
    }

    /// Its script, which counts the calls, the faults and the waits.
    pub fn script(&self) -> &Script
        ensures { result.now ≡ self.now.script }
    {
        &self.script
    }

    /// Gives the next bytes, as many as there are, as there is room for and as it gives at most; or
    /// its end, where no bytes are left. It fails where its script names the call, and where it finds
    /// no memory for its list of pieces.
    pub fn read(&mut self, into: &mut [u8]) -> Result<Step, Failed>
        ensures named { IsTrue (fails_next self.old.script) → IsErr result }
        ensures not_yet { (result ≡ Ok Step.NotYet) ↔ IsTrue (waits_next self.old.script) }
        ensures bytes { IfBytes result (λ n. (n ≡ next_count self.old (length into.old))
            × (self.old.left ≢ [])) }
        ensures end { result ≡ Ok Step.End → self.old.left ≡ [] }
        ensures room { into.new ≡ written_over (bytes_taken self.old result) into.old }
        ensures state { self.new ≡ after_read self.old result }
        ensures some { IfBytes result (λ n. 0 < length into.old → 0 < n) }
        ensures cause { CountsFault self.old.script self.new.script (IsErr result) }
        ensures waits { CountsWait self.old.script self.new.script (result ≡ Ok Step.NotYet) }
    {
        if !self.script.look()? {
            return Ok(Step::NotYet);
        }
        let left = &self.bytes[self.at..];
        if left.is_empty() {
            if self.given.push(SourceEvent::End).is_err() {
                return Err(self.script.fail());
            }
            return Ok(Step::End);
        }
        let count = into.len().min(self.most).min(left.len());
        let piece = &left[..count];
        let Ok(copy) = Vec::from_slice(*self.given.allocator(), piece) else {
            return Err(self.script.fail());
        };
        if self.given.push(SourceEvent::Bytes(copy)).is_err() {
            return Err(self.script.fail());
        }
        into[..count].copy_from_slice(piece);
        self.at += count;
        Ok(Step::Bytes(count))
    }
}

impl Source for MemorySource {
    ghost given = { λ s. Some s.given };

    ghost left = { λ s. Some s.left };

    ghost faults = { λ s. s.script.faults };

    ghost waits = { λ s. s.script.waits };

    fn read(&mut self, into: &mut [u8]) -> Result<Step, Failed> {
        self.read(into)
    }
}
