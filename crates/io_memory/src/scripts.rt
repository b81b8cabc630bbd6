// Which calls of an object in memory fail or find nothing, by their numbers.
ghost use Rattle.std.specs.Prelude.{◌≡◌, ◌≤◌, ◌↔◌, [], Ok, false, IfOk, IsErr, IsTrue, not};
ghost use Rattle.io_traits.specs.Counts.{HasCause, Rose, one_more};

use io_traits::Failed;
use std::alloc::{AllocError, Global};
use std::marker::Model;

/// Which calls of an object in memory fail, and which reads find nothing yet, by their numbers among
/// the calls of that object, from 0. It also counts the calls, the failures and the reads that found
/// nothing, each up to the last value of u64.
pub struct Script {
    failing: Vec<u64>,
    waiting: Vec<u64>,
    made: u64,
    faults: u64,
    waits: u64,
}

// Written out, so that it is one call wherever an error is handed on.
impl Drop for Script {
    fn drop(self) {
        let Script {
            failing: _failing,
            waiting: _waiting,
            made: _,
            faults: _,
            waits: _,
        } = self;
    }
}

impl Model for Script {
    ghost use Rattle.io_memory.specs.Scripts.{Course};

    ghost Value = { Course };

    ghost view = { λ s. record {
      failing = s.failing.items;
      waiting = s.waiting.items;
      made = s.made;
      faults = s.faults;
      waits = s.waits;
    } };
}

impl Script {
    ghost use Rattle.io_memory.specs.Scripts.{beginning, fails_next, waits_next, begun, looked};

    /// A script by which these calls fail, and these reads find nothing yet. A number in both lists
    /// is one of a call that fails.
    pub fn new(alloc: Global, failing: &[u64], waiting: &[u64]) -> Result<Script, AllocError>
        ensures { IfOk result (λ s. s ≡ beginning failing.now waiting.now) }
    {
        Ok(Script {
            failing: Vec::from_slice(alloc, failing)?,
            waiting: Vec::from_slice(alloc, waiting)?,
            made: 0,
            faults: 0,
            waits: 0,
        })
    }

    /// A script by which no call fails, and each read finds something.
    pub fn empty(alloc: Global) -> Script
        ensures { result ≡ beginning [] [] }
    {
        Script {
            failing: Vec::new(alloc),
            waiting: Vec::new(alloc),
            made: 0,
            faults: 0,
            waits: 0,
        }
    }

    /// The same script, with counts that stand at these numbers.
    pub fn counting_from(mut self, made: u64, faults: u64, waits: u64) -> Script
        ensures { result ≡ record self { made = made; faults = faults; waits = waits } }
    {
        self.made = made;
        self.faults = faults;
        self.waits = waits;
        self
    }

    /// Begins a call, which fails where the script names it.
    pub fn begin(&mut self) -> Result<(), Failed>
        ensures fails { IsErr result ↔ IsTrue (fails_next self.old) }
        ensures state { self.new ≡ begun self.old }
        ensures cause { HasCause self.old.faults self.new.faults (IsErr result) }
    {
        let fails = self.failing.contains(&self.made);
        self.made = self.made.saturating_add(1);
        if fails { Err(self.fail()) } else { Ok(()) }
    }

    /// Begins a read, and says whether it finds something, if it doesn't fail.
    pub fn look(&mut self) -> Result<bool, Failed>
        ensures fails { IsErr result ↔ IsTrue (fails_next self.old) }
        ensures finds { IfOk result (λ finds. finds ≡ not (waits_next self.old)) }
        ensures state { self.new ≡ looked self.old }
        ensures cause { HasCause self.old.faults self.new.faults (IsErr result) }
        ensures waits { HasCause self.old.waits self.new.waits (result ≡ Ok false) }
    {
        let waits = self.waiting.contains(&self.made);
        self.begin()?;
        if waits {
            self.wait();
        }
        Ok(!waits)
    }

    /// Fails the call that was begun, for want of memory.
    pub fn fail(&mut self) -> Failed
        ensures state { self.new ≡ record self.old { faults = one_more self.old.faults } }
        ensures later { self.old.faults ≤ self.new.faults }
        ensures rose { Rose self.old.faults self.new.faults }
    {
        self.faults = self.faults.saturating_add(1);
        Failed
    }

    /// Counts a call that was begun as one that found nothing yet.
    pub fn wait(&mut self)
        ensures state { self.new ≡ record self.old { waits = one_more self.old.waits } }
        ensures later { self.old.waits ≤ self.new.waits }
        ensures rose { Rose self.old.waits self.new.waits }
    {
        self.waits = self.waits.saturating_add(1);
    }

    /// How many calls were made.
    pub fn made(&self) -> u64
        ensures { result ≡ self.now.made }
    {
        self.made
    }

    /// How many calls failed.
    pub fn faults(&self) -> u64
        ensures { result ≡ self.now.faults }
    {
        self.faults
    }

    /// How many reads found nothing yet.
    pub fn waits(&self) -> u64
        ensures { result ≡ self.now.waits }
    {
        self.waits
    }
}
