// The outputs to which an event was sent.
ghost use Rattle.std.specs.Prelude.{◌≡◌, ◌∷◌, ◌++◌, [], ◌↔◌, IsTrue, OnOk};

use plain_data::Items;
use std::alloc::{AllocError, Global};
use std::marker::Model;
use std::slice;

/// The places of outputs to which an event was sent, by their numbers in order, which contracts see as
/// their list. A single one takes no memory of its own.
#[derive(Drop)]
pub struct Targets {
    held: TargetNumbers,
}

/// How the numbers are held.
#[derive(Drop)]
enum TargetNumbers {
    One(u64, Global),
    All(Items<u64>),
}

impl Model for Targets {
    ghost use Rattle.std.specs.Prelude.{List, ℕ};
    ghost use Rattle.event_flow.specs.Numbers.{numbers_in};

    ghost Value = { List ℕ };

    ghost view = { λ targets. numbers_in targets.held };
}

impl Targets {
    /// No places, and no memory.
    pub fn new(alloc: Global) -> Self
        ensures { result ≡ [] }
    {
        Targets {
            held: TargetNumbers::All(Items::new(alloc)),
        }
    }

    pub fn is_empty(&self) -> bool
        ensures { IsTrue result ↔ (self.now ≡ []) }
    {
        self.as_slice().is_empty()
    }

    pub fn as_slice(&self) -> &[u64]
        ensures { result.now ≡ self.now }
    {
        match &self.held {
            TargetNumbers::One(number, _) => slice::from_ref(number),
            TargetNumbers::All(numbers) => numbers.as_slice(),
        }
    }

    /// Adds a place behind the last.
    pub fn push(&mut self, number: u64) -> Result<(), AllocError>
        ensures { OnOk result (self.new ≡ self.old ++ number ∷ []) }
    {
        match &mut self.held {
            TargetNumbers::One(first, alloc) => {
                let mut numbers = Items::with_capacity(*alloc, 2)?;
                numbers.push(*first)?;
                numbers.push(number)?;
                self.held = TargetNumbers::All(numbers);
            }
            TargetNumbers::All(numbers) => {
                if !numbers.is_empty() {
                    return numbers.push(number);
                }
                self.held = TargetNumbers::One(number, numbers.allocator());
            }
        }
        Ok(())
    }
}
