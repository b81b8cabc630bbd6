// An end of a ring that counts its misses.
ghost use Rattle.std.specs.Prelude.{◌≡◌, IfSome, IfNone};
ghost use Rattle.rtrb.specs.Ring.{SameProducer, SameConsumer};
ghost use Rattle.pipeline_bus.specs.Counted.{misses, ring, pushed, popped, Pushes, Pops};

use rtrb::{Consumer, Producer, Protocol, PushError};
use std::alloc::Global;

/// One end of a ring, with the count of its misses: of the calls in which the ring showed no free slot, or no
/// item. The count stays at the last number of 64 bits.
#[derive(Drop)]
pub struct CountedEnd<E> {
    pub(crate) end: E,
    misses: u64,
}

impl<E> CountedEnd<E> {
    /// An end with no miss yet.
    pub fn new(end: E) -> Self
        ensures ring { ring result ≡ end }
        ensures misses { misses result ≡ 0 }
    {
        CountedEnd { end, misses: 0 }
    }

    /// How many calls missed.
    pub fn misses(&self) -> u64
        ensures { result ≡ misses self.now }
    {
        self.misses
    }
}

impl<T: Drop, P: Protocol<T>> CountedEnd<Producer<T, Global, P>> {
    /// Puts a value into the ring, or hands it back where the ring showed no free slot.
    pub fn push(&mut self, value: T) -> Option<T>
        requires { P.allows (pushed self.old) value }
        ensures same { SameProducer (ring self.old) (ring self.new) }
        ensures pushes { Pushes result value self.old self.new }
    {
        match self.end.push(value) {
            Ok(()) => None,
            Err(PushError::Full(back)) => {
                self.misses = self.misses.saturating_add(1);
                Some(back)
            }
        }
    }
}

impl<T: Drop, P: Protocol<T>> CountedEnd<Consumer<T, Global, P>> {
    /// Takes the oldest value out of the ring; none where the ring showed none.
    pub fn pop(&mut self) -> Option<T>
        ensures same { SameConsumer (ring self.old) (ring self.new) }
        ensures pops { Pops result self.old self.new }
        ensures allowed { IfSome result (λ value. P.allows (popped self.old) value) }
    {
        match self.end.pop() {
            Ok(value) => Some(value),
            Err(_) => {
                self.misses = self.misses.saturating_add(1);
                None
            }
        }
    }
}
