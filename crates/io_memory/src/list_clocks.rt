// A clock that gives the moments of a list.
ghost use Rattle.std.specs.Prelude.{◌≡◌, ◌⊎◌, Some, None, [], IfOk, pos};
ghost use Rattle.std.specs.Option.{option_map};

use io_traits::Clock;
use plain_data::Instant;
use std::alloc::{AllocError, Global};
use std::marker::Model;

/// A clock that gives the moments of a list, and past the list its last moment again. It tells the
/// moments that it gave, until it finds no memory to keep one.
#[derive(Drop)]
pub struct ListClock {
    moments: Vec<Instant>,
    at: usize,
    last: Instant,
    given: Vec<Instant>,
    tells: bool,
}

impl Model for ListClock {
    ghost use Rattle.std.specs.Prelude.{◌≤◌, drop, vec_len, Some, None, if◌then◌else◌};
    ghost use Rattle.io_memory.specs.Clocks.{Ticking};

    ghost Value = { Ticking };

    ghost view = { λ k. record {
      left = drop k.at k.moments.items;
      last = k.last;
      given = if k.tells then Some k.given.items else None;
    } };

    ghost invariant = { λ k. k.at ≤ vec_len k.moments };
}

impl ListClock {
    ghost use Rattle.io_memory.specs.Clocks.{next_moment, after_now, given_more};

    /// A clock that gives these moments. Where there are none, it gives 1970-01-01T00:00:00Z.
    pub fn new(alloc: Global, moments: &[Instant]) -> Result<ListClock, AllocError>
        ensures { IfOk result
            (λ k. k ≡ record { left = moments.now; last = pos 0; given = Some [] }) }
    {
        Ok(ListClock {
            moments: Vec::from_slice(alloc, moments)?,
            at: 0,
            last: Instant::epoch(),
            given: Vec::new(alloc),
            tells: true,
        })
    }

    /// The moments that it gave, in their order; None once it found no memory to keep one.
    pub fn given(&self) -> Option<&[Instant]>
        ensures { option_map (λ moments. moments.now) result ≡ self.now.given }
    {
        if self.tells { Some(&self.given) } else { None }
    }

    /// The next moment, or the last one again.
    pub fn now(&mut self) -> Instant
        ensures moment { result ≡ next_moment self.old }
        ensures state { (self.new ≡ after_now self.old (given_more self.old))
            ⊎ (self.new ≡ after_now self.old None) }
    {
        if self.at < self.moments.len() {
            self.last = self.moments[self.at];
            self.at += 1;
        }
        if self.given.push(self.last).is_err() {
            self.tells = false;
        }
        self.last
    }

    /// Changes nothing.
    pub fn pause(&mut self)
        ensures state { self.new ≡ self.old }
    {}
}

impl Clock for ListClock {
    ghost given = { λ k. k.given };

    fn now(&mut self) -> Instant {
        self.now()
    }

    fn pause(&mut self) {
        self.pause()
    }
}
