//! Jobs through a `ThreadShop` (bench/threads.sh).

ghost use Rattle.std.specs.Prelude.{⊤};

use batch_shop::{Shop, Task, ThreadShop};
use std::alloc::{AllocError, Global};
use std::sync::Wait;

/// A job of so many turns, each of which waits for the one before it.
#[derive(Drop)]
pub struct Turns(u32);

impl Task for Turns {
    type Done = u64;

    ghost gives = { λ _ _. ⊤ };

    fn work(self) -> u64 {
        let mut state = 1u64;
        for _ in 0..self.0 {
            state = state
                .wrapping_mul(6_364_136_223_846_793_005)
                .wrapping_add(1);
        }
        state & 1
    }
}

/// What is to be done: so many jobs, of so many turns each, by so many workers.
#[derive(Clone, Copy)]
pub struct Order {
    pub workers: u32,
    turns: u32,
    jobs: u64,
}

impl Order {
    /// The order that these words are, if they are one.
    pub fn read(part: &str, words: &[String]) -> Option<Order> {
        let [workers, turns, jobs] = words else {
            return None;
        };
        if part != "jobs" {
            return None;
        }
        Some(Order {
            workers: workers.as_str().parse::<u32>().ok()?,
            turns: turns.as_str().parse::<u32>().ok()?,
            jobs: jobs.as_str().parse::<u64>().ok()?,
        })
    }

    /// A shop with room for the workers, which has none yet.
    pub fn shop(self, alloc: Global) -> Result<ThreadShop<Turns>, AllocError> {
        ThreadShop::new(alloc, self.workers)
    }

    /// Gives the jobs one after another, each as soon as a worker has none, closes the shop, and gives how many
    /// results came home.
    pub fn fill<R: Wait>(self, rt: &R, mut shop: ThreadShop<Turns>) -> Option<u64> {
        let mut home = 0u64;
        for _ in 0..self.jobs {
            home = home.wrapping_add(self.give(rt, &mut shop));
        }
        let last = shop.close(rt);
        u64::try_from(last.as_slice().len())
            .ok()
            .map(|last| home.wrapping_add(last))
    }

    /// Gives one job, and gives how many results came home until a worker took it.
    fn give<R: Wait>(self, rt: &R, shop: &mut ThreadShop<Turns>) -> u64 {
        let mut home = 0u64;
        let mut job = Turns(self.turns);
        for _ in 0..u64::MAX {
            match shop.give(job) {
                None => break,
                Some(back) => job = back,
            }
            match shop.take_next(rt) {
                Some(_) => home = home.wrapping_add(1),
                None => break,
            }
        }
        home
    }
}
