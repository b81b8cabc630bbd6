// Which rows of a page are acknowledged, as a list of bits.
ghost use Rattle.std.specs.Prelude.{◌≡◌, ◌≤◌, ◌<◌, ◌^◌, ◌++◌, ◌∷◌, [], false, length, replicate, List, Bool, IfOk, OnOk, OnErr};
ghost use Rattle.queue_files.specs.Kept.{leading};
ghost use Rattle.queue_core.specs.Bits.{with_range};

use crate::words::{first_unset, make_room, set_bits};
use std::alloc::{AllocError, Global};
use std::marker::Model;

/// Which rows of a page are acknowledged, the first row first: a bit each.
#[derive(Drop)]
pub struct Acknowledged {
    words: Vec<u64>,
    count: usize,
    leading: usize,
}

impl Model for Acknowledged {
    ghost use Rattle.std.specs.Prelude.{List, Bool};
    ghost use Rattle.queue_core.specs.Bits.{bits_from, AreHeld};

    ghost Value = { List Bool };

    ghost view = { λ a. bits_from a.words.items 0 a.count };

    ghost invariant = { λ a. AreHeld a.words.items a.count a.leading };
}

impl Acknowledged {
    /// Those of a page without rows. It takes no memory.
    pub fn new(alloc: Global) -> Self
        ensures { result ≡ [] }
    {
        Acknowledged {
            words: Vec::new(alloc),
            count: 0,
            leading: 0,
        }
    }

    /// Those of a page with so many rows, none of which is acknowledged.
    pub fn none_of(alloc: Global, count: usize) -> Result<Self, AllocError>
        requires { count < 2 ^ 32 }
        ensures { IfOk result (λ acknowledged. acknowledged ≡ replicate count false) }
    {
        let words = vec![in alloc; 0; count / 64 + 1]?;
        Ok(Acknowledged {
            words,
            count,
            leading: 0,
        })
    }

    /// One row more, which isn't acknowledged. Where there is no memory, all stays.
    pub fn push(&mut self) -> Result<(), AllocError>
        requires { length self.old < 2 ^ 32 }
        ensures ok { OnOk result (self.new ≡ self.old ++ false ∷ []) }
        ensures err { OnErr result (self.new ≡ self.old) }
    {
        make_room(&mut self.words, self.count)?;
        self.count += 1;
        Ok(())
    }

    /// The last row goes again, which isn't acknowledged. It takes no memory.
    pub(crate) fn pop(&mut self)
        requires { (rows : List Bool) × (self.old ≡ rows ++ false ∷ []) }
        ensures { (rows : List Bool) → self.old ≡ rows ++ false ∷ [] → self.new ≡ rows }
    {
        self.count -= 1;
    }

    /// The rows from one on are acknowledged, up to another, where rows are counted from 0. It takes no
    /// memory.
    pub fn add(&mut self, from: usize, to: usize)
        requires order { from ≤ to }
        requires within { to ≤ length self.old }
        ensures { self.new ≡ with_range 0 from to self.old }
    {
        set_bits(&mut self.words, from, to);
        self.leading = first_unset(&self.words, self.leading, self.count);
    }

    /// How many are acknowledged before the first that isn't.
    pub fn leading(&self) -> usize
        ensures { result ≡ leading self.now }
    {
        self.leading
    }
}
