// The boxes of one name that are left, last in first out.
ghost use Rattle.std.specs.Prelude.{◌≡◌, ◌≤◌, ◌<◌, ◌+◌, [], ◌++◌, ◌∷◌, length, vec_capacity, slice_get, bytes_eq, Some, IfSome, IfNone, OnOk, OnErr, IfOk};
ghost use Rattle.foreign_parts.specs.Stocks as spec;
ghost use Rattle.foreign_parts.specs.Stocks.{AnswersAt, IsLast};

use crate::plugged::Plugged;
use config_tree::{FromFault, Settings};
use event_tree::Text;
use std::alloc::{AllocError, Global};

/// The boxes of one name.
#[derive(Drop)]
pub(crate) struct NamedBoxes<T> {
    name: Text,
    /// The boxes that are left; the last is drawn next.
    left: Vec<T>,
    /// How many were drawn and not given back.
    out: usize,
    ghost room: { length left.items + out ≤ vec_capacity left },
}

impl<T: Plugged> NamedBoxes<T> {
    ghost use Rattle.foreign_parts.specs.Shelves.{stock_of, refusals_on};

    /// One box, under a name.
    pub(crate) fn with(alloc: Global, name: &str, item: T) -> Result<NamedBoxes<T>, AllocError>
        ensures { IfOk result (λ shelf. stock_of T.number shelf
            ≡ record { name = name.now; left = T.number item ∷ []; out = 0 }) }
    {
        let mut left = Vec::with_capacity(alloc, 1)?;
        left.push_reserved(item);
        Ok(NamedBoxes {
            name: Text::of(alloc, name)?,
            left,
            out: 0,
        })
    }

    pub(crate) fn has_name(&self, name: &str) -> bool
        ensures { result ≡ bytes_eq (stock_of T.number self.now).name name.now }
    {
        self.name.as_str() == name
    }

    /// How many boxes are left.
    pub(crate) fn len(&self) -> usize
        ensures { result ≡ length (stock_of T.number self.now).left }
    {
        self.left.len()
    }

    /// The number of the box at a place.
    pub(crate) fn number_at(&self, at: usize) -> u64
        requires { at < length (stock_of T.number self.now).left }
        ensures { slice_get (stock_of T.number self.now).left at ≡ Some result }
    {
        self.left[at].own_number()
    }

    /// Adds a box, and keeps room for those that are out.
    pub(crate) fn add(&mut self, item: T) -> Result<(), AllocError>
        ensures ok { OnOk result (stock_of T.number self.new
            ≡ spec.one_more (T.number item) (stock_of T.number self.old)) }
        ensures err { OnErr result (stock_of T.number self.new ≡ stock_of T.number self.old) }
    {
        let more = self.out.checked_add(1).ok_or(AllocError)?;
        self.left.reserve(more)?;
        self.left.push_reserved(item);
        Ok(())
    }

    /// Takes the last box.
    pub(crate) fn draw(&mut self) -> Option<T>
        ensures some { IfSome result
            (λ _. stock_of T.number self.new ≡ spec.one_drawn (stock_of T.number self.old)) }
        ensures last { IfSome result
            (λ item. IsLast (T.number item) (stock_of T.number self.old).left) }
        ensures none { IfNone result ((stock_of T.number self.old).left ≡ []) }
        ensures same { IfNone result (stock_of T.number self.new ≡ stock_of T.number self.old) }
    {
        let item = self.left.pop()?;
        self.out += 1;
        Some(item)
    }

    /// Puts a box back that was drawn. It takes no memory.
    pub(crate) fn give_back(&mut self, item: T)
        requires { 0 < (stock_of T.number self.old).out }
        ensures { stock_of T.number self.new
            ≡ spec.one_back (T.number item) (stock_of T.number self.old) }
    {
        self.out -= 1;
        self.left.push_reserved(item);
    }

    /// Has the box at a place read settings.
    pub(crate) fn configure(&mut self, at: usize, settings: &Settings) -> Result<(), FromFault>
        requires { at < length (stock_of T.number self.old).left }
        ensures answers { AnswersAt (refusals_on T.refusal self.old).1 at settings.now.list result }
        ensures refusals { refusals_on T.refusal self.new ≡ refusals_on T.refusal self.old }
        ensures stock { stock_of T.number self.new ≡ stock_of T.number self.old }
    {
        self.left[at].configure(settings)
    }
}
