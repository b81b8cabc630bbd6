// A growable list that clauses see as the list of its elements.
ghost use Rattle.std.specs.Prelude.{◌≡◌, ℕ, [], ◌∷◌, ◌++◌, ◌<◌, ◌≤◌, ◌-◌, length, take, insert, remove, slice_get, slice_set, OnOk, OnErr, IfOk, IsTrue, ◌↔◌, MatchOption, Some};
ghost use Rattle.std.specs.Option.{option_copied, option_copied_mut};
ghost use Rattle.std.specs.Borrow.{sem};
ghost use Rattle.std.specs.List.{AllZip};
ghost use Rattle.std.specs.Cmp.Lexicographic.{pointwise, lists_per, lists_equiv};
ghost use Rattle.plain_data.specs.MemberImpls.{ClonesAreSame};

use std::alloc::{AllocError, Global};
use std::marker::Model;

/// A growable list, which contracts see as the list of its elements: two `Items` with the same
/// elements are equal, whatever memory they hold.
#[derive(Debug, Drop)]
pub struct Items<T> {
    elements: Vec<T>,
}

impl<T> Model for Items<T> {
    ghost use Rattle.std.specs.Prelude.{List};
    ghost use Rattle.std.specs.Coded.{coded_list};

    ghost Value = { List T };

    ghost coded = { coded_list T.code };

    ghost view = { λ items. items.elements.items };
}

impl<T> Items<T> {
    ghost use Rattle.plain_data.specs.ItemsLends.{lends_item, lends_all};

    /// No elements, and no memory yet.
    pub fn new(alloc: Global) -> Self
        ensures { result ≡ [] }
    {
        Items {
            elements: Vec::new(alloc),
        }
    }

    /// No elements, with memory for `capacity` of them.
    pub fn with_capacity(alloc: Global, capacity: usize) -> Result<Self, AllocError>
        ensures { IfOk result (λ items. items ≡ []) }
    {
        Ok(Items {
            elements: Vec::with_capacity(alloc, capacity)?,
        })
    }

    /// The elements of `elements`, in its memory.
    pub fn from_vec(elements: Vec<T>) -> Self
        ensures { result ≡ elements.items }
    {
        Items { elements }
    }

    /// The elements as a `Vec`, in the memory of `self`.
    pub fn into_vec(self) -> Vec<T>
        ensures { result.items ≡ self }
    {
        self.elements
    }

    pub fn as_slice(&self) -> &[T]
        ensures { result.now ≡ self.now }
    {
        self.elements.as_slice()
    }

    /// The elements, to write to in their places. Their number stays.
    pub fn as_mut_slice(&mut self) -> &mut [T]
        ensures* writes_back { sem 𝓛 (lends_all T.row self.entry result) }
        ensures same { result.now ≡ self.old }
    {
        self.elements.as_mut_slice()
    }

    pub fn len(&self) -> usize
        ensures { result ≡ length self.now }
    {
        self.elements.len()
    }

    pub fn is_empty(&self) -> bool
        ensures { IsTrue result ↔ (self.now ≡ []) }
    {
        self.elements.is_empty()
    }

    /// The element at `index`, or `None` past the end.
    pub fn get(&self, index: usize) -> Option<&T>
        ensures { option_copied result ≡ slice_get self.now index }
    {
        self.elements.get(index)
    }

    /// The element at `index`, to write to in its place, or `None` past the end.
    pub fn get_mut(&mut self, index: usize) -> Option<&mut T>
        ensures* writes_back { sem 𝓛 (lends_item T.row self.entry index result) }
        ensures value { option_copied_mut result ≡ slice_get self.old index }
    {
        self.elements.get_mut(index)
    }

    /// The last element.
    pub fn last(&self) -> Option<&T>
        ensures { option_copied result ≡ slice_get self.now (length self.now - 1) }
    {
        self.elements.last()
    }

    /// Adds `item` behind the last. Where there is no memory, the elements stay.
    pub fn push(&mut self, item: T) -> Result<(), AllocError>
    where
        T: Drop,
        ensures ok { OnOk result (self.new ≡ self.old ++ item ∷ []) }
        ensures err { OnErr result (self.new ≡ self.old) }
    {
        self.elements.push(item)?;
        Ok(())
    }

    /// Takes the last element away.
    pub fn pop(&mut self) -> Option<T>
        ensures { MatchOption result ((self.old ≡ []) × (self.new ≡ []))
            (λ last. self.old ≡ self.new ++ last ∷ []) }
    {
        self.elements.pop()
    }

    /// Adds `item` before the element at `index`, or behind the last. Where there is no memory,
    /// the elements stay.
    pub fn insert(&mut self, index: usize, item: T) -> Result<(), AllocError>
    where
        T: Drop,
        requires { index ≤ length self.old }
        ensures ok { OnOk result (self.new ≡ insert self.old index item) }
        ensures err { OnErr result (self.new ≡ self.old) }
    {
        self.elements.insert(index, item)?;
        Ok(())
    }

    /// Puts `item` in place of the element at `index`.
    pub fn set(&mut self, index: usize, item: T)
    where
        T: Drop,
        requires { index < length self.old }
        ensures { self.new ≡ slice_set self.old index item }
    {
        self.elements[index] = item;
    }

    /// Takes the element at `index` away. The later ones move up.
    pub fn remove(&mut self, index: usize) -> T
        requires { index < length self.old }
        ensures item { slice_get self.old index ≡ Some result }
        ensures rest { self.new ≡ remove self.old index }
    {
        self.elements.remove(index)
    }

    /// Keeps the first `len` elements, or all if there are fewer.
    pub fn truncate(&mut self, len: usize)
    where
        T: Drop,
        ensures { self.new ≡ take len self.old }
    {
        self.elements.truncate(len);
    }

    /// Drops all elements, and keeps the memory.
    pub fn clear(&mut self)
    where
        T: Drop,
        ensures { self.new ≡ [] }
    {
        self.elements.clear();
    }

    /// Moves the elements of `more` behind the last. Where there is no memory, those of `self` stay
    /// and those of `more` are dropped.
    pub fn append(&mut self, more: Items<T>) -> Result<(), AllocError>
    where
        T: Drop,
        ensures ok { OnOk result (self.new ≡ self.old ++ more) }
        ensures err { OnErr result (self.new ≡ self.old) }
    {
        let Items { mut elements } = more;
        self.elements.append(&mut elements)
    }

    pub fn allocator(&self) -> Global {
        *self.elements.allocator()
    }
}

/// Each element of the copy is a clone of that at its place.
impl<T: Clone> Clone for Items<T> {
    ghost is_clone = { AllZip T.is_clone };

    fn clone(&self) -> Result<Self, AllocError>
        ensures cases { IfOk result (AllZip T.is_clone self.now) }
        ensures same { IfOk result (λ copy. ClonesAreSame T.is_clone → copy ≡ self.now) }
    {
        Ok(Items {
            elements: self.elements.clone()?,
        })
    }
}

impl<T: PartialEq> PartialEq for Items<T> {
    ghost eq = { pointwise T.eq };

    ghost laws = { lists_per T.laws };

    fn eq(&self, other: &Self) -> bool {
        self.elements == other.elements
    }
}

impl<T: Eq> Eq for Items<T> {
    ghost laws = { lists_equiv T.Eq.laws };
}
