// A map from texts to values, kept as a sorted list of members.
ghost use Rattle.std.specs.Prelude.{◌≡◌, ◌∷◌, ◌++◌, [], length, OnOk, OnErr, IfOk, IsTrue, IsSome, ◌↔◌, None, MatchResult};
ghost use Rattle.std.specs.List.{AllZip};
ghost use Rattle.std.specs.Cmp.Lexicographic.{pointwise, lists_per, lists_equiv};
ghost use Rattle.std.specs.Option.{option_copied, option_copied_mut};
ghost use Rattle.std.specs.Borrow.{sem};
ghost use Rattle.plain_data.specs.Find.{IsFoundAt, IsAbsentAt};
ghost use Rattle.plain_data.specs.MemberImpls.{ClonesAreSame, member_clone, member_eq, member_per, member_equiv};
ghost use Rattle.plain_data.specs.MemberLends.{lends_member_value};
ghost use Rattle.plain_data.specs.Members.{Rises, AllBelow, get_member, insert_member, remove_member};

use crate::order::text_order;
use crate::text::Text;
use std::alloc::{AllocError, Global};
use std::cmp::Ordering;
use std::marker::Model;
use std::mem;

/// Values at keys that rise strictly in byte order, which contracts see as the list of the members,
/// each a key and its value.
#[derive(Debug, Drop)]
pub struct Fields<V> {
    members: Vec<(Text, V)>,
}

impl<V> Model for Fields<V> {
    ghost use Rattle.std.specs.Prelude.{List, ℕ};
    ghost use Rattle.std.specs.Coded.{coded_list, coded×, coded_ℕ};
    ghost use Rattle.plain_data.specs.Members.{Rises};

    ghost Value = { List (List ℕ × V) };

    ghost coded = { coded_list (coded× (coded_list coded_ℕ) V.code) };

    ghost view = { λ fields. fields.members.items };

    ghost invariant = { λ fields. Rises fields.members.items };
}

impl<V> Fields<V> {
    ghost use Rattle.plain_data.specs.FieldsLends.{lends_value};

    /// No members, and no memory yet.
    pub fn new(alloc: Global) -> Self
        ensures { result ≡ [] }
    {
        Fields {
            members: Vec::new(alloc),
        }
    }

    /// No members, with memory for `capacity` of them.
    pub fn with_capacity(alloc: Global, capacity: usize) -> Result<Self, AllocError>
        ensures { IfOk result (λ fields. fields ≡ []) }
    {
        Ok(Fields {
            members: Vec::with_capacity(alloc, capacity)?,
        })
    }

    /// The members of `members`, in its memory.
    pub fn from_vec(members: Vec<(Text, V)>) -> Self
        requires { Rises members.items }
        ensures { result ≡ members.items }
    {
        Fields { members }
    }

    /// The members as a `Vec`, in the memory of `self`.
    pub fn into_vec(self) -> Vec<(Text, V)>
        ensures same { result.items ≡ self }
        ensures rises { Rises self }
    {
        self.members
    }

    /// The members, in the order of their keys.
    pub fn members(&self) -> &[(Text, V)]
        ensures same { result.now ≡ self.now }
        ensures rises { Rises self.now }
    {
        self.members.as_slice()
    }

    pub fn len(&self) -> usize
        ensures { result ≡ length self.now }
    {
        self.members.len()
    }

    pub fn is_empty(&self) -> bool
        ensures { IsTrue result ↔ (self.now ≡ []) }
    {
        self.members.is_empty()
    }

    /// The value at `key`.
    pub fn get(&self, key: &str) -> Option<&V>
        ensures { option_copied result ≡ get_member key.now self.now }
    {
        match find(self.members.as_slice(), key) {
            Ok(at) => Some(&self.members[at].1),
            Err(_) => None,
        }
    }

    /// The value at `key`, to write to in its place.
    pub fn get_mut(&mut self, key: &str) -> Option<&mut V>
        ensures* writes_back { sem 𝓛 (lends_value V.row self.entry key.now result) }
        ensures value { option_copied_mut result ≡ get_member key.now self.old }
    {
        match find(self.members.as_slice(), key) {
            Ok(at) => {
                let member = &mut self.members[at];
                Some(value_of(member))
            }
            Err(_) => None,
        }
    }

    pub fn contains_key(&self, key: &str) -> bool
        ensures { IsTrue result ↔ IsSome (get_member key.now self.now) }
    {
        self.get(key).is_some()
    }

    /// Whether each key is below `key`, so that `push` may add it.
    pub fn is_below(&self, key: &str) -> bool
        ensures { IsTrue result ↔ AllBelow self.now key.now }
    {
        match self.members.last() {
            Some((last, _)) => text_order(last.as_str(), key).is_lt(),
            None => true,
        }
    }

    /// Sets the value at `key`, in place of the one there, which is returned. Takes no memory where
    /// `key` is there already. Where there is no memory, the members stay.
    pub fn insert(&mut self, key: Text, value: V) -> Result<Option<V>, AllocError>
    where
        V: Drop,
        ensures replaced { IfOk result (λ before. before ≡ get_member key self.old) }
        ensures ok { OnOk result (self.new ≡ insert_member key value self.old) }
        ensures err { OnErr result (self.new ≡ self.old) }
        ensures absent { OnErr result (get_member key self.old ≡ None) }
    {
        match find(self.members.as_slice(), key.as_str()) {
            Ok(at) => {
                let member = &mut self.members[at];
                Ok(Some(mem::replace(&mut member.1, value)))
            }
            Err(at) => {
                self.members.insert(at, (key, value))?;
                Ok(None)
            }
        }
    }

    /// Adds a value behind the last, at a key above all others. Where there is no memory, the
    /// members stay.
    pub fn push(&mut self, key: Text, value: V) -> Result<(), AllocError>
    where
        V: Drop,
        requires { AllBelow self.old key }
        ensures ok { OnOk result (self.new ≡ self.old ++ (key, value) ∷ []) }
        ensures err { OnErr result (self.new ≡ self.old) }
    {
        self.members.push((key, value))?;
        Ok(())
    }

    /// Takes the value at `key` away, with its key.
    pub fn remove(&mut self, key: &str) -> Option<V>
        ensures removed { result ≡ get_member key.now self.old }
        ensures rest { self.new ≡ remove_member key.now self.old }
    {
        match find(self.members.as_slice(), key) {
            Ok(at) => {
                let (_, value) = self.members.remove(at);
                Some(value)
            }
            Err(_) => None,
        }
    }

    /// Drops all members, and keeps the memory.
    pub fn clear(&mut self)
    where
        V: Drop,
        ensures { self.new ≡ [] }
    {
        self.members.clear();
    }

    pub fn allocator(&self) -> Global {
        *self.members.allocator()
    }
}

/// Each value of the copy is a clone of that at its key.
impl<V: Clone> Clone for Fields<V> {
    ghost is_clone = { AllZip (member_clone V.is_clone) };

    fn clone(&self) -> Result<Self, AllocError>
        ensures cases { IfOk result (AllZip (member_clone V.is_clone) self.now) }
        ensures same { IfOk result (λ copy. ClonesAreSame V.is_clone → copy ≡ self.now) }
    {
        Ok(Fields {
            members: self.members.clone()?,
        })
    }
}

impl<V: PartialEq> PartialEq for Fields<V> {
    ghost eq = { pointwise (member_eq V.eq) };

    ghost laws = { lists_per (member_per V.laws) };

    fn eq(&self, other: &Self) -> bool {
        self.members == other.members
    }
}

impl<V: Eq> Eq for Fields<V> {
    ghost laws = { lists_equiv (member_equiv V.Eq.laws) };
}

// The value of a member, to write to.
fn value_of<V>(member: &mut (Text, V)) -> &mut V
    ensures* writes_back { sem 𝓛 (lends_member_value V.row member.entry result) }
    ensures value { result.now ≡ member.old.1 }
{
    &mut member.1
}

// The place of a key, by binary search, or as `Err` where it would go.
fn find<V>(members: &[(Text, V)], key: &str) -> Result<usize, usize>
    requires { Rises members.now }
    ensures { MatchResult result (IsFoundAt key.now members.now) (IsAbsentAt key.now members.now) }
{
    let mut low = 0;
    let mut high = members.len();
    while low < high {
        let middle = low + (high - low) / 2;
        match text_order(key, members[middle].0.as_str()) {
            Ordering::Less => high = middle,
            Ordering::Equal => return Ok(middle),
            Ordering::Greater => low = middle + 1,
        }
    }
    Err(low)
}
