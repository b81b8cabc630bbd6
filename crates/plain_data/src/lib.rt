//! Texts, lists, fields, boxes and moments that contracts see as plain lists, values and numbers, so that a tree of
//! them is plain data.
//!
//! - [`Text`] is the list of its bytes in UTF-8.
//! - [`Items`] of `T` is the list of its elements.
//! - [`Fields`] of `V` is the list of its members, (key, value), whose keys rise strictly.
//! - [`Boxed`] of `T` is the value in it, on the heap.
//! - [`Instant`] is a moment of UTC in the years 0001 to 9999, as the number of its nanoseconds.
//!
//! `≡` compares them by those lists and values alone. A recursive enum may hold each of them, as in
//! `enum Tree { Leaf(Text), List(Items<Tree>), Object(Fields<Tree>) }`. A recursion goes down by
//! `as_slice` and `members`, where the check finds that it ends, and by `get_mut`.
//!
//! The laws of keys and members are the contracts of [`laws`]. A proof finds them as the ruleset
//! `laws` of `proofs/ChangeLemmas`. `below_next` of `proofs/MemberLemmas` serves a loop that pushes
//! members in their order, the ruleset `exact` of `proofs/ImplLemmas` serves `==`, and
//! `proofs/Splits` gives what a change at a key leaves before and behind it.
#![tactic(auto)]

mod boxed;
mod fields;
mod instant;
mod items;
pub mod laws;
mod order;
mod text;

pub use boxed::Boxed;
pub use fields::Fields;
pub use instant::Instant;
pub use items::Items;
pub use order::text_order;
pub use text::Text;

/// Texts in order: names of files, of fields, of plugins.
pub type Names = Items<Text>;
