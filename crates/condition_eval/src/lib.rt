//! Conditions of branches: what a condition says of an event.
//!
//! An evaluation walks the condition once, and takes memory only where it searches for a pattern. What
//! the event holds is compared where it stands. A field costs what [`event_tree::Event::get`] costs,
//! an order or an equality of scalars some nanoseconds, and `in` one comparison for each item, or a
//! search of the text. Calls nest with the parentheses and `!` of the condition; along a row of joints
//! goes a loop.
#![tactic(auto)]

mod compare;
pub mod laws;
mod number;
mod operators;
mod patterns;
mod side;
mod truth;
mod walk;

pub use patterns::patterns_of;
pub use truth::{Kind, Reason, Truth};
pub use walk::eval;
