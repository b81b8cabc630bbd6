//! The plugins and conditions of a configuration, with their settings read and their patterns compiled.
//!
//! A [`Filter`] is a built-in one, which makes events of an event, or a boxed one, of which the settings
//! are read that every filter has. [`Outputs`] are outputs with the numbers of their places. A
//! [`CompiledCondition`] says what a condition says of an event, by patterns that were compiled once.
//! [`Flat`] has the plugins and the conditions of a section, in the order of the text.
#![tactic(auto)]

mod boxed;
mod built;
mod condition;
mod counting;
mod filter;
mod flat;
mod ids;
mod lists;
mod output;
mod places;
mod shared;

pub use boxed::BoxedFilter;
pub use built::BuiltFilter;
pub use condition::{CompiledCondition, NamedCondition, read_patterns};
pub use counting::add_counts;
pub use filter::Filter;
pub use flat::Flat;
pub use ids::{condition_id, plugin_id};
pub use lists::{add_named, compile_conditions, read_filters};
pub use output::{OutputTargets, Outputs, Target};
pub use shared::Shared;
