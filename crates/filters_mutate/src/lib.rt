//! The filter `mutate`, which changes fields of an event.
#![tactic(auto)]

mod cases;
mod conversions;
mod fills;
mod gsub;
mod lists;
mod moves;
mod mutate;
mod operation;
mod replacement;

pub use filter_settings::{Applied, Conversion};
pub use gsub::{Gsub, Substitution};
pub use mutate::Mutate;
