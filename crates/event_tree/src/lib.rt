//! Events as trees of values, seen by contracts as plain data.
//!
//! What calls cost, where a level is one object or list on the way of a path:
//! - `Event::get` takes one binary search in each object of its way, and no memory.
//! - `Event::put` goes the way three times: it measures, walks the new value once for its depth and
//!   once for its size and the value that it replaces once for its size, and then writes. It walks
//!   nothing else of the event, whose size is kept beside it. A new member moves those behind it.
//! - `Event::append` goes the way twice and walks the new value twice, and nothing of the list.
//! - `Event::rename` goes its two ways three times and walks the value that moves three times; it copies
//!   nothing, and tests all before it takes.
//! - `Event::take` goes the way once and walks what it takes. It moves the members or items behind.
//! - `Event::copy` and `Value::copy` walk the whole; `Value::same` walks up to the first difference.
//! - `Path::read` reads its text once; `Number::new` takes at most one step for each place.
//!
//! The walks recurse once for each level of a value, of which an event has at most 128.
#![tactic(auto)]

mod append;
mod change;
mod cut;
mod decimal;
mod event;
mod fault;
mod lists;
mod measure;
mod moving;
mod number;
mod path;
mod place;
mod significand;
mod value;
mod within;

pub use event::Event;
pub use fault::{PathFault, PutFault};
pub use lists::{DeadList, DeadPart, Events, Pairs};
pub use number::Number;
pub use path::Path;
pub use plain_data::{Fields, Instant, Items, Names, Text};
pub use value::Value;
