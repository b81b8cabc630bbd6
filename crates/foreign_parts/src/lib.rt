//! Filters and outputs that a program hands in as boxes, and links from outside, the rack in which they
//! stand until a configuration takes them, and the places to which events are delivered.
#![tactic(auto)]

mod box_pool;
mod boxes;
mod filter;
mod links;
mod named_boxes;
mod output;
mod place;
mod plugged;
mod rack;
mod shelves;

pub use box_pool::BoxPool;
pub use boxes::{BoxKind, Boxes};
pub use config_tree::{FromFault, SettingFault, Settings};
pub use filter::{ForeignFilter, Verdict};
pub use links::LinkPlace;
pub use output::{DeliverFault, Delivery, Fate, Fates, ForeignOutput};
pub use pipeline_bus::LinkTaker;
pub use place::Place;
pub use plugged::{FilterCall, Plugged, PluggedFilter, PluggedOutput};
pub use rack::Rack;
