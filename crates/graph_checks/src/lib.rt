//! The checks of a configuration before it is run: its first fault, or none; and plans of configurations.
//!
//! The statements are tested in the order of the text: the inputs, then the filters, then the outputs, with
//! the conditions in front of their blocks. Then the whole is tested. Boxes are asked where they stand, and
//! none is taken. [`compile`] makes a plan of a configuration that passes, with the boxes and links that it wants
//! from a rack, and [`give_back`] puts these back.
#![tactic(auto)]

mod box_return;
mod box_settings;
mod built_in;
mod checking;
mod compiling;
mod conditions;
mod counts;
mod drawing;
mod drawn;
mod draws;
mod fault;
mod inputs;
mod kit_boxes;
mod kits;
pub mod laws;
mod plan;
mod planned;
mod plugins;
mod seen_texts;
mod walk;
mod want;
mod whole;

pub use box_return::give_back;
pub use checking::check;
pub use compiling::compile;
pub use drawn::Drawn;
pub use fault::GraphFault;
pub use foreign_parts::{BoxKind, BoxPool, Boxes};
pub use plan::Plan;
pub use planned::{PlannedInput, PlannedOutputs};
pub use want::Want;
