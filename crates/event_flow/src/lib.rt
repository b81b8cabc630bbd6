//! What a configuration means: what becomes of events that meet its statements, and what is due to
//! be delivered of them; and the flat steps in which its statements are laid out.
#![tactic(auto)]

mod assembling;
mod block;
mod cell;
mod flattening;
pub mod laws;
mod running;
mod step;
mod stepping;
mod targets;

pub use block::{Block, Flattened};
pub use cell::{Cell, Outcome};
pub use flattening::{flatten, flatten_config};
pub use running::{Plugins, run};
pub use step::FlowStep;
pub use targets::Targets;
