//! What operators set: the orders of a command line, and the pipelines of `pipelines.yml`.
//!
//! `pipelines.yml` is a flat profile of YAML: blank lines, comments, and entries whose lines are a key and a scalar each.
//! [`read_pipelines`] gives the settings of its entries, or the first line at fault.
#![tactic(auto)]

mod entry;
mod fault;
mod lines;
mod numbers;
mod orders;
mod own;
mod partial_settings;
mod pipelines;
mod settings;
mod table;
mod values;

pub use fault::{SettingsFault, SettingsLineFault};
pub use numbers::{is_id, number_in, small_number_in};
pub use orders::{ConfigSource, Orders, QueueTool};
pub use pipelines::read_pipelines;
pub use settings::{PipelineSettings, Policy};
