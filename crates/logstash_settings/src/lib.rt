//! What operators set: the words of the command line, read as one command of `clap`, and the pipelines of `pipelines.yml`.
//!
//! [`read_words`] gives the orders of a command line, and [`read_pipelines`] the settings of a text's entries. The latter
//! stands in `settings_lines`, with all types, which this crate hands on: who doesn't read words needs no `clap`.
#![tactic(auto)]

mod command;
mod fault;
mod orders;
mod words;

pub use fault::{RangedOption, WordsFault};
pub use settings_lines::{
    ConfigSource, Orders, PipelineSettings, Policy, QueueTool, SettingsFault, SettingsLineFault,
    read_pipelines,
};
pub use words::read_words;
