//! The filter `grok`: patterns with names find fields in texts.
//!
//! A grok pattern is a regular expression in which `%{NAME}` stands for the pattern of that name. It is
//! expanded and compiled once, when the filter is made.
#![tactic(auto)]

mod grok;
mod grok_pattern;
mod searching;
mod settings;

pub use filter_settings::Applied;
pub use grok::Grok;
pub use grok_pattern::{GrokPattern, Put};
pub use settings::{FieldPatterns, pattern_of};
