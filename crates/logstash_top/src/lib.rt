//! The calls of the program `logstash`, over the objects of the outside that they are handed: [`which`] names the one that the
//! words are for, [`logstash`] is a run, and [`test_config`] a test of the configuration alone.
#![tactic(auto)]

mod built;
mod checks;
mod config_files;
mod config_test;
mod line;
mod named_files;
mod requested_call;
mod serve;
mod start;
mod status;
mod text_parts;
mod top;
mod words;
mod world;

pub use config_test::test_config;
pub use foreign_parts::{BoxPool, Rack};
pub use graph_checks::GraphFault;
pub use logstash_settings::{RangedOption, WordsFault};
pub use requested_call::Which;
pub use status::Status;
pub use top::logstash;
pub use words::{which, workers_wanted};
pub use world::World;
