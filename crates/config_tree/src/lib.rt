//! The tree of a configuration of Logstash: what it says, made again, compared and read as settings.
#![tactic(auto)]

mod copies;
mod equality;
mod fault;
mod operators;
mod readers;
mod tree;

pub use copies::copy_statements;
pub use fault::{FromFault, SettingFault};
pub use operators::{Comparison, Conjunction, Disjunction, Matching};
pub use tree::{
    Arm, Condition, Config, Literal, MatchPattern, Operand, Plugin, SettingValue, Settings,
    Statement,
};
