//! Reads the text of a configuration.
//!
//! The grammar of configurations and its laws: that a text reads as one configuration at most, and that it reads, or
//! has one fault at one place (`specs/Grammar`, `specs/Machine`, and the contracts of `grammar_laws`).
//!
//! The parser reads tokens by descent, with a function for each symbol of the grammar's stack machine. Each function's clause
//! says that it gives what the machine's table reads for its symbol; that this makes what the machine makes is
//! `reading_is_right`. A function calls itself, through others, only with fewer levels left, so calls nest as far as the
//! levels of the text.
#![tactic(auto)]

mod conditions;
mod error;
mod fault;
mod grammar_laws;
mod joining;
mod laws;
mod names;
mod statements;
mod text;
mod tokens;
mod values;

pub use fault::ConfigFault;
pub use grammar_laws::{
    branches_have_arms, has_an_answer, machine_is_right, one_answer, reads_once,
};
pub use laws::reading_is_right;
pub use text::{LENGTH, LEVELS, parse};
