//! Writes the text of a configuration; and a configuration that was read and is printed is read again as itself
//! ([`configuration_reads_again`]).
#![tactic(auto)]

mod conditions;
mod print_laws;
mod reading;
mod statements;
mod text;
mod tokens;
mod values;

pub use print_laws::{
    condition_reads_again, configuration_reads_again, gaps_change_no_token, names_stand_once,
    printed_text_reads,
};
pub use reading::print_and_parse;
pub use text::print;
