//! The tokens of a configuration's text.
#![tactic(auto)]

mod bytes;
mod context;
pub mod laws;
mod lexer;
mod token;

pub use bytes::{is_in_word, is_letter};
pub use lexer::lexemes;
pub use token::{Lexeme, Section, Token, Word};
