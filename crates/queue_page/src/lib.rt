//! Pages of a queue: files of elements, each of which holds a row.
//!
//! A page begins with its version, which is 1 or 2. Behind it stand elements whose numbers go up by one. In a
//! page of version 1 the body of an element is an event; in one of version 2 it also names the input of the row.
//! A checkpoint says how many rows and bytes of a page are recorded: within these each damage is found with its
//! place, and behind them the longest run of intact elements is kept. `specs/Grammar` has the bytes, and
//! `specs/Pages` what a page says.
#![tactic(auto)]

mod element;
mod fault;
mod framing;
pub mod laws;
mod opening;
mod page;
mod page_buffer;
mod row;
mod run;

pub use framing::frame_row;
pub use page::Page;
pub use page_buffer::{BLOCK_LEN, PageBuffer};
pub use row::PageRow;
