//! The folder of a persistent queue, over its page files and checkpoints: what it holds, file by file, or its first damage.
//!
//! The definitions of what a folder holds and of when it holds a queue that was written to it stand in `specs/Found` and
//! `specs/Kept`, with their laws in [`laws`]; the calls here open a folder, read its pages, mark, purge and begin pages.
//! The queue itself is `queue_files`.
#![tactic(auto)]

mod checkpoint_state;
pub mod folder_laws;
mod inspection;
pub mod laws;
mod listing;
mod look;
mod marking;
mod naming;
mod opening;
mod page_scan;
mod purging;
mod removing;
mod rolling;
mod rows;
mod scanned;
mod sealed_pages;
mod starting;
mod unread;

pub use inspection::read_folder;
pub use listing::{Listing, list_folder};
pub use marking::{Mark, mark_pages};
pub use naming::{checkpoint_name, head_name, page_name};
pub use opening::{OpenedQueue, open_folder};
pub use purging::remove_page;
pub use removing::remove_files;
pub use rolling::{NextPage, begin_page};
pub use rows::add_row;
pub use scanned::{Scanned, read_pages};
pub use sealed_pages::SealedPage;
pub use starting::make_first;
