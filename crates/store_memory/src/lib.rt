//! A store in memory. It keeps what it held at first and a log of all its calls, from which what a
//! stop may leave at each moment follows.
#![tactic(auto)]

mod calls;
mod leftovers;
mod steps;
mod stores;

pub use calls::{Logged, StoreCall};
pub use io_memory::FileTable;
pub use stores::MemoryStore;
