//! Work that is handed to workers and comes home done.
//!
//! - A [`Task`] says what its work gives. [`Shop`] is the contract of those who have it done: a job that is given is
//!   out until its result is taken, and each job comes home once, with a result of its own.
//! - [`InlineShop`] does a job itself, when its result is taken.
//! - [`ThreadShop`] hands jobs to [`Worker`]s, which its caller has serve in threads. For each worker it has a table of
//!   `atomic_table` with one word and one slot, by the rule of `specs/Rule`: the job, and later its result, lies in
//!   the slot, and the word says whose turn it is.
#![tactic(auto)]

mod endpoint;
mod inline;
mod rule;
mod task;
mod thread_shop;
mod worker;
mod worker_slot;

pub use inline::InlineShop;
pub use task::{Shop, Task};
pub use thread_shop::{Dones, ThreadShop};
pub use worker::Worker;
