//! Exact counters that many threads add to.
//!
//! - [`Monitor::new`] makes a table of words and a [`CountSeat`] for each thread. A seat has one word for each
//!   [`Counter`], which it alone changes, so no add waits for another.
//! - [`Monitor::add`] adds to one of a seat's counters. A counter never wraps: it stays at the last number of 64
//!   bits.
//! - [`Monitor::read`] adds up one counter over all seats while they go on; its own seat's adds are in it whole.
//! - [`Monitor::close`] gives the exact sums, once all seats are handed in.
//!
//! In contracts a seat is what it counted: `counted` of it, one number for each counter (`specs/Counting`). The rule
//! of the table (`specs/Kept`) ties the words to these numbers: no call can change one without the other.
#![tactic(auto)]

mod counter;
mod monitor;
mod rule;

pub use counter::{Counter, Total, Totals};
pub use monitor::{CountSeat, CountSeats, Monitor, MonitorOpen};
