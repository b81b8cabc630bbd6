//! The ends of links that a pipeline has: parcels that it sends to addresses, and those that its inputs take.
//!
//! - [`AddressSender`] sends events to one address, keeps what was answered to each parcel until it is asked, and sends a
//!   last parcel where nothing follows.
//! - [`AddressSenders`] are those of a pipeline: they deliver events to an address, and send last parcels.
//! - [`AddressTaker`] takes parcels for an input that listens, gives their events one by one, and answers a parcel once
//!   the rows of all its events are marked; or, where the input was closed, those that lay in the ring then.
//! - [`AddressInput`] is an input that listens: its takers, one for each pipeline that sends to its address, polled in turn.
//!
//! In contracts each is its address and what went through its end (`specs/Senders`, `specs/Takers`): answers are given and
//! heard in the order of the parcels, and no parcel is answered before it was taken, or twice.
#![tactic(auto)]

mod address_input;
mod sender;
mod senders;
mod taker;

pub use address_input::AddressInput;
pub use sender::AddressSender;
pub use senders::{AddressSenders, Sent};
pub use taker::{AddressTaker, Polled};
