//! Checksums, frames and slots: how the files of a persistent queue say what was written whole. And bytes
//! read from the front: what was read and the bytes behind it, or where reading stopped.
//!
//! - [`read_front`] cuts off a front of so many bytes.
//! - [`read_u16`], [`read_u32`] and [`read_u64`] read a number, the highest byte first.
//! - [`read_run`] reads bytes behind their length, which is a number of four bytes.
//! - [`Stop`] says where reading stopped, by the number of bytes that are left there, so that it is handed
//!   on by `?` and the place is counted from the first byte once, at the end.
//!
//! Each takes no memory, copies nothing, and reads no byte behind what it gives.
//!
//! In contracts a reader equals a function on lists (`specs/Fronts`): `front_at`, `number_at`, `run_at`, and
//! `repeated` for so many of one kind. `Gives` says that a result is what such a function gives, unless memory
//! ran out; it serves every reader that is made of these by `?` and by loops, whatever it reads
//! (`proofs/Repeats`). `proofs/Fronts` has what is read again and that what was read was written so, and
//! `proofs/Cuts` what bytes that end early could still become.
#![tactic(auto)]

mod crc;
mod framing;
pub mod laws;
mod reader;
pub mod reader_laws;
mod slots;
mod stop;
mod tables;
mod unframing;

pub use crc::crc32;
pub use framing::{frame, frame_crc, frame_head};
pub use reader::{read_front, read_run, read_u16, read_u32, read_u64};
pub use slots::{Slot, newest};
pub use stop::Stop;
pub use unframing::{Frame, unframe};
