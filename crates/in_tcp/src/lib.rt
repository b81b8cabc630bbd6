//! Inputs of TCP connections: the lines that come over up to 64 connections beside each other, as events.
//!
//! `specs/Inputs` has what a poll and a line are of an input, and how what it gave and holds stands to all that came; the lines of
//! several sources beside each other are those of `in_lines`.
#![tactic(auto)]

mod input;
mod partial_lines;
mod pieces;
mod polling;
mod reading;
mod receive_buffer;
mod rest;

pub use input::TcpInput;
pub use polling::CONNECTION_LIMIT;
