//! Tests of jobs in shops: the same job done in line, and by a worker in a thread of its own. [`crossing`] has that a job and
//! what it gives may go to another thread.
#![tactic(auto)]

pub mod crossing;
#[cfg(test)]
mod jobs_tests;
