//! Tests of calls that fit no table: of instants, plain data, lines, frames and patterns, of the objects of the outside, those in
//! memory with their scripts and those of the real machine over readers and writers of a test and by the real clock, and of what
//! threads share, links between pipelines, counters and shops.
#![tactic(auto)]

#[cfg(test)]
mod adapters_tests;
#[cfg(test)]
mod bitwise;
#[cfg(test)]
mod boxed_tests;
#[cfg(test)]
mod control_tests;
#[cfg(test)]
mod counters_tests;
#[cfg(test)]
mod frame_tests;
#[cfg(test)]
mod instant_tests;
#[cfg(test)]
mod line_tests;
#[cfg(test)]
mod links_tests;
#[cfg(test)]
mod memory_links_tests;
#[cfg(test)]
mod memory_tests;
#[cfg(test)]
mod pattern_tests;
#[cfg(test)]
mod plain_data_tests;
#[cfg(test)]
mod plain_tests;
#[cfg(test)]
mod shops_tests;
#[cfg(test)]
mod tables;
