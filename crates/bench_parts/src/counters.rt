//! Adds to a counter of a monitor (bench/threads.sh).

use monitor_core::{Counter, Monitor, MonitorOpen};
use std::alloc::Global;

/// Makes so many adds of 1 to one counter, and gives what it then counts.
pub fn run(alloc: Global, words: &[String]) -> Option<u64> {
    let [adds] = words else {
        return None;
    };
    let adds = adds.as_str().parse::<u32>().ok()?;
    let MonitorOpen { monitor, mut seats } = Monitor::new(alloc, 1).ok()?;
    let mut seat = seats.pop()?;
    for _ in 0..adds {
        monitor.add(&mut seat, Counter::Accepted, 1);
    }
    u64::try_from(monitor.read(&mut seat, Counter::Accepted).sum).ok()
}
