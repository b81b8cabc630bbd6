// Deliveries to a host over TCP.
use crate::calls::{add_configured, add_delivered};
use crate::parts::{events_of, settings_of};
use out_bulk::{Bulk, TcpPeer};
use std::io;

/// Delivers two events to a host, so often, and prints what becomes of them by each call.
pub fn run(rt: &HostRuntime, host: &str, count: &str) -> io::Result<()> {
    let alloc = rt.alloc();
    let settings = format!(in alloc; "{{\"hosts\":[\"{host}\"],\"index\":\"i\"}}")?;
    let settings = settings_of(alloc, &settings)?;
    let events = events_of(alloc, "{\"message\":\"a\"} {\"message\":\"b\"}")?;
    let mut bulk = Bulk::new(alloc, TcpPeer::new(rt));
    let mut answer = String::new(alloc);
    add_configured(&mut answer, &mut bulk, &settings)?;
    println!(rt; "{answer}")?;
    for _ in 0..count.parse::<u32>().unwrap_or(0) {
        answer.clear();
        add_delivered(&mut answer, &mut bulk, &events)?;
        println!(rt; "{answer}")?;
    }
    println!(rt;
        "faults {}, bad {}, laters {}",
        bulk.peer().faults(),
        bulk.bad_replies(),
        bulk.laters()
    )
}
