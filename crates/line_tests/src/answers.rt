// What comes of runs, in words.
use crate::opened::Ran;
use crate::serving::{End, Tally};
use line_machine::LineFault;
use std::alloc::AllocError;

/// Adds what a run came to.
pub fn add_ran(to: &mut String, ran: &Ran) -> Result<(), AllocError> {
    match ran {
        Ran::Inside => to.push_str("inside "),
        Ran::Closed(fault) => {
            to.push_str("not opened: ")?;
            add_fault(to, fault)
        }
        Ran::Served(end, tally) => {
            add_end(to, end)?;
            add_tally(to, tally)
        }
    }
}

fn add_end(to: &mut String, end: &End) -> Result<(), AllocError> {
    match end {
        End::Rest => to.push_str("rest"),
        End::Cut => to.push_str("cut"),
        End::Fault(fault) => add_fault(to, fault),
    }
}

fn add_fault(to: &mut String, fault: &LineFault) -> Result<(), AllocError> {
    match fault {
        LineFault::Store => to.push_str("store"),
        LineFault::Input(input) => write!(to, "input {input}"),
        LineFault::Output(id) => write!(to, "output {}", id.as_str()),
        LineFault::Damaged(damage) => write!(to, "damaged {}", damage.file.as_str()),
        LineFault::NumbersSpent => to.push_str("numbers spent"),
        LineFault::DeadFull { size, added, limit } => {
            write!(to, "dead letters full, {size} and {added} over {limit}")
        }
        LineFault::Memory => to.push_str("memory"),
    }
}

fn add_tally(to: &mut String, tally: &Tally) -> Result<(), AllocError> {
    let Tally {
        rows,
        batches,
        deliveries,
        full,
        pages,
    } = *tally;
    write!(
        to,
        " rows {rows} batches {batches} deliveries {deliveries} full {full} pages {pages} "
    )
}

/// Adds bytes as text, with a comma at the end of each line.
pub fn add_bytes(to: &mut String, bytes: &[u8]) -> Result<(), AllocError> {
    for byte in bytes {
        let shown = if *byte == b'\n' { b',' } else { *byte % 128 };
        to.push(shown as char)?;
    }
    Ok(())
}
