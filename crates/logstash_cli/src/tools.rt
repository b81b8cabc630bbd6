//! The tools for the queue of a pipeline, over the files of the machine.

use io_real::FileStore;
use io_traits::Sink;
use pq_tools::{ToolStatus, pqcheck, pqrepair};

/// Checks the queue that the words name, and gives the number of the status.
pub fn check<O: Sink>(rt: &HostRuntime, words: &[String], stdout: &mut O) -> u8 {
    let mut store = FileStore::new(rt.alloc(), rt);
    told(rt, pqcheck(rt.alloc(), words, &mut store, stdout))
}

/// Writes a new queue of what can be read of the one that the words name, and gives the number of the status.
pub fn repair<O: Sink>(rt: &HostRuntime, words: &[String], stdout: &mut O) -> u8 {
    let mut store = FileStore::new(rt.alloc(), rt);
    told(rt, pqrepair(rt.alloc(), words, &mut store, stdout))
}

/// Tells on stderr how a tool ended, where stdout doesn't say it.
fn told(rt: &HostRuntime, status: ToolStatus) -> u8 {
    match &status {
        ToolStatus::Done | ToolStatus::Damaged(_, _) => {}
        _ => {
            let _ = eprintln!(rt; "logstash: {status}");
        }
    }
    status.number()
}
