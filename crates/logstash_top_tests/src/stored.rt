//! Runs over one store, with files around them.

ghost use Rattle.std.specs.Prelude.{◌≡◌};

use crate::objects::{files, store};
use crate::runs::ran;
use crate::told::add_bytes;
use crate::written::{cut, text_of};
use foreign_parts::{BoxPool, FilterCall};
use line_jobs::Close;
use line_outputs::OutputCall;
use logstash_top::World;
use std::alloc::AllocError;
use std::rt::Clock as RuntimeClock;
use std::sync::Wait;
use store_memory::MemoryStore;

/// Adds what each run of a row leaves, and what the store has then of the files that are shown.
pub fn add_stored<
    R: Wait + RuntimeClock,
    F: FilterCall + Close,
    X: OutputCall,
    B: BoxPool<Filter = F, Output = X>,
>(rt: &R, to: &mut String, row: &str, rack: &mut B) -> Result<(), AllocError>
    requires { B.output_number ≡ X.number }
{
    let alloc = *to.allocator();
    let (around, runs) = cut(row, " ;; ");
    let (calls, around) = cut(around, " | ");
    let (written, shown) = cut(around, " | ");
    let (store_calls, file_calls) = cut(calls, ", ");
    let mut store = store(alloc, store_calls)?;
    for run in runs.split(" ;; ") {
        let files = files(alloc, file_calls, written)?;
        let World { store: left, .. } = ran(rt, to, run, rack, store, files)?;
        to.push_str(" ;; ")?;
        store = left;
    }
    add_shown(to, &store, shown)
}

/// Adds the bytes of each file, or that there is none.
fn add_shown(to: &mut String, store: &MemoryStore, shown: &str) -> Result<(), AllocError> {
    for path in shown.split(" & ") {
        if !path.is_empty() {
            add_file(to, store, path)?;
        }
    }
    Ok(())
}

fn add_file(to: &mut String, store: &MemoryStore, path: &str) -> Result<(), AllocError> {
    write!(to, "{path}: ")?;
    let path = text_of(*to.allocator(), path)?;
    match store.bytes(path.as_str()) {
        Some(bytes) => add_bytes(to, bytes)?,
        None => to.push_str("none")?,
    }
    to.push_str("; ")
}
