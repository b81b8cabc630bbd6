//! Appends batches to an output file in a `FileStore`, each with its position (bench/outputs.sh).

use io_real::FileStore;
use slot_files::OutFile;
use std::alloc::Global;

/// How many batches were appended to a file, and how much of it counts recorded in another.
pub fn run(rt: &HostRuntime, words: &[String]) -> Option<u64> {
    let [file, slot, batches, bytes] = words else {
        return None;
    };
    let batches = batches.as_str().parse::<u64>().ok()?;
    let batch = batch(rt.alloc(), bytes.as_str().parse::<usize>().ok()?)?;
    append(rt, file.as_str(), slot.as_str(), &batch, batches)
}

fn batch(alloc: Global, bytes: usize) -> Option<Vec<u8>> {
    let mut batch = Vec::new(alloc);
    batch.resize(bytes, b'x').ok()?;
    Some(batch)
}

fn append(rt: &HostRuntime, file: &str, slot: &str, batch: &[u8], batches: u64) -> Option<u64> {
    let mut store = FileStore::new(rt.alloc(), rt);
    let mut out = OutFile::open_on(rt.alloc(), &mut store, file, slot).ok()?;
    for _ in 0..batches {
        out.append_batch(&mut store, batch).ok()?;
    }
    Some(batches)
}
