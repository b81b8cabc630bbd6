//! Appends to a file of a `FileStore`, with a sync every so many appends (bench/store.sh).

use io_real::FileStore;
use io_traits::{Failed, Store};

/// How many bytes an append has.
const BYTES: usize = 300;

/// Makes so many appends to a file, with a sync every so many, and gives their number.
pub fn run(rt: &HostRuntime, words: &[String]) -> Option<u64> {
    let [file, appends, every] = words else {
        return None;
    };
    let appends = appends.as_str().parse::<u64>().ok()?;
    let every = every.as_str().parse::<u64>().ok()?;
    let mut store = FileStore::new(rt.alloc(), rt);
    append_all(&mut store, file.as_str(), appends, every).ok()?;
    Some(appends)
}

/// Makes the appends, and a sync behind each `every`-th of them and at the end.
fn append_all<S: Store>(store: &mut S, name: &str, appends: u64, every: u64) -> Result<(), Failed> {
    let bytes = [b'x'; BYTES];
    for number in 0..appends {
        store.append(name, &bytes)?;
        if (number + 1).checked_rem(every) == Some(0) {
            store.sync()?;
        }
    }
    store.sync()
}
