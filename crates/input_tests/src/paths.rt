// The files that a path with `*` watches.
use crate::words::number;
use in_file::watched_paths;
use io_memory::{MemoryFiles, Script, Showing};
use io_traits::{Files, ListFault};
use plain_data::{Items, Names, Text};
use std::alloc::{AllocError, Global};
use store_memory::FileTable;
use table_rows::part;

/// Adds the files that an input of a row's path watches.
pub fn add_watched(to: &mut String, row: &str) -> Result<(), AllocError> {
    let alloc = *to.allocator();
    let (path, row) = part(row);
    let (earlier, row) = part(row);
    let (present, failing) = part(row);
    let earlier = names_of(alloc, earlier)?;
    let mut files = files_of(alloc, present, number(failing.trim()))?;
    match watched(alloc, &mut files, path, earlier.as_slice()) {
        Ok(paths) => add_names(to, &paths),
        Err(ListFault::Failed) => to.push_str("fault"),
        Err(ListFault::Memory) => Err(AllocError),
    }
}

// Of any files and without clauses, so that nothing is said of those in memory where it is called.
fn watched<F: Files>(
    alloc: Global,
    files: &mut F,
    path: &str,
    earlier: &[Text],
) -> Result<Names, ListFault> {
    watched_paths(alloc, files, path, earlier)
}

fn add_names(to: &mut String, names: &Names) -> Result<(), AllocError> {
    write!(to, "{}", names.len())?;
    for name in names.as_slice() {
        to.push(' ')?;
        to.push_str(name.as_str())?;
    }
    Ok(())
}

fn names_of(alloc: Global, words: &str) -> Result<Names, AllocError> {
    let mut names = Names::new(alloc);
    for word in words.split_whitespace() {
        names.push(Text::of(alloc, word)?)?;
    }
    Ok(names)
}

fn files_of(alloc: Global, words: &str, failing: u64) -> Result<MemoryFiles, AllocError> {
    let mut files = FileTable::new(alloc);
    for word in words.split_whitespace() {
        let _ = files.insert(Text::of(alloc, word)?, Items::new(alloc))?;
    }
    let mut showings = Vec::new(alloc);
    showings.push(Showing { from: 0, files })?;
    Ok(MemoryFiles::new(alloc, showings, Script::new(alloc, &[failing], &[])?))
}
