// Tables of files for the tests of memory files.
use plain_data::{Items, Text};
use std::alloc::{AllocError, Global};
use store_memory::FileTable;

// A table of files with the same bytes.
pub(crate) fn files_of(
    alloc: Global,
    names: &[&str],
    bytes: &[u8],
) -> Result<FileTable, AllocError> {
    let mut files = FileTable::new(alloc);
    for name in names {
        let file = Items::from_vec(Vec::from_slice(alloc, bytes)?);
        let _ = files.insert(Text::of(alloc, name)?, file)?;
    }
    Ok(files)
}
