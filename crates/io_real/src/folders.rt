// The names in folders of the real machine.

use plain_data::{Items, Names, Text};
use std::alloc::Global;
use std::fs::{self, File};
use std::io::{self, ErrorKind};
use std::rt::Files;

/// The last parts of the names of the files in a folder, in byte order. A folder that is missing has
/// none. Folders in it are left out, and so are files whose name is no text, since no call can name
/// them.
pub fn names_in<R: Files<File = File> + AllocGlobal + Clone + Drop>(
    rt: &R,
    alloc: Global,
    folder: &str,
) -> io::Result<Names> {
    let mut names = Vec::new(alloc);
    let folder = if folder.is_empty() { "." } else { folder };
    let entries = match fs::read_dir(rt, folder) {
        Ok(entries) => entries,
        Err(error) if error.kind() == ErrorKind::NotFound => return Ok(Items::new(alloc)),
        Err(error) => return Err(error),
    };
    for entry in entries {
        match entry {
            Ok(entry) => {
                if is_file(rt, &entry)? {
                    names.push(Text::of(alloc, entry.file_name())?)?;
                }
            }
            Err(error) if error.kind() == ErrorKind::InvalidFilename => {}
            Err(error) => return Err(error),
        }
    }
    names.sort()?;
    Ok(Items::from_vec(names))
}

// Whether an entry is there and no folder.
fn is_file<R: Files<File = File>>(rt: &R, entry: &fs::DirEntry<R>) -> io::Result<bool> {
    match fs::metadata(rt, entry.path()) {
        Ok(metadata) => Ok(!metadata.is_dir()),
        Err(error) if error.kind() == ErrorKind::NotFound => Ok(false),
        Err(error) => Err(error),
    }
}
