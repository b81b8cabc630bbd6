// Files that were read, kept open for the next read of each.
ghost use Rattle.std.specs.Prelude.{◌≤◌, IfOk, length};

use plain_data::{Fields, Text};
use std::alloc::{AllocError, Global};
use std::fs::{self, File, Metadata};
use std::io::{self, ErrorKind};
use std::os::unix::fs::{FileExt, MetadataExt};
use std::rt::Files;

// How many files are kept open.
const MOST_KEPT: usize = 32;

/// A file that is kept open, and by what it is known again.
#[derive(Drop)]
struct KeptFile {
    file: File,
    /// The numbers of its device and of the file on it. No other file has both, as long as this one is open.
    device: u64,
    number: u64,
}

impl KeptFile {
    // Whether what was found at a name is this file.
    fn is(&self, found: &Metadata) -> bool {
        self.device == found.dev() && self.number == found.ino()
    }
}

/// The files that are kept open, by their paths.
#[derive(Drop)]
pub struct KeptFiles {
    alloc: Global,
    files: Fields<KeptFile>,
}

impl KeptFiles {
    pub fn new(alloc: Global) -> KeptFiles {
        KeptFiles {
            alloc,
            files: Fields::new(alloc),
        }
    }

    /// Reads from a place of the file that has this name now, as many bytes as stand there, up to the room. A missing
    /// file has none, and so has a folder.
    ///
    /// The name is looked up at each read. Where it is that of the file that is kept, this one is read, and else the
    /// one that is found there.
    pub fn read(
        &mut self,
        rt: &impl Files<File = File>,
        path: &str,
        at: u64,
        into: &mut [u8],
    ) -> io::Result<usize>
        ensures { IfOk result (λ n. n ≤ length into.old) }
    {
        let found = match fs::metadata(rt, path) {
            Ok(found) => found,
            Err(error) => {
                let _ = self.files.remove(path);
                return none_where_missing(error);
            }
        };
        match self.files.get(path) {
            Some(kept) if kept.is(&found) => read_up_to(&kept.file, found.len(), at, into),
            _ => self.open_and_read(rt, path, at, into),
        }
    }

    // Opens a file and reads it, and keeps it open in place of the one that had its name before.
    fn open_and_read(
        &mut self,
        rt: &impl Files<File = File>,
        path: &str,
        at: u64,
        into: &mut [u8],
    ) -> io::Result<usize>
        ensures { IfOk result (λ n. n ≤ length into.old) }
    {
        let _ = self.files.remove(path);
        let file = match File::open(rt, path) {
            Ok(file) => file,
            Err(error) => return none_where_missing(error),
        };
        let found = file.metadata()?;
        if found.is_dir() {
            return Ok(0);
        }
        let count = read_up_to(&file, found.len(), at, into)?;
        let kept = KeptFile {
            file,
            device: found.dev(),
            number: found.ino(),
        };
        // Without memory it is opened again at the next read.
        let _ = self.keep(path, kept);
        Ok(count)
    }

    // Keeps a file open. Where many are, the first in the order of the names is closed.
    fn keep(&mut self, path: &str, kept: KeptFile) -> Result<(), AllocError> {
        if self.files.len() >= MOST_KEPT {
            self.close_one()?;
        }
        let name = Text::of(self.alloc, path)?;
        let _ = self.files.insert(name, kept)?;
        Ok(())
    }

    fn close_one(&mut self) -> Result<(), AllocError> {
        if let Some((name, _)) = self.files.members().first() {
            let name = name.copy()?;
            let _ = self.files.remove(name.as_str());
        }
        Ok(())
    }
}

// A missing file has no bytes.
fn none_where_missing(error: io::Error) -> io::Result<usize>
    ensures { IfOk result (λ n. n ≤ 0) }
{
    if error.kind() == ErrorKind::NotFound {
        Ok(0)
    } else {
        Err(error)
    }
}

// Reads from a place of a file of this length, as many bytes as stand there, up to the room. A length of 0 may be that of a
// file that the system makes as it is read, and so says nothing.
fn read_up_to(file: &File, file_len: u64, at: u64, into: &mut [u8]) -> io::Result<usize>
    ensures { IfOk result (λ n. n ≤ length into.old) }
{
    let mut count = 0;
    for _ in 0..u64::MAX {
        let place = at.saturating_add(count as u64);
        let is_at_end = file_len > 0 && place >= file_len;
        if count >= into.len() || is_at_end || place > i64::MAX as u64 {
            break;
        }
        match file.read_at(&mut into[count..], place) {
            Ok(0) => break,
            Ok(more) => count += more,
            Err(error) if error.kind() == ErrorKind::Interrupted => {}
            Err(error) => return Err(error),
        }
    }
    Ok(count)
}
