// The folders in which a store has files.

use crate::paths::{folder_of, is_of_queue, take_lock};
use plain_data::{Fields, Text};
use std::alloc::Global;
use std::cell::Cell;
use std::fs::{self, File};
use std::io::{self, ErrorKind};
use std::rt::Files;

/// What is known of a folder.
#[derive(Drop)]
struct KnownFolder {
    /// Whether it is there, and nothing from before this object is unsynced of it.
    is_settled: bool,
    /// Whether its files are the store's own.
    is_own: bool,
    /// Whether names in it changed since the last sync.
    changed: Cell<bool>,
    /// The lock on it, once it is taken.
    lock: Option<File>,
}

/// The folders that a store knows, by their names.
#[derive(Drop)]
pub struct KnownFolders {
    alloc: Global,
    folders: Fields<KnownFolder>,
    // Whether a sync of a folder failed outside of a call of `sync`.
    is_lost: bool,
}

impl KnownFolders {
    pub fn new(alloc: Global) -> KnownFolders {
        KnownFolders {
            alloc,
            folders: Fields::new(alloc),
            is_lost: false,
        }
    }

    /// Whether a folder is there. It is synced where it is first asked for, since an earlier process
    /// may have changed names in it.
    pub fn settle(&mut self, rt: &impl Files<File = File>, folder: &str) -> io::Result<bool> {
        if let Some(known) = self.folders.get(folder) {
            if known.is_settled {
                return Ok(true);
            }
        }
        let file = match open_folder(rt, folder) {
            Ok(file) => file,
            Err(error) if error.kind() == ErrorKind::NotFound => return Ok(false),
            Err(error) => return Err(error),
        };
        let outcome = file.sync_all();
        self.is_lost = self.is_lost || outcome.is_err();
        outcome?;
        self.known(folder)?.is_settled = true;
        Ok(true)
    }

    /// Takes the files of a folder for the store's own, and, where the folder is there, the lock on it.
    pub fn claim_folder(
        &mut self,
        rt: &(impl Files<File = File> + AllocGlobal),
        folder: &str,
    ) -> io::Result<()> {
        let known = self.known(folder)?;
        known.is_own = true;
        if known.lock.is_none() && fs::exists(rt, folder)? {
            known.lock = take_lock(rt, folder)?;
        }
        Ok(())
    }

    /// Makes a folder that is missing, and those around it from the outermost on.
    pub fn make(&mut self, rt: &impl Files<File = File>, folder: &str) -> io::Result<()> {
        if self.settle(rt, folder)? {
            return Ok(());
        }
        for at in 1..folder.len() {
            let outer = folder.get(..at).unwrap_or("");
            if folder.as_bytes()[at] == b'/' && !fs::exists(rt, outer)? {
                self.make_one(rt, outer)?;
            }
        }
        self.make_one(rt, folder)
    }

    /// Gets ready for a change of a name in a folder that is there: the lock on it is taken, and a
    /// sync waits for it.
    pub fn change(
        &mut self,
        rt: &(impl Files<File = File> + AllocGlobal),
        name: &str,
    ) -> io::Result<()> {
        self.lock(rt, name)?;
        self.known(folder_of(name))?.changed.set(true);
        Ok(())
    }

    /// Takes the lock on the folder of a name, if its files are the store's own. It is held for as long
    /// as the store lives.
    pub fn lock(
        &mut self,
        rt: &(impl Files<File = File> + AllocGlobal),
        name: &str,
    ) -> io::Result<()> {
        let folder = folder_of(name);
        let known = self.known(folder)?;
        if known.lock.is_none() && (known.is_own || is_of_queue(name)) {
            known.lock = take_lock(rt, folder)?;
        }
        Ok(())
    }

    /// Syncs the folders in which names changed, one by one. It fails once a sync failed outside of it.
    pub fn sync(&mut self, rt: &impl Files<File = File>) -> io::Result<()> {
        if self.is_lost {
            return Err(ErrorKind::Other.into());
        }
        for (name, known) in self.folders.members() {
            if known.changed.get() {
                open_folder(rt, name.as_str())?.sync_all()?;
                known.changed.set(false);
            }
        }
        Ok(())
    }

    // Makes a folder that is missing, in one that is there. That one waits for a sync then.
    fn make_one(&mut self, rt: &impl Files<File = File>, folder: &str) -> io::Result<()> {
        let around = folder_of(folder);
        if !self.settle(rt, around)? {
            return Err(ErrorKind::NotFound.into());
        }
        self.known(around)?.changed.set(true);
        match fs::create_dir(rt, folder) {
            Err(error) if error.kind() == ErrorKind::AlreadyExists => {}
            outcome => outcome?,
        }
        if self.settle(rt, folder)? {
            Ok(())
        } else {
            Err(ErrorKind::NotFound.into())
        }
    }

    // What is known of a folder.
    fn known(&mut self, folder: &str) -> io::Result<&mut KnownFolder> {
        if !self.folders.contains_key(folder) {
            let name = Text::of(self.alloc, folder)?;
            let unknown = KnownFolder {
                is_settled: false,
                is_own: false,
                changed: Cell::new(false),
                lock: None,
            };
            let _ = self.folders.insert(name, unknown)?;
        }
        match self.folders.get_mut(folder) {
            Some(known) => Ok(known),
            None => Err(ErrorKind::NotFound.into()),
        }
    }
}

// Opens a folder for reading, which is what a sync of it needs.
fn open_folder(rt: &impl Files<File = File>, folder: &str) -> io::Result<File> {
    let file = File::open(rt, folder)?;
    if file.metadata()?.is_dir() {
        Ok(file)
    } else {
        Err(ErrorKind::NotADirectory.into())
    }
}
