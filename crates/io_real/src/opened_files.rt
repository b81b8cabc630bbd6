// The files of a store that are open, and what is known of others.
ghost use Rattle.std.specs.Prelude.{◌≤◌, IfOk, length};

use crate::folders::names_in;
use crate::known_folders::KnownFolders;
use crate::paths::{folder_of, listed_folder, place_of_file};
use plain_data::{Fields, Items, Names, Text};
use std::alloc::Global;
use std::cell::Cell;
use std::fs::{self, File, OpenOptions};
use std::io::{self, ErrorKind};
use std::os::unix::fs::FileExt;
use std::rt::Files;

// How many files are kept open.
const MOST_KEPT: usize = 32;

/// A file that is open.
#[derive(Drop)]
struct OpenedFile {
    file: File,
    /// Whether it is open for writing too.
    is_writable: bool,
    /// Its length, where it is known: it is not after a call that failed.
    length: Option<u64>,
    /// Whether it changed since the last sync.
    changed: Cell<bool>,
}

impl OpenedFile {
    fn end(&mut self) -> io::Result<u64> {
        if let Some(length) = self.length {
            return Ok(length);
        }
        let length = self.file.metadata()?.len();
        self.length = Some(length);
        Ok(length)
    }

    fn write(&mut self, at: u64, bytes: &[u8]) -> io::Result<()> {
        let end = self.end()?;
        self.length = None;
        self.changed.set(true);
        self.file.write_all_at(bytes, at)?;
        self.length = Some(end.max(at.saturating_add(bytes.len() as u64)));
        Ok(())
    }

    fn append(&mut self, bytes: &[u8]) -> io::Result<()> {
        let end = self.end()?;
        self.write(end, bytes)
    }

    fn cut(&mut self, length: u64) -> io::Result<()> {
        let end = self.end()?;
        self.length = None;
        self.changed.set(true);
        self.file.set_len(length.min(end))?;
        self.length = Some(length.min(end));
        Ok(())
    }

    // Syncs it, if it changed.
    fn sync(&self) -> io::Result<()> {
        if self.changed.get() {
            self.file.sync_all()?;
            self.changed.set(false);
        }
        Ok(())
    }
}

/// The open files of a store, by their names, and its folders.
///
/// What an earlier process left is synced before it is relied on: a folder when a name in it is first
/// asked for, and a file when it is first opened.
#[derive(Drop)]
pub struct OpenedFiles {
    alloc: Global,
    files: Fields<OpenedFile>,
    // The files of which nothing from before this object is unsynced: those that it synced or made.
    settled: Fields<()>,
    folders: KnownFolders,
    // Whether a sync of a file failed outside of a call of `sync`.
    is_lost: bool,
}

impl OpenedFiles {
    pub fn new(alloc: Global) -> OpenedFiles {
        OpenedFiles {
            alloc,
            files: Fields::new(alloc),
            settled: Fields::new(alloc),
            folders: KnownFolders::new(alloc),
            is_lost: false,
        }
    }

    /// The last parts of the names of the files in a folder, which is the store's own from then on.
    pub fn list(
        &mut self,
        rt: &(impl Files<File = File> + AllocGlobal + Clone + Drop),
        alloc: Global,
        folder: &str,
    ) -> io::Result<Names> {
        let folder = listed_folder(folder);
        self.folders.claim_folder(rt, folder)?;
        if self.folders.settle(rt, folder)? {
            names_in(rt, alloc, folder)
        } else {
            Ok(Items::new(alloc))
        }
    }

    /// The length of a file; None where there is none.
    pub fn length(
        &mut self,
        rt: &(impl Files<File = File> + AllocGlobal),
        name: &str,
    ) -> io::Result<Option<u64>> {
        if !self.open(rt, name)? {
            return Ok(None);
        }
        match self.files.get_mut(name) {
            Some(opened) => Ok(Some(opened.end()?)),
            None => Ok(None),
        }
    }

    /// Reads from a place of a file, as many bytes as stand there, up to the room.
    pub fn read(
        &mut self,
        rt: &(impl Files<File = File> + AllocGlobal),
        name: &str,
        at: u64,
        into: &mut [u8],
    ) -> io::Result<usize>
        ensures { IfOk result (λ n. n ≤ length into.old) }
    {
        if !self.open(rt, name)? {
            return Ok(0);
        }
        match self.files.get(name) {
            Some(opened) => read_from(&opened.file, at, into),
            None => Ok(0),
        }
    }

    pub fn append(
        &mut self,
        rt: &(impl Files<File = File> + AllocGlobal),
        name: &str,
        bytes: &[u8],
    ) -> io::Result<()> {
        // A file that is open for writing is looked up once.
        if let Some(opened) = self.files.get_mut(name) {
            if opened.is_writable {
                return opened.append(bytes);
            }
        }
        self.open_or_make(rt, name)?;
        match self.files.get_mut(name) {
            Some(opened) => opened.append(bytes),
            None => Err(ErrorKind::NotFound.into()),
        }
    }

    pub fn write_at(
        &mut self,
        rt: &(impl Files<File = File> + AllocGlobal),
        name: &str,
        at: u64,
        bytes: &[u8],
    ) -> io::Result<()> {
        self.open_or_make(rt, name)?;
        match self.files.get_mut(name) {
            Some(opened) => opened.write(at, bytes),
            None => Err(ErrorKind::NotFound.into()),
        }
    }

    pub fn cut(
        &mut self,
        rt: &(impl Files<File = File> + AllocGlobal),
        name: &str,
        length: u64,
    ) -> io::Result<()> {
        if !self.open_to_change(rt, name)? {
            return Ok(());
        }
        match self.files.get_mut(name) {
            Some(opened) => opened.cut(length),
            None => Ok(()),
        }
    }

    /// Removes a file, or the link of that name. An open file is closed once its name is gone, so
    /// that what is unsynced of it isn't forgotten where that fails.
    pub fn remove(
        &mut self,
        rt: &(impl Files<File = File> + AllocGlobal),
        name: &str,
    ) -> io::Result<()> {
        if !self.folders.settle(rt, folder_of(name))? || !is_there(rt, name)? {
            return Ok(());
        }
        self.folders.change(rt, name)?;
        match fs::remove_file(rt, name) {
            Err(error) if error.kind() == ErrorKind::NotFound => {}
            outcome => outcome?,
        }
        let _ = self.files.remove(name);
        let _ = self.settled.remove(name);
        Ok(())
    }

    /// Syncs the files that changed, one by one, and then the folders in which names did. It fails
    /// once a sync failed outside of it.
    pub fn sync(&mut self, rt: &impl Files<File = File>) -> io::Result<()> {
        if self.is_lost {
            return Err(ErrorKind::Other.into());
        }
        for (_, opened) in self.files.members() {
            opened.sync()?;
        }
        self.folders.sync(rt)
    }

    // Opens a file for reading if it isn't open, and says whether there is one. A folder is none.
    fn open(
        &mut self,
        rt: &(impl Files<File = File> + AllocGlobal),
        name: &str,
    ) -> io::Result<bool> {
        if self.files.contains_key(name) {
            return Ok(true);
        }
        if !self.folders.settle(rt, folder_of(name))? {
            return Ok(false);
        }
        let file = match File::open(rt, name) {
            Ok(file) => file,
            Err(error) if error.kind() == ErrorKind::NotFound => return Ok(false),
            Err(error) => return Err(error),
        };
        if file.metadata()?.is_dir() {
            return Ok(false);
        }
        self.settle(rt, name, &file)?;
        self.keep(name, file, false)?;
        Ok(true)
    }

    // Syncs a file that another process may have written, and its folder, where a link leads to
    // another than that of its name.
    fn settle(
        &mut self,
        rt: &(impl Files<File = File> + AllocGlobal),
        name: &str,
        file: &File,
    ) -> io::Result<()> {
        if self.settled.contains_key(name) {
            return Ok(());
        }
        let place = place_of_file(rt, self.alloc, name)?;
        let _ = self.folders.settle(rt, folder_of(place.as_str()))?;
        let outcome = file.sync_all();
        self.is_lost = self.is_lost || outcome.is_err();
        outcome?;
        let _ = self.settled.insert(Text::of(self.alloc, name)?, ())?;
        Ok(())
    }

    // Opens a file for writing if it isn't, and says whether there is one.
    fn open_to_change(
        &mut self,
        rt: &(impl Files<File = File> + AllocGlobal),
        name: &str,
    ) -> io::Result<bool> {
        if !self.open(rt, name)? {
            return Ok(false);
        }
        if let Some(opened) = self.files.get(name) {
            if opened.is_writable {
                return Ok(true);
            }
        }
        self.folders.lock(rt, name)?;
        let file = OpenOptions::new().read(true).write(true).open(rt, name)?;
        if let Some(opened) = self.files.get_mut(name) {
            opened.file = file;
            opened.is_writable = true;
        }
        Ok(true)
    }

    // Opens a file for writing if it isn't, and makes a missing one, with its folders where they are
    // missing.
    fn open_or_make(
        &mut self,
        rt: &(impl Files<File = File> + AllocGlobal),
        name: &str,
    ) -> io::Result<()> {
        if self.open_to_change(rt, name)? {
            return Ok(());
        }
        let place = place_of_file(rt, self.alloc, name)?;
        self.folders.make(rt, folder_of(place.as_str()))?;
        self.folders.change(rt, place.as_str())?;
        let file = OpenOptions::new()
            .read(true)
            .write(true)
            .create_new(true)
            .open(rt, place.as_str())?;
        let _ = self.settled.insert(Text::of(self.alloc, name)?, ())?;
        self.keep(name, file, true)
    }

    // Keeps a file open. Where many are, it closes one.
    fn keep(&mut self, name: &str, file: File, is_writable: bool) -> io::Result<()> {
        if self.files.len() >= MOST_KEPT {
            self.close_one()?;
        }
        let name = Text::of(self.alloc, name)?;
        let opened = OpenedFile {
            file,
            is_writable,
            length: None,
            changed: Cell::new(false),
        };
        let _ = self.files.insert(name, opened)?;
        Ok(())
    }

    // Closes a file: one that didn't change since the last sync, or else one that is synced first.
    fn close_one(&mut self) -> io::Result<()> {
        let Some(name) = self.eviction_candidate()? else {
            return Ok(());
        };
        if let Some(opened) = self.files.get(name.as_str()) {
            let outcome = opened.sync();
            self.is_lost = self.is_lost || outcome.is_err();
            outcome?;
        }
        let _ = self.files.remove(name.as_str());
        Ok(())
    }

    fn eviction_candidate(&self) -> io::Result<Option<Text>> {
        let files = self.files.members();
        for (name, opened) in files {
            if !opened.changed.get() {
                return Ok(Some(name.copy()?));
            }
        }
        match files.first() {
            Some((name, _)) => Ok(Some(name.copy()?)),
            None => Ok(None),
        }
    }
}

// Whether something has this name, be it a link that leads nowhere.
fn is_there(rt: &impl Files<File = File>, name: &str) -> io::Result<bool> {
    match fs::symlink_metadata(rt, name) {
        Ok(_) => Ok(true),
        Err(error) if error.kind() == ErrorKind::NotFound => Ok(false),
        Err(error) => Err(error),
    }
}

/// Reads from a place of a file, as many bytes as stand there, up to the room.
pub fn read_from(file: &File, at: u64, into: &mut [u8]) -> io::Result<usize>
    ensures { IfOk result (λ n. n ≤ length into.old) }
{
    let mut count = 0;
    for _ in 0..u64::MAX {
        let place = at.saturating_add(count as u64);
        if count >= into.len() || place > i64::MAX as u64 {
            break;
        }
        match file.read_at(&mut into[count..], place) {
            Ok(0) => break,
            Ok(more) => count += more,
            Err(error) if error.kind() == ErrorKind::Interrupted => {}
            Err(error) => return Err(error),
        }
    }
    Ok(count)
}
