// The output files of a pipeline, one for each path, each opened at its first delivery.
ghost use Rattle.std.specs.Prelude.{◌≡◌, IsTrue, Ok, Err, None, Some, IfOk, OnOk, OnErr, is_some, vec_len, vec_capacity, take, ◌<◌, []};
ghost use Rattle.io_traits.specs.Counts.{HasCause};
ghost use Rattle.io_traits.specs.Reads.{bytes_of};
ghost use Rattle.io_traits.specs.Moments.{EachMoment, ReadsBeside};
ghost use Rattle.io_traits.specs.declared.queue_faults.Damage.{Damage as DamageValue};
ghost use Rattle.io_traits.specs.declared.queue_faults.QueueFault.TheVariants as f;
ghost use Rattle.slot_files.specs.Contents.{counted_in};
ghost use Rattle.slot_files.specs.Outputs.{LeavesHeld};
ghost use Rattle.line_outputs.specs.OpenFiles.{FilesReady, EachReady, IsFileReady, IsDelivered, IsFileOf, IsOutside, LeavesDelivered, SameOthers, file_of, slot_in, without};

use crate::open_file::{OpenFile, is_open, taken};
use io_traits::{QueueFault, Store};
use plain_data::Text;
use std::alloc::{AllocError, Global};
use std::marker::Model;

/// The output files of a pipeline: one for each path, whichever configurations of the pipeline name it. Each
/// has its position file in the folder of the pipeline.
#[derive(Drop)]
pub struct OutputFiles {
    /// The path of the folder, which ends with a slash.
    folder: Text,
    files: Vec<OpenFile>,
}

impl Model for OutputFiles {
    ghost use Rattle.line_outputs.specs.OpenFiles.{OpenFiles};

    ghost Value = { OpenFiles };

    ghost view = { λ outputs. record {
      folder = outputs.folder;
      files = outputs.files.items;
    } };
}

impl OutputFiles {
    /// No file is open yet. The path of the folder ends with a slash.
    ///
    /// An error is want of memory.
    pub fn new(alloc: Global, folder: &str) -> Result<OutputFiles, AllocError>
        ensures { IfOk result (λ o. o ≡ record { folder = folder.now; files = [] }) }
    {
        Ok(OutputFiles {
            folder: Text::of(alloc, folder)?,
            files: Vec::new(alloc),
        })
    }

    /// Whether the file of a path is open.
    pub fn is_open(&self, path: &str) -> bool
        ensures { result ≡ is_some (file_of path.now self.now.files) }
    {
        is_open(self.files.as_slice(), path)
    }

    /// Appends bytes to the file of a path, and records how much of it counts then; both are settled before
    /// it answers. A file that isn't open is opened before, and cut back to what is recorded of it.
    ///
    /// Behind an error the file of this path isn't open, and the next append opens it again; all others
    /// are as they were. `Fault` is a call of the store that failed; `Damaged` comes only where the file isn't
    /// open, and says in which way it, or its position file, stands there; `Memory` comes only where it
    /// isn't open, and before the first call of the store.
    pub fn append<S: Store>(
        &mut self,
        store: &mut S,
        path: &str,
        bytes: &[u8],
    ) -> Result<(), QueueFault>
        requires ready { FilesReady S.Store self.old store.old }
        requires outside { IsOutside self.old.folder path.now }
        ensures folder { self.new.folder ≡ self.old.folder }
        ensures ready { FilesReady S.Store self.new store.new }
        ensures delivered { OnOk result (IsDelivered S.Store self.old.folder path.now bytes.now
            self.old.files store.old self.new.files store.new) }
        ensures err { OnErr result (self.new.files ≡ without path.now self.old.files) }
        ensures closed { OnErr result (file_of path.now self.new.files ≡ None) }
        ensures others { SameOthers path.now self.old.files self.new.files }

        // Only an opening finds a damage, or no memory.
        ensures damaged { (damage : DamageValue) → result ≡ Err (f.Damaged damage)
            → (file_of path.now self.old.files ≡ None) × (IsTrue S.tells
            → counted_in path.now (slot_in self.old.folder path.now) (S.seen store.old)
            ≡ Err damage) }
        ensures memory { result ≡ Err f.Memory → (file_of path.now self.old.files ≡ None)
            × (store.new ≡ store.old) }

        ensures any_moment { EachMoment S.Store store.old store.new
            (LeavesDelivered S.Store self.old.folder path.now bytes.now store.old) }
        ensures beside { ReadsBeside S.Store (IsFileOf self.old.folder path.now) store.old
            store.new }
        ensures cause { HasCause (S.faults store.old) (S.faults store.new) (result ≡ Err f.Fault) }
    {
        append_to(&mut self.files, store, self.folder.as_str(), path, bytes)
    }
}

// Appends bytes to the file of a path, which is opened before where it isn't open.
fn append_to<S: Store>(
    files: &mut Vec<OpenFile>,
    store: &mut S,
    folder: &str,
    path: &str,
    bytes: &[u8],
) -> Result<(), QueueFault>
    requires ready { EachReady S.Store folder.now files.old.items store.old }
    requires outside { IsOutside folder.now path.now }
    ensures ready { EachReady S.Store folder.now files.new.items store.new }
    ensures delivered { OnOk result (IsDelivered S.Store folder.now path.now bytes.now
        files.old.items store.old files.new.items store.new) }
    ensures err { OnErr result (files.new.items ≡ without path.now files.old.items) }
    ensures closed { OnErr result (file_of path.now files.new.items ≡ None) }
    ensures others { SameOthers path.now files.old.items files.new.items }
    ensures damaged { (damage : DamageValue) → result ≡ Err (f.Damaged damage)
        → (file_of path.now files.old.items ≡ None) × (IsTrue S.tells
        → counted_in path.now (slot_in folder.now path.now) (S.seen store.old) ≡ Err damage) }
    ensures memory { result ≡ Err f.Memory → (file_of path.now files.old.items ≡ None)
        × (store.new ≡ store.old) }
    ensures any_moment { EachMoment S.Store store.old store.new
        (LeavesDelivered S.Store folder.now path.now bytes.now store.old) }
    ensures beside { ReadsBeside S.Store (IsFileOf folder.now path.now) store.old store.new }
    ensures cause { HasCause (S.faults store.old) (S.faults store.new) (result ≡ Err f.Fault) }
{
    let mut file = found(files, store, folder, path)?;
    file.append_batch(store, bytes)?;
    files.push_reserved(file);
    Ok(())
}

// Takes the file of a path out of those that are open, or opens it; there is room to put it back.
fn found<S: Store>(
    files: &mut Vec<OpenFile>,
    store: &mut S,
    folder: &str,
    path: &str,
) -> Result<OpenFile, QueueFault>
    requires ready { EachReady S.Store folder.now files.old.items store.old }
    requires outside { IsOutside folder.now path.now }
    ensures path { IfOk result (λ file. file.path ≡ path.now) }
    ensures file { IfOk result (λ file. IsFileReady S.Store folder.now file store.new) }
    ensures counted { IfOk result (λ file. IsTrue S.tells
        → counted_in path.now (slot_in folder.now path.now) (S.seen store.old)
        ≡ Ok file.position) }
    ensures content { IfOk result (λ file. IsTrue S.tells → bytes_of (S.seen store.new path.now)
        ≡ take file.position (bytes_of (S.seen store.old path.now))) }
    ensures files { files.new.items ≡ without path.now files.old.items }
    ensures gone { file_of path.now files.new.items ≡ None }
    ensures room { OnOk result (vec_len files.new < vec_capacity files.new) }
    ensures none { OnErr result (file_of path.now files.old.items ≡ None) }
    ensures damaged { (damage : DamageValue) → result ≡ Err (f.Damaged damage) → IsTrue S.tells
        → counted_in path.now (slot_in folder.now path.now) (S.seen store.old) ≡ Err damage }
    ensures memory { result ≡ Err f.Memory → store.new ≡ store.old }
    ensures any_moment { EachMoment S.Store store.old store.new
        (LeavesHeld S.Store path.now (slot_in folder.now path.now) store.old) }
    ensures beside { ReadsBeside S.Store (IsFileOf folder.now path.now) store.old store.new }
    ensures cause { HasCause (S.faults store.old) (S.faults store.new) (result ≡ Err f.Fault) }
{
    let alloc = *files.allocator();
    match taken(files, path)? {
        Some(file) => Ok(file),
        None => OpenFile::open_on(alloc, store, folder, path),
    }
}
