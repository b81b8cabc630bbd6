// An output file of a pipeline that is open, and the list of these by their paths.
ghost use Rattle.std.specs.Prelude.{◌≡◌, ◌≢◌, ◌⊎◌, ◌<◌, ◌≤◌, ◌++◌, IsTrue, IsErr, Ok, Err, None, IfOk, OnOk, OnErr, bytes_eq, is_some, take, vec_len, vec_capacity};
ghost use Rattle.io_traits.specs.Counts.{HasCause};
ghost use Rattle.io_traits.specs.Reads.{bytes_of, file_length};
ghost use Rattle.io_traits.specs.Moments.{EachMoment, ReadsBeside};
ghost use Rattle.io_traits.specs.declared.queue_faults.Damage.{Damage as DamageValue};
ghost use Rattle.io_traits.specs.declared.queue_faults.QueueFault.TheVariants as f;
ghost use Rattle.crc_frame.specs.Slots.{place_of as slot_place, next_turn};
ghost use Rattle.slot_files.specs.Views.{IsOwn};
ghost use Rattle.slot_files.specs.Contents.{counted_in};
ghost use Rattle.slot_files.specs.Outputs.{IsReady, IsAppended, AppendLeaves, LeavesHeld};
ghost use Rattle.line_outputs.specs.OpenFiles.{file_of, file_place, without, slot_in, IsFileOf};

use io_traits::{Failed, QueueFault, Store};
use plain_data::Text;
use slot_files::{OutFile, PositionOf, position_name};
use std::alloc::{AllocError, Global};
use std::marker::Model;

/// An output file that is open, with its path.
#[derive(Drop)]
pub(crate) struct OpenFile {
    path: Text,
    file: OutFile,
}

impl Model for OpenFile {
    ghost use Rattle.std.specs.Prelude.{◌≡◌};
    ghost use Rattle.slot_files.specs.Views.{Output};

    ghost Value = { Output };

    ghost view = { λ o. o.file };

    ghost invariant = { λ o. o.file.path ≡ o.path };
}

impl OpenFile {
    /// Opens the file of a path, with its position file in a folder.
    pub(crate) fn open_on<S: Store>(
        alloc: Global,
        store: &mut S,
        folder: &str,
        path: &str,
    ) -> Result<OpenFile, QueueFault>
        ensures names { IfOk result (λ out. (out.path ≡ path.now)
            × (out.slot ≡ slot_in folder.now path.now)) }
        ensures ready { IfOk result (λ out. path.now ≢ slot_in folder.now path.now
            → IsReady S.Store out store.new) }
        ensures content { IfOk result (λ out. IsTrue S.tells
            → path.now ≢ slot_in folder.now path.now → bytes_of (S.seen store.new path.now)
            ≡ take out.position (bytes_of (S.seen store.old path.now))) }
        ensures counted { IfOk result (λ out. IsTrue S.tells
            → counted_in path.now (slot_in folder.now path.now) (S.seen store.old)
            ≡ Ok out.position) }
        ensures damaged { (damage : DamageValue) → result ≡ Err (f.Damaged damage) → IsTrue S.tells
            → counted_in path.now (slot_in folder.now path.now) (S.seen store.old) ≡ Err damage }
        ensures any_moment { path.now ≢ slot_in folder.now path.now
            → EachMoment S.Store store.old store.new
            (LeavesHeld S.Store path.now (slot_in folder.now path.now) store.old) }
        ensures beside { ReadsBeside S.Store (IsFileOf folder.now path.now) store.old store.new }
        ensures memory { result ≡ Err f.Memory → store.new ≡ store.old }
        ensures cause { HasCause (S.faults store.old) (S.faults store.new) (result ≡ Err f.Fault) }
    {
        let slot = slot_in(alloc, folder, path)?;
        let own = Text::of(alloc, path)?;
        opened(alloc, store, own, slot.as_str())
    }

    /// Whether it is the file of a path.
    fn is_at(&self, path: &str) -> bool
        ensures { result ≡ bytes_eq path.now self.now.path }
    {
        path == self.path.as_str()
    }

    /// Appends a batch, as its file does.
    pub(crate) fn append_batch<S: Store>(
        &mut self,
        store: &mut S,
        bytes: &[u8],
    ) -> Result<(), Failed>
        requires { IsTrue S.tells → slot_place 24 (next_turn self.old.turn)
            ≤ file_length (S.seen store.old self.old.slot) }
        ensures names { (self.new.path ≡ self.old.path) × (self.new.slot ≡ self.old.slot) }
        ensures appended { OnOk result (IsReady S.Store self.old store.old
            → IsAppended S.Store self.old bytes.now store.old self.new store.new) }
        ensures any_moment { AppendLeaves S.Store self.old bytes.now store.old store.new }
        ensures beside { ReadsBeside S.Store (IsOwn self.old) store.old store.new }
        ensures cause { HasCause (S.faults store.old) (S.faults store.new) (IsErr result) }
    {
        self.file.append_batch(store, bytes)
    }
}

// The position file of a path, by its name in a folder.
fn slot_in(alloc: Global, folder: &str, path: &str) -> Result<Text, AllocError>
    ensures { IfOk result (λ slot. slot ≡ slot_in folder.now path.now) }
{
    let last = position_name(alloc, PositionOf::Output, path)?;
    let mut name = String::from_str(alloc, folder)?;
    name.push_str(last.as_str())?;
    Ok(Text::from_string(name))
}

// The file of a path, with a position file, opened.
fn opened<S: Store>(
    alloc: Global,
    store: &mut S,
    path: Text,
    slot: &str,
) -> Result<OpenFile, QueueFault>
    ensures names { IfOk result (λ out. (out.path ≡ path) × (out.slot ≡ slot.now)) }
    ensures ready { IfOk result (λ out. path ≢ slot.now → IsReady S.Store out store.new) }
    ensures content { IfOk result (λ out. IsTrue S.tells → path ≢ slot.now
        → bytes_of (S.seen store.new path)
        ≡ take out.position (bytes_of (S.seen store.old path))) }
    ensures counted { IfOk result (λ out. IsTrue S.tells
        → counted_in path slot.now (S.seen store.old) ≡ Ok out.position) }
    ensures damaged { (damage : DamageValue) → result ≡ Err (f.Damaged damage) → IsTrue S.tells
        → counted_in path slot.now (S.seen store.old) ≡ Err damage }
    ensures any_moment { path ≢ slot.now → EachMoment S.Store store.old store.new
        (LeavesHeld S.Store path slot.now store.old) }
    ensures beside { ReadsBeside S.Store (λ n. (n ≡ path) ⊎ (n ≡ slot.now)) store.old store.new }
    ensures memory { result ≡ Err f.Memory → store.new ≡ store.old }
    ensures cause { HasCause (S.faults store.old) (S.faults store.new) (result ≡ Err f.Fault) }
{
    let file = OutFile::open_on(alloc, store, path.as_str(), slot)?;
    Ok(OpenFile { path, file })
}

// The place of the file of a path, or the number of files.
fn place_of(files: &[OpenFile], path: &str) -> usize
    ensures { result ≡ file_place path.now files.now }
{
    for at in 0..files.len() {
        if files[at].is_at(path) {
            return at;
        }
    }
    files.len()
}

/// Whether the file of a path is among these.
pub(crate) fn is_open(files: &[OpenFile], path: &str) -> bool
    ensures { result ≡ is_some (file_of path.now files.now) }
{
    place_of(files, path) < files.len()
}

/// Takes the file of a path out; where there is none, makes room for one.
pub(crate) fn taken(files: &mut Vec<OpenFile>, path: &str) -> Result<Option<OpenFile>, AllocError>
    ensures file { IfOk result (λ file. file ≡ file_of path.now files.old.items) }
    ensures rest { OnOk result (files.new.items ≡ without path.now files.old.items) }
    ensures room { OnOk result (vec_len files.new < vec_capacity files.new) }
    ensures same { OnErr result (files.new.items ≡ files.old.items) }
    ensures none { OnErr result (file_of path.now files.old.items ≡ None) }
{
    let at = place_of(files.as_slice(), path);
    if at < files.len() {
        return Ok(Some(files.remove(at)));
    }
    files.reserve(1)?;
    Ok(None)
}
