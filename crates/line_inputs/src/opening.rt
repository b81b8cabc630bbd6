// The opening of the files that one input watches.
ghost use Rattle.std.specs.Prelude.{◌≡◌, ◌++◌, ◌∷◌, ℕ, List, [], Err, IsTrue, IfOk, OnOk, OnErr};
ghost use Rattle.std.specs.List.{list_any};
ghost use Rattle.std.specs.Str.{bytes_eq};
ghost use Rattle.io_traits.specs.Counts.{HasCause};
ghost use Rattle.io_traits.specs.Moments.{EachMoment, NowOrSynced};
ghost use Rattle.io_traits.specs.Reads.{bytes_of};
ghost use Rattle.io_traits.specs.declared.queue_faults.Damage.{Damage as DamageValue};
ghost use Rattle.slot_files.specs.Positions.{recorded_in};
ghost use Rattle.in_file.specs.Openings.{IsDamaged};
ghost use Rattle.in_file.specs.declared.faults.OpenFault.TheVariants as o;
ghost use Rattle.line_inputs.specs.Positions.{AreReady};
ghost use Rattle.line_inputs.specs.Openings as spec;

use crate::watched::WatchedFiles;
use crate::watched_file::WatchedFile;
use in_file::{FileInput, FilePlan, OpenFault, watched_paths};
use io_traits::{Files, ListFault, Store};
use plain_data::{Names, Text};
use slot_files::{PositionOf, position_name};
use std::alloc::{AllocError, Global};

/// The name of the position file of a path, in a folder whose path ends with a slash.
pub fn position_path(alloc: Global, folder: &str, path: &str) -> Result<Text, AllocError>
    ensures { IfOk result (λ slot. slot ≡ spec.position_path folder.now path.now) }
{
    let name = position_name(alloc, PositionOf::Input, path)?;
    let mut slot = String::from_str(alloc, folder)?;
    slot.push_str(name.as_str())?;
    Ok(Text::from_string(slot))
}

/// Opens the files that an input of this path watches, beside those that earlier inputs of its pipeline do, which they join, as
/// [`watched_paths`](in_file::watched_paths) has them, each with its position file in the folder, whose path ends with a slash.
///
/// `Memory` may come before or behind any call. Behind an error they can be opened again.
pub fn open_files<S: Store, F: Files>(
    alloc: Global,
    store: &mut S,
    files: &mut F,
    folder: &str,
    path: &str,
    plan: FilePlan,
    earlier: &mut Names,
) -> Result<WatchedFiles, OpenFault>
    ensures paths { IfOk result (λ w. spec.AreOfPath F.Files folder.now path.now earlier.old
        earlier.new files.old w.files) }
    ensures earlier { OnErr result (spec.BeginsWith earlier.old earlier.new) }
    ensures open { IfOk result (λ w.
        spec.AreOpen S.Store F.Files folder.now plan store.old w.files) }
    ensures at { IfOk result (λ w. w.at ≡ 0) }
    ensures ready { IfOk result (λ w. AreReady S.Store w.files store.new) }
    ensures damaged { (damage : DamageValue) → result ≡ Err (o.Damaged damage) → IsTrue S.tells
        → IsDamaged damage.file (recorded_in (bytes_of (S.seen store.old damage.file))) damage }
    ensures reads { IsTrue S.tells → S.seen store.new ≡ S.seen store.old }
    ensures any_moment { EachMoment S.Store store.old store.new (NowOrSynced S.Store store.old) }
    ensures store_cause { HasCause (S.faults store.old) (S.faults store.new)
        (result ≡ Err o.Store) }
    ensures files_cause { HasCause (F.faults files.old) (F.faults files.new)
        (result ≡ Err o.Files) }
{
    let paths = match watched_paths(alloc, files, path, earlier.as_slice()) {
        Ok(paths) => paths,
        Err(ListFault::Failed) => return Err(OpenFault::Files),
        Err(ListFault::Memory) => return Err(OpenFault::Memory),
    };
    let opened = open_each(alloc, store, files, folder, paths.as_slice(), plan)?;
    match append_paths(earlier, paths.as_slice()) {
        Ok(()) => Ok(WatchedFiles::of(opened)),
        Err(_) => Err(OpenFault::Memory),
    }
}

// Appends paths to some.
fn append_paths(to: &mut Names, paths: &[Text]) -> Result<(), AllocError>
    ensures ok { OnOk result (to.new ≡ to.old ++ paths.now) }
    ensures err { OnErr result (spec.BeginsWith to.old to.new) }
{
    for place in 0..paths.len() {
        to.push(paths[place].copy()?)?;
    }
    Ok(())
}

// Opens the files of these paths.
fn open_each<S: Store, F: Files>(
    alloc: Global,
    store: &mut S,
    files: &mut F,
    folder: &str,
    paths: &[Text],
    plan: FilePlan,
) -> Result<Vec<WatchedFile>, OpenFault>
    ensures paths { IfOk result (λ opened.
        spec.paths_of opened.items ≡ spec.untaken folder.now [] paths.now) }
    ensures open { IfOk result (λ opened.
        spec.AreOpen S.Store F.Files folder.now plan store.old opened.items) }
    ensures ready { IfOk result (λ opened. AreReady S.Store opened.items store.new) }
    ensures damaged { (damage : DamageValue) → result ≡ Err (o.Damaged damage) → IsTrue S.tells
        → IsDamaged damage.file (recorded_in (bytes_of (S.seen store.old damage.file))) damage }
    ensures reads { IsTrue S.tells → S.seen store.new ≡ S.seen store.old }
    ensures any_moment { EachMoment S.Store store.old store.new (NowOrSynced S.Store store.old) }
    ensures store_cause { HasCause (S.faults store.old) (S.faults store.new)
        (result ≡ Err o.Store) }
    ensures files_cause { HasCause (F.faults files.old) (F.faults files.new)
        (result ≡ Err o.Files) }
{
    let mut opened = Vec::new(alloc);
    let mut slots = Names::new(alloc);
    for place in 0..paths.len() {
        let path = paths[place].as_str();
        open_one(
            alloc,
            store,
            files,
            folder,
            path,
            plan,
            &mut slots,
            &mut opened,
        )?;
    }
    Ok(opened)
}

// Opens the file of a path, unless its position file is that of one which is open.
fn open_one<S: Store, F: Files>(
    alloc: Global,
    store: &mut S,
    files: &mut F,
    folder: &str,
    path: &str,
    plan: FilePlan,
    slots: &mut Names,
    opened: &mut Vec<WatchedFile>,
) -> Result<(), OpenFault>
    requires ready { AreReady S.Store opened.old.items store.old }
    requires slots { slots.old ≡ spec.slots_of opened.old.items }
    ensures slots { OnOk result (slots.new ≡ spec.slots_of opened.new.items) }
    ensures paths { OnOk result ((rest : List (List ℕ)) → spec.paths_of opened.new.items
        ++ spec.untaken folder.now slots.new rest
        ≡ spec.paths_of opened.old.items ++ spec.untaken folder.now slots.old (path.now ∷ rest)) }
    ensures opened { OnOk result (spec.OpensOne S.Store F.Files folder.now plan store.old
        opened.old.items opened.new.items) }
    ensures ready { OnOk result (AreReady S.Store opened.new.items store.new) }
    ensures damaged { (damage : DamageValue) → result ≡ Err (o.Damaged damage) → IsTrue S.tells
        → IsDamaged damage.file (recorded_in (bytes_of (S.seen store.old damage.file))) damage }
    ensures reads { IsTrue S.tells → S.seen store.new ≡ S.seen store.old }
    ensures any_moment { EachMoment S.Store store.old store.new (NowOrSynced S.Store store.old) }
    ensures store_cause { HasCause (S.faults store.old) (S.faults store.new)
        (result ≡ Err o.Store) }
    ensures files_cause { HasCause (F.faults files.old) (F.faults files.new)
        (result ≡ Err o.Files) }
{
    let Ok(slot) = position_path(alloc, folder, path) else {
        return Err(OpenFault::Memory);
    };
    if is_taken(slot.as_str(), slots.as_slice()) {
        return Ok(());
    }
    if opened.reserve(1).is_err() {
        return Err(OpenFault::Memory);
    }
    let input = FileInput::open_on(alloc, store, files, path, slot.as_str(), plan)?;
    if slots.push(slot).is_err() {
        return Err(OpenFault::Memory);
    }
    opened.push_reserved(WatchedFile::new(alloc, input));
    Ok(())
}

fn is_taken(slot: &str, slots: &[Text]) -> bool
    ensures { result ≡ list_any (bytes_eq slot.now) slots.now }
{
    for at in 0..slots.len() {
        if slot == slots[at].as_str() {
            return true;
        }
    }
    false
}
