// An opening.
ghost use Rattle.std.specs.Prelude.{◌≡◌, IsTrue, IsErr, Err, IfOk, OnOk};
ghost use Rattle.io_traits.specs.Counts.{HasCause};
ghost use Rattle.io_traits.specs.Folders.{folder_start};
ghost use Rattle.io_traits.specs.Reads.{bytes_of};
ghost use Rattle.io_traits.specs.Moments.{EachMoment, NowOrSynced, ReadsBeside};
ghost use Rattle.slot_files.specs.Changes.{AllRest};
ghost use Rattle.io_traits.specs.declared.queue_faults.Damage.{Damage as DamageValue};
ghost use Rattle.io_traits.specs.declared.queue_faults.QueueFault.TheVariants as f;
ghost use Rattle.slot_files.specs.Contents.{damage};
ghost use Rattle.dead_letters.specs.Opening.{LeavesHeld};
ghost use Rattle.dead_letters.specs.Segments.{counted_in};
ghost use Rattle.dead_letters.specs.Views.{IsOwn};
ghost use Rattle.dead_letter_reader.specs.Names.{address_of, place_file};
ghost use Rattle.dead_letter_reader.specs.Opening.{AreAll, AreLeft, IsDamaged, LeavesQueue};
ghost use Rattle.dead_letter_reader.specs.Places.{Passes, Rise};
ghost use Rattle.dead_letter_reader.specs.Ready.{Says};

use crate::names::{address_of, place_file};
use crate::place::{place_in, rows_behind};
use dead_letters::{Counted, DeadLetters, DeadRows, read_segments};
use event_tree::Text;
use io_traits::{Damage, Failed, QueueFault, Store};
use settings_lines::Policy;
use std::alloc::Global;

/// What an opening finds.
#[derive(Drop)]
pub(crate) struct OpenedReader {
    pub(crate) address: Text,
    /// The file of the place up to which letters were answered.
    pub(crate) file: Text,
    /// What that file says.
    pub(crate) recorded: Counted,
    /// The letters behind that place.
    pub(crate) rows: DeadRows,
}

/// Opens the queue of a folder, and reads its letters and the place up to which they were answered.
pub(crate) fn open_folder<S: Store>(
    alloc: Global,
    store: &mut S,
    folder: &str,
) -> Result<OpenedReader, QueueFault>
    requires { folder_start folder.now ≡ folder.now }
    ensures names { IfOk result (λ o. (o.address ≡ address_of folder.now)
        × (o.file ≡ place_file folder.now)) }
    ensures left { IfOk result (λ o. IsTrue S.tells
        → AreLeft folder.now (S.seen store.old) o.rows) }
    ensures rise { IfOk result (λ o. IsTrue S.tells → Rise o.rows) }
    ensures passes { IfOk result (λ o. IsTrue S.tells → Passes o.rows 0 o.recorded) }
    ensures file { IfOk result (λ o. Says S.Store o.file o.recorded store.new) }
    ensures damaged { (damage : DamageValue) → result ≡ Err (f.Damaged damage) → IsTrue S.tells
        → IsDamaged folder.now (S.seen store.old) damage }
    ensures any_moment { EachMoment S.Store store.old store.new
        (LeavesQueue S.Store folder.now store.old) }
    ensures beside { ReadsBeside S.Store (IsOwn folder.now) store.old store.new }
    ensures cause { HasCause (S.faults store.old) (S.faults store.new) (result ≡ Err f.Fault) }
{
    let file = place_file(alloc, folder)?;
    let address = address_of(alloc, folder)?;
    let recorded = settle_and_read(store, file.as_str())?;
    match place_in(recorded) {
        Ok(place) => {
            let all = open_letters(alloc, store, folder)?;
            let rows = rows_behind(place, all)?;
            Ok(OpenedReader {
                address,
                file,
                recorded,
                rows,
            })
        }
        Err((found, expected)) => Err(damaged(file, found, expected)),
    }
}

// Settles all files, and reads what the file of the place says.
fn settle_and_read<S: Store>(store: &mut S, name: &str) -> Result<Counted, Failed>
    ensures counted { IfOk result (λ counted. IsTrue S.tells
        → counted ≡ counted_in (bytes_of (S.seen store.old name.now))) }
    ensures reads { IsTrue S.tells → S.seen store.new ≡ S.seen store.old }
    ensures settled { OnOk result (AllRest S.Store store.new) }
    ensures any_moment { EachMoment S.Store store.old store.new (NowOrSynced S.Store store.old) }
    ensures cause { HasCause (S.faults store.old) (S.faults store.new) (IsErr result) }
{
    store.sync()?;
    read_segments(store, name)
}

// Opens the queue of a folder, and reads its letters. Nothing is ever appended to it.
fn open_letters<S: Store>(
    alloc: Global,
    store: &mut S,
    folder: &str,
) -> Result<DeadRows, QueueFault>
    requires { folder_start folder.now ≡ folder.now }
    ensures all { IfOk result (λ rows. IsTrue S.tells
        → AreAll folder.now (S.seen store.old) rows) }
    ensures damaged { (damage : DamageValue) → result ≡ Err (f.Damaged damage) → IsTrue S.tells
        → IsDamaged folder.now (S.seen store.old) damage }
    ensures any_moment { EachMoment S.Store store.old store.new
        (LeavesHeld S.Store folder.now store.old) }
    ensures beside { ReadsBeside S.Store (IsOwn folder.now) store.old store.new }
    ensures cause { HasCause (S.faults store.old) (S.faults store.new) (result ≡ Err f.Fault) }
{
    let queue = DeadLetters::open_on(alloc, store, folder, u64::MAX, Policy::Hold)?;
    queue.rows(store)
}

// What stands in the file of the place in another way than it was written.
fn damaged(file: Text, found: u64, expected: u64) -> QueueFault
    ensures { result ≡ f.Damaged (damage file 0 found expected) }
{
    QueueFault::Damaged(Damage {
        file,
        place: 0,
        found,
        expected,
    })
}
