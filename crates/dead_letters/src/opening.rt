// An opening.
ghost use Rattle.std.specs.Prelude.{◌≡◌, ◌⊎◌, IsTrue, IsErr, Ok, Err, IfOk, OnOk};
ghost use Rattle.io_traits.specs.Counts.{HasCause};
ghost use Rattle.io_traits.specs.Folders.{folder_start};
ghost use Rattle.io_traits.specs.Reads.{bytes_of};
ghost use Rattle.io_traits.specs.Moments.{EachMoment, NowOrSynced, ReadsBeside};
ghost use Rattle.io_traits.specs.declared.queue_faults.Damage.{Damage as DamageValue};
ghost use Rattle.io_traits.specs.declared.queue_faults.QueueFault.TheVariants as f;
ghost use Rattle.slot_files.specs.Changes.{AllRest};
ghost use Rattle.dead_letters.specs.Queues.{name_in, names, position, segment};
ghost use Rattle.dead_letters.specs.Segments.{AreOrdered, counted_in};
ghost use Rattle.dead_letters.specs.Found.{found};
ghost use Rattle.dead_letters.specs.Views.{IsOwn};
ghost use Rattle.dead_letters.specs.Opening.{LeavesHeld};
ghost use Rattle.dead_letters.specs.Trimming.{IsFirst, IsOpened, StaysHeld};
ghost use Rattle.dead_letters.specs.declared.segments.Counted.TheVariants.{Count, Nothing};

use crate::naming::{count_segments, read_segments};
use crate::queue::{position_name, segment_name, slot_name};
use crate::segments::{Counted, Segments};
use crate::trimming::{cut_back, damaged};
use event_tree::{Items, Text};
use io_traits::{Failed, QueueFault, Store};
use slot_files::OutFile;
use std::alloc::Global;

/// What a folder holds, once it is open.
#[derive(Drop)]
pub(crate) struct OpenedLetters {
    /// The turn of the slot that names the segments.
    pub(crate) turn: u64,
    /// The number of the oldest one.
    pub(crate) first: u32,
    /// How many bytes each one has.
    pub(crate) sizes: Items<u64>,
}

/// Opens a folder: syncs, removes the segments that don't count, cuts the last one to its length and syncs.
/// A folder of the first version, or a new one, has its one segment named before.
pub(crate) fn open_folder<S: Store>(
    alloc: Global,
    store: &mut S,
    folder: &str,
) -> Result<OpenedLetters, QueueFault>
    requires { folder_start folder.now ≡ folder.now }
    ensures opened { IfOk result (λ o. IsOpened S.Store folder.now o store.old store.new) }
    ensures damaged { (damage : DamageValue) → result ≡ Err (f.Damaged damage) → IsTrue S.tells
        → found folder.now (S.seen store.old) ≡ Err damage }
    ensures any_moment { EachMoment S.Store store.old store.new
        (LeavesHeld S.Store folder.now store.old) }
    ensures beside { ReadsBeside S.Store (IsOwn folder.now) store.old store.new }
    ensures memory { result ≡ Err f.Memory → IsTrue S.tells
        → found folder.now (S.seen store.new) ≡ found folder.now (S.seen store.old) }
    ensures cause { HasCause (S.faults store.old) (S.faults store.new) (result ≡ Err f.Fault) }
{
    let slot = slot_name(alloc, folder)?;
    let counted = settle_and_read(store, slot.as_str())?;
    open_settled(alloc, store, folder, slot, counted)
}

// Settles all files, and reads which segments count.
fn settle_and_read<S: Store>(store: &mut S, slot: &str) -> Result<Counted, Failed>
    ensures counted { IfOk result (λ counted. IsTrue S.tells
        → counted ≡ counted_in (bytes_of (S.seen store.old slot.now))) }
    ensures order { IfOk result AreOrdered }
    ensures reads { IsTrue S.tells → S.seen store.new ≡ S.seen store.old }
    ensures settled { OnOk result (AllRest S.Store store.new) }
    ensures any_moment { EachMoment S.Store store.old store.new (NowOrSynced S.Store store.old) }
    ensures cause { HasCause (S.faults store.old) (S.faults store.new) (IsErr result) }
{
    store.sync()?;
    read_segments(store, slot)
}

// Opens a folder at rest, by what the file of this name says of its segments.
fn open_settled<S: Store>(
    alloc: Global,
    store: &mut S,
    folder: &str,
    slot: Text,
    counted: Counted,
) -> Result<OpenedLetters, QueueFault>
    requires start { folder_start folder.now ≡ folder.now }
    requires slot { slot ≡ name_in folder.now names }
    requires order { AreOrdered counted }
    requires counted { IsTrue S.tells
        → counted ≡ counted_in (bytes_of (S.seen store.old (name_in folder.now names))) }
    requires rests { AllRest S.Store store.old }
    ensures opened { IfOk result (λ o. IsOpened S.Store folder.now o store.old store.new) }
    ensures damaged { (damage : DamageValue) → result ≡ Err (f.Damaged damage) → IsTrue S.tells
        → found folder.now (S.seen store.old) ≡ Err damage }
    ensures any_moment { EachMoment S.Store store.old store.new
        (StaysHeld S.Store folder.now store.old) }
    ensures beside { ReadsBeside S.Store (IsOwn folder.now) store.old store.new }
    ensures memory { result ≡ Err f.Memory → IsTrue S.tells
        → found folder.now (S.seen store.new) ≡ found folder.now (S.seen store.old) }
    ensures cause { HasCause (S.faults store.old) (S.faults store.new) (result ≡ Err f.Fault) }
{
    match counted {
        Counted::Nothing => {
            let segments = begin(alloc, store, folder, slot.as_str())?;
            cut_back(alloc, store, folder, 0, segments)
        }
        Counted::Count(turn, segments) => cut_back(alloc, store, folder, turn, segments),
        Counted::Damaged(found, expected) => Err(damaged(slot, 0, found, expected)),
    }
}

// Names the one segment of a folder of the first version, or of a new one.
fn begin<S: Store>(
    alloc: Global,
    store: &mut S,
    folder: &str,
    slot: &str,
) -> Result<Segments, QueueFault>
    requires slot { slot.now ≡ name_in folder.now names }
    requires nothing { IsTrue S.tells
        → counted_in (bytes_of (S.seen store.old (name_in folder.now names))) ≡ Nothing }
    requires rests { AllRest S.Store store.old }
    ensures segments { IfOk result (λ s. (s.first ≡ 0) × (s.last ≡ 0)) }
    ensures settled { OnOk result (AllRest S.Store store.new) }
    ensures counted { IfOk result (λ s. IsTrue S.tells
        → counted_in (bytes_of (S.seen store.new (name_in folder.now names))) ≡ Count 0 s) }
    ensures found { OnOk result (IsTrue S.tells
        → found folder.now (S.seen store.new) ≡ found folder.now (S.seen store.old)) }
    ensures damaged { (damage : DamageValue) → result ≡ Err (f.Damaged damage) → IsTrue S.tells
        → found folder.now (S.seen store.old) ≡ Err damage }
    ensures any_moment { EachMoment S.Store store.old store.new
        (StaysHeld S.Store folder.now store.old) }
    ensures beside { ReadsBeside S.Store (IsOwn folder.now) store.old store.new }
    ensures memory { result ≡ Err f.Memory → IsTrue S.tells
        → found folder.now (S.seen store.new) ≡ found folder.now (S.seen store.old) }
    ensures cause { HasCause (S.faults store.old) (S.faults store.new) (result ≡ Err f.Fault) }
{
    let length = first_length(alloc, store, folder)?;
    let segments = Segments {
        first: 0,
        last: 0,
        length,
    };
    count_segments(store, slot, 0, segments)?;
    Ok(segments)
}

// Opens the one segment of a folder of the first version, or of a new one, as output files are opened, and
// gives the length that it has then.
fn first_length<S: Store>(alloc: Global, store: &mut S, folder: &str) -> Result<u64, QueueFault>
    requires nothing { IsTrue S.tells
        → counted_in (bytes_of (S.seen store.old (name_in folder.now names))) ≡ Nothing }
    requires rests { AllRest S.Store store.old }
    ensures first { IfOk result (λ len. IsTrue S.tells
        → IsFirst folder.now len (S.seen store.old) (S.seen store.new)) }
    ensures settled { OnOk result (AllRest S.Store store.new) }
    ensures damaged { (damage : DamageValue) → result ≡ Err (f.Damaged damage) → IsTrue S.tells
        → found folder.now (S.seen store.old) ≡ Err damage }
    ensures any_moment { EachMoment S.Store store.old store.new
        (StaysHeld S.Store folder.now store.old) }
    ensures beside { ReadsBeside S.Store (λ n. (n ≡ name_in folder.now (segment 0))
        ⊎ (n ≡ name_in folder.now position)) store.old store.new }
    ensures memory { result ≡ Err f.Memory → IsTrue S.tells → S.seen store.new ≡ S.seen store.old }
    ensures cause { HasCause (S.faults store.old) (S.faults store.new) (result ≡ Err f.Fault) }
{
    let name = segment_name(alloc, folder, 0)?;
    let position = position_name(alloc, folder)?;
    let _file = OutFile::open_on(alloc, store, name.as_str(), position.as_str())?;
    let length = store.length(name.as_str())?.unwrap_or(0);
    Ok(length)
}
