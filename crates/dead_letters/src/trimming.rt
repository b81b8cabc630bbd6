// What does not count of a folder is removed and cut.
ghost use Rattle.std.specs.Prelude.{◌≡◌, ◌≤◌, ◌⊎◌, ◌+◌, ◌-◌, ◌^◌, IsTrue, IsErr, Err, Contains, length, map, IfErr, IfOk, OnOk};
ghost use Rattle.io_traits.specs.Counts.{HasCause};
ghost use Rattle.io_traits.specs.Folders.{folder_start};
ghost use Rattle.io_traits.specs.Reads.{bytes_of, file_length};
ghost use Rattle.io_traits.specs.Calls.{ChangesNothing};
ghost use Rattle.io_traits.specs.Moments.{EachMoment, ReadsBeside};
ghost use Rattle.io_traits.specs.declared.queue_faults.Damage.{Damage as DamageValue};
ghost use Rattle.io_traits.specs.declared.queue_faults.QueueFault.TheVariants as f;
ghost use Rattle.slot_files.specs.Changes.{AllRest};
ghost use Rattle.dead_letters.specs.Queues.{name_in, names, segment};
ghost use Rattle.dead_letters.specs.Segments.{counted_in};
ghost use Rattle.dead_letters.specs.Found.{IsNoDamage, bytes_in, found, held_by};
ghost use Rattle.dead_letters.specs.Ready.{files_from};
ghost use Rattle.dead_letters.specs.Views.{IsOwn};
ghost use Rattle.dead_letters.specs.Trimming.{IsCut, IsExcess, IsOpened, StaysHeld, Trims, sizes_cut};
ghost use Rattle.dead_letters.specs.declared.segments.Counted.TheVariants.{Count};

use crate::listing::others;
use crate::opening::OpenedLetters;
use crate::queue::segment_name;
use crate::segments::Segments;
use event_tree::{Items, Text};
use io_traits::{Damage, Failed, QueueFault, Store};
use slot_files::{cut_settled, remove_each};
use std::alloc::Global;

/// What does not count of a folder.
#[derive(Drop)]
pub(crate) struct Excess {
    /// The files of segments that are none of those which count.
    pub(crate) gone: Vec<Text>,
    /// The file of the last segment, which may be longer than what counts of it.
    pub(crate) last: Text,
}

/// Cuts a folder at rest back to these segments, which its slot of this turn names.
pub(crate) fn cut_back<S: Store>(
    alloc: Global,
    store: &mut S,
    folder: &str,
    turn: u64,
    segments: Segments,
) -> Result<OpenedLetters, QueueFault>
    requires start { folder_start folder.now ≡ folder.now }
    requires order { segments.first ≤ segments.last }
    requires counted { IsTrue S.tells
        → counted_in (bytes_of (S.seen store.old (name_in folder.now names))) ≡ Count turn segments }
    requires rests { AllRest S.Store store.old }
    ensures opened { IfOk result (λ o. IsOpened S.Store folder.now o store.old store.new) }
    ensures damaged { (damage : DamageValue) → result ≡ Err (f.Damaged damage) → IsTrue S.tells
        → found folder.now (S.seen store.old) ≡ Err damage }
    ensures any_moment { EachMoment S.Store store.old store.new
        (StaysHeld S.Store folder.now store.old) }
    ensures beside { ReadsBeside S.Store (IsOwn folder.now) store.old store.new }
    ensures memory { result ≡ Err f.Memory → IsTrue S.tells → S.seen store.new ≡ S.seen store.old }
    ensures cause { HasCause (S.faults store.old) (S.faults store.new) (result ≡ Err f.Fault) }
{
    let excess = excess_in(alloc, store, folder, segments)?;
    let sizes = sizes_of(alloc, store, folder, segments)?;
    trim(store, &excess.gone, excess.last.as_str(), segments.length)?;
    Ok(OpenedLetters {
        turn,
        first: segments.first,
        sizes,
    })
}

// What does not count of a folder beside these segments. The last one is damaged where it is shorter than
// its length.
fn excess_in<S: Store>(
    alloc: Global,
    store: &mut S,
    folder: &str,
    segments: Segments,
) -> Result<Excess, QueueFault>
    requires { folder_start folder.now ≡ folder.now }
    ensures excess { IfOk result (λ e. IsExcess folder.now segments S.tells (S.seen store.old) e) }
    ensures damaged { (damage : DamageValue) → result ≡ Err (f.Damaged damage) → IsTrue S.tells
        → held_by folder.now (S.seen store.old) segments ≡ Err damage }
    ensures same { ChangesNothing S.tells S.seen S.moment S.may_leave store.old store.new }
    ensures cause { HasCause (S.faults store.old) (S.faults store.new) (result ≡ Err f.Fault) }
{
    let last = segment_name(alloc, folder, segments.last)?;
    let length = store.length(last.as_str())?.unwrap_or(0);
    if length < segments.length {
        return Err(damaged(last, length, length, segments.length));
    }
    let parts = store.list(alloc, folder)?;
    let gone = others(alloc, folder, parts.as_slice(), segments)?;
    Ok(Excess { gone, last })
}

// Removes files and cuts another one, and then settles all.
fn trim<S: Store>(store: &mut S, gone: &[Text], last: &str, length: u64) -> Result<(), Failed>
    requires apart { Contains gone.now last.now → ⊥ }
    requires long { IsTrue S.tells → length ≤ file_length (S.seen store.old last.now) }
    ensures settled { OnOk result (AllRest S.Store store.new) }
    ensures cut { OnOk result (IsTrue S.tells
        → IsCut gone.now last.now length (S.seen store.old) (S.seen store.new)) }
    ensures any_moment { AllRest S.Store store.old → EachMoment S.Store store.old store.new
        (Trims S.Store gone.now last.now length store.old) }
    ensures beside { ReadsBeside S.Store (λ n. Contains gone.now n ⊎ (n ≡ last.now)) store.old
        store.new }
    ensures cause { HasCause (S.faults store.old) (S.faults store.new) (IsErr result) }
{
    remove_each(store, gone)?;
    cut_settled(store, last, length)
}

// How many bytes each of these segments has, the last one its length.
fn sizes_of<S: Store>(
    alloc: Global,
    store: &mut S,
    folder: &str,
    segments: Segments,
) -> Result<Items<u64>, QueueFault>
    requires { segments.first ≤ segments.last }
    ensures count { IfOk result (λ sizes. length sizes ≡ segments.last - segments.first + 1) }
    ensures sizes { IfOk result (λ sizes. IsTrue S.tells
        → sizes ≡ sizes_cut folder.now (S.seen store.old) segments) }
    ensures fault { IfErr result IsNoDamage }
    ensures same { ChangesNothing S.tells S.seen S.moment S.may_leave store.old store.new }
    ensures cause { HasCause (S.faults store.old) (S.faults store.new) (result ≡ Err f.Fault) }
{
    let before = u64::from(segments.last - segments.first);
    let mut sizes = sizes_from(alloc, store, folder, segments.first, before)?;
    sizes.push(segments.length)?;
    Ok(sizes)
}

// How many bytes so many segments have, from a number on.
fn sizes_from<S: Store>(
    alloc: Global,
    store: &mut S,
    folder: &str,
    first: u32,
    count: u64,
) -> Result<Items<u64>, QueueFault>
    requires { first + count ≤ 2 ^ 32 }
    ensures count { IfOk result (λ sizes. length sizes ≡ count) }
    ensures sizes { IfOk result (λ sizes. IsTrue S.tells
        → sizes ≡ map length (files_from folder.now (S.seen store.old) first count)) }
    ensures fault { IfErr result IsNoDamage }
    ensures same { ChangesNothing S.tells S.seen S.moment S.may_leave store.old store.new }
    ensures cause { HasCause (S.faults store.old) (S.faults store.new) (result ≡ Err f.Fault) }
{
    let mut sizes = Items::new(alloc);
    for place in 0..count {
        match size_of_segment(alloc, store, folder, first + place as u32) {
            Ok(size) => match sizes.push(size) {
                Ok(()) => {}
                Err(_) => return Err(QueueFault::Memory),
            },
            Err(fault) => return Err(fault),
        }
    }
    Ok(sizes)
}

// How many bytes a segment has. A missing one has none.
fn size_of_segment<S: Store>(
    alloc: Global,
    store: &mut S,
    folder: &str,
    number: u32,
) -> Result<u64, QueueFault>
    ensures size { IfOk result (λ size. IsTrue S.tells
        → size ≡ length (bytes_in folder.now (S.seen store.old) number)) }
    ensures fault { IfErr result IsNoDamage }
    ensures same { ChangesNothing S.tells S.seen S.moment S.may_leave store.old store.new }
    ensures cause { HasCause (S.faults store.old) (S.faults store.new) (result ≡ Err f.Fault) }
{
    let name = segment_name(alloc, folder, number)?;
    let size = store.length(name.as_str())?.unwrap_or(0);
    Ok(size)
}

/// A file that is damaged at a place.
pub(crate) fn damaged(file: Text, place: u64, found: u64, expected: u64) -> QueueFault
    ensures { result ≡ f.Damaged
        (record { file = file; place = place; found = found; expected = expected }) }
{
    QueueFault::Damaged(Damage {
        file,
        place,
        found,
        expected,
    })
}
