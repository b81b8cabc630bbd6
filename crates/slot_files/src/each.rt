// Appending to several files and removing several files.
ghost use Rattle.std.specs.Prelude.{◌≡◌, ◌≤◌, List, ℕ, IsTrue, IsErr, Contains, length, OnOk};
ghost use Rattle.std.specs.List.{sum};
ghost use Rattle.io_traits.specs.Counts.{HasCause};
ghost use Rattle.io_traits.specs.Moments.{EachMoment, ReadsBeside};
ghost use Rattle.slot_files.specs.Changes.{AllRest};
ghost use Rattle.slot_files.specs.Each.{AltersEach, GoneOrSame, Grows, KeepsBytes, laid, without};

use io_traits::{Failed, Store};
use plain_data::Text;

/// Appends to each file of these names so many of the bytes, one part behind the other, and settles all
/// files. A missing file is made.
///
/// A stop at any moment leaves of each of them the bytes that it had, if it was at rest.
pub fn append_each<S: Store>(
    store: &mut S,
    names: &[Text],
    sizes: &[u64],
    bytes: &[u8],
) -> Result<(), Failed>
    requires each { length sizes.now ≡ length names.now }
    requires within { sum sizes.now ≤ length bytes.now }
    ensures laid { OnOk result (IsTrue S.tells → (name : List ℕ)
        → S.seen store.new name ≡ laid names.now sizes.now bytes.now (S.seen store.old) name) }
    ensures settled { OnOk result (AllRest S.Store store.new) }
    ensures any_moment { EachMoment S.Store store.old store.new
        (AltersEach S.Store names.now (KeepsBytes (S.seen store.old)) store.old) }
    ensures beside { ReadsBeside S.Store (Contains names.now) store.old store.new }
    ensures cause { HasCause (S.faults store.old) (S.faults store.new) (IsErr result) }
{
    append_parts(store, names, sizes, bytes)?;
    store.sync()
}

// The appends of these, of which nothing is settled.
fn append_parts<S: Store>(
    store: &mut S,
    names: &[Text],
    sizes: &[u64],
    bytes: &[u8],
) -> Result<(), Failed>
    requires each { length sizes.now ≡ length names.now }
    requires within { sum sizes.now ≤ length bytes.now }
    ensures laid { OnOk result (IsTrue S.tells → (name : List ℕ)
        → S.seen store.new name ≡ laid names.now sizes.now bytes.now (S.seen store.old) name) }
    ensures grows { OnOk result (Grows S.Store names.now store.old store.new) }
    ensures any_moment { EachMoment S.Store store.old store.new
        (AltersEach S.Store names.now (KeepsBytes (S.seen store.old)) store.old) }
    ensures beside { ReadsBeside S.Store (Contains names.now) store.old store.new }
    ensures cause { HasCause (S.faults store.old) (S.faults store.new) (IsErr result) }
{
    let mut at = 0;
    for (place, name) in names.iter().enumerate() {
        let end = at + sizes[place] as usize;
        match store.append(name.as_str(), &bytes[at..end]) {
            Ok(()) => at = end,
            Err(failed) => return Err(failed),
        }
    }
    Ok(())
}

/// Removes the files of these names, one after the other, and settles nothing.
///
/// A stop at any moment leaves each of them, or it is gone.
pub fn remove_each<S: Store>(store: &mut S, names: &[Text]) -> Result<(), Failed>
    ensures gone { OnOk result (IsTrue S.tells → (name : List ℕ)
        → S.seen store.new name ≡ without names.now (S.seen store.old) name) }
    ensures any_moment { EachMoment S.Store store.old store.new
        (AltersEach S.Store names.now GoneOrSame store.old) }
    ensures beside { ReadsBeside S.Store (Contains names.now) store.old store.new }
    ensures cause { HasCause (S.faults store.old) (S.faults store.new) (IsErr result) }
{
    for name in names {
        match store.remove(name.as_str()) {
            Ok(()) => {}
            Err(failed) => return Err(failed),
        }
    }
    Ok(())
}
