// Removing files of a queue, settled by one sync.
ghost use Rattle.std.specs.Prelude.{◌≡◌, List, ℕ, Contains, IsTrue, OnOk, IsErr};
ghost use Rattle.io_traits.specs.Counts.{HasCause};
ghost use Rattle.queue_files.specs.Others.{KeepsOthers};
ghost use Rattle.queue_files.specs.Removing.{RemovalLeaves, RemovesAll, without};

use io_traits::{Failed, Store};
use plain_data::Text;

/// Removes files, and settles that. A stop at any moment leaves all other files of a store at rest as they
/// were, and of these some.
pub fn remove_files<S: Store>(store: &mut S, names: &[Text]) -> Result<(), Failed>
    ensures any_moment { RemovalLeaves S.Store names.now store.old store.new }
    ensures gone { OnOk result (RemovesAll S.Store names.now store.old store.new) }
    ensures beside { KeepsOthers S.Store (Contains names.now) store.old store.new }
    ensures cause { HasCause (S.faults store.old) (S.faults store.new) (IsErr result) }
{
    remove_each(store, names)?;
    store.sync()
}

/// Removes files, one after the other, and settles nothing.
fn remove_each<S: Store>(store: &mut S, names: &[Text]) -> Result<(), Failed>
    ensures any_moment { RemovalLeaves S.Store names.now store.old store.new }
    ensures gone { OnOk result (IsTrue S.tells
        → (name : List ℕ) → S.seen store.new name ≡ without names.now (S.seen store.old) name) }
    ensures beside { KeepsOthers S.Store (Contains names.now) store.old store.new }
    ensures cause { HasCause (S.faults store.old) (S.faults store.new) (IsErr result) }
{
    for name in names {
        match store.remove(name.as_str()) {
            Ok(()) => {}
            Err(failed) => return Err(failed),
        }
    }
    Ok(())
}
