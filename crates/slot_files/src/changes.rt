// Appending to a file and cutting it, each settled by a sync.
ghost use Rattle.std.specs.Prelude.{◌≡◌, ◌≤◌, ◌<◌, ◌+◌, ◌++◌, ◌^◌, IsTrue, IsErr, Some, length, take, OnOk, option_map};
ghost use Rattle.io_traits.specs.Counts.{HasCause};
ghost use Rattle.io_traits.specs.Reads.{bytes_of, file_length};
ghost use Rattle.io_traits.specs.Moments.{EachMoment, ReadsBeside};
ghost use Rattle.slot_files.specs.Changes.{KeepsFirst, Settled, Alters};

use io_traits::{Failed, Store};

/// Appends bytes to a file, which is made where it is missing, and settles all files.
///
/// A stop at any moment leaves the bytes that the file had, if it was at rest.
pub fn append_settled<S: Store>(store: &mut S, name: &str, bytes: &[u8]) -> Result<(), Failed>
    ensures settled { OnOk result (Settled S.Store name.now
        (Some (bytes_of (S.seen store.old name.now) ++ bytes.now)) store.new) }
    ensures fits { OnOk result (IsTrue S.tells
        → file_length (S.seen store.old name.now) + length bytes.now < 2 ^ 64) }
    ensures any_moment { EachMoment S.Store store.old store.new (Alters S.Store name.now
        (KeepsFirst (file_length (S.seen store.old name.now)) (S.seen store.old name.now)) store.old) }
    ensures beside { ReadsBeside S.Store (λ n. n ≡ name.now) store.old store.new }
    ensures cause { HasCause (S.faults store.old) (S.faults store.new) (IsErr result) }
{
    store.append(name, bytes)?;
    store.sync()
}

/// Cuts a file to its first `length` bytes, and settles all files. A missing one, whose length counts as
/// 0, stays missing.
///
/// A stop at any moment leaves these bytes, if the file was at rest.
pub fn cut_settled<S: Store>(store: &mut S, name: &str, length: u64) -> Result<(), Failed>
    requires { IsTrue S.tells → length ≤ file_length (S.seen store.old name.now) }
    ensures settled { OnOk result (Settled S.Store name.now
        (option_map (take length) (S.seen store.old name.now)) store.new) }
    ensures any_moment { EachMoment S.Store store.old store.new (Alters S.Store name.now
        (KeepsFirst length (S.seen store.old name.now)) store.old) }
    ensures beside { ReadsBeside S.Store (λ n. n ≡ name.now) store.old store.new }
    ensures cause { HasCause (S.faults store.old) (S.faults store.new) (IsErr result) }
{
    store.cut(name, length)?;
    store.sync()
}
