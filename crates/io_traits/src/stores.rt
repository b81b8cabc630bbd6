// The trait of stores: files that belong to the program alone.
ghost use Rattle.std.specs.Prelude.{◌≡◌, ◌≤◌, ◌<◌, ◌^◌, ◌+◌, ◌++◌, ℕ, Bool, IsTrue, IsErr, List, Some, None, Err, length, take, IfOk, OnOk, option_map};
ghost use Rattle.io_traits.specs.Counts.{HasCause};
ghost use Rattle.io_traits.specs.Folders.{Content, Lists};
ghost use Rattle.io_traits.specs.Reads.{GivesInto, bytes_of, file_length};
ghost use Rattle.io_traits.specs.Images.{Image, overlaid, TornFile, CutFile, RemovedFile, IsAtRest};
ghost use Rattle.io_traits.specs.Calls.{ChangesNothing, ChangesOne, MaySettle};

use crate::{Failed, ListFault};
use plain_data::Names;
use std::alloc::Global;

/// Files that belong to the program alone, by their names, which are paths.
///
/// A call that changes a file changes no other. Where it fails, it may have done its work, a part of
/// it or nothing, so that nothing is said of what its own file reads as; its images say what may be
/// left. Each call moves the clock of its own store alone, and speaks of the moments from its
/// beginning on.
pub trait Store {
    /// Whether stores of this type tell what they hold. Of one that doesn't, no clause speaks of
    /// content, and it has no images.
    ghost tells: { Bool };

    /// What reads give, where it is told.
    ghost seen: { Self → Content };

    /// The moment of now, a number that never falls.
    ghost moment: { Self → ℕ };

    /// What a stop at a moment may leave.
    ghost may_leave: { Self → ℕ → Image → Type 0 };

    /// How often a call failed.
    ghost faults: { Self → ℕ };

    /// The last parts of the names of the files in a folder, in byte order. The empty folder has the
    /// names without a slash.
    fn list(&mut self, alloc: Global, folder: &str) -> Result<Names, ListFault>
        ensures names { IfOk result
            (λ names. IsTrue tells → Lists (seen self.old) folder.now names) }
        ensures same { ChangesNothing tells seen moment may_leave self.old self.new }
        ensures cause { HasCause (faults self.old) (faults self.new)
            (result ≡ Err ListFault.Failed) };

    /// The length of a file in bytes; None where there is no such file.
    fn length(&mut self, name: &str) -> Result<Option<u64>, Failed>
        ensures length { IfOk result
            (λ n. IsTrue tells → n ≡ option_map length (seen self.old name.now)) }
        ensures same { ChangesNothing tells seen moment may_leave self.old self.new }
        ensures cause { HasCause (faults self.old) (faults self.new) (IsErr result) };

    /// Reads into the front of `into` the bytes of a file from the place `at` on: as many as stand
    /// there, up to the room. A missing file has no bytes.
    fn read(&mut self, name: &str, at: u64, into: &mut [u8]) -> Result<usize, Failed>
        ensures within { IfOk result (λ n. n ≤ length into.old) }
        ensures gives { IfOk result (λ n. IsTrue tells
            → GivesInto (seen self.old name.now) at into.old into.new n) }
        ensures same { ChangesNothing tells seen moment may_leave self.old self.new }
        ensures cause { HasCause (faults self.old) (faults self.new) (IsErr result) };

    /// Writes behind the end of a file, and makes a missing one. The length stays below 2^64.
    fn append(&mut self, name: &str, bytes: &[u8]) -> Result<(), Failed>
        ensures written { OnOk result (IsTrue tells
            → seen self.new name.now ≡ Some (bytes_of (seen self.old name.now) ++ bytes.now)) }
        ensures fits { OnOk result (IsTrue tells
            → file_length (seen self.old name.now) + length bytes.now < 2 ^ 64) }
        ensures change { ChangesOne tells seen moment may_leave self.old self.new name.now
            (TornFile (file_length (seen self.old name.now)) bytes.now) }
        ensures cause { HasCause (faults self.old) (faults self.new) (IsErr result) };

    /// Writes over the bytes of a file from the place `at` on, and past its end where they reach so
    /// far. Makes a missing file, whose length counts as 0. The length stays below 2^64.
    fn write_at(&mut self, name: &str, at: u64, bytes: &[u8]) -> Result<(), Failed>
        requires { IsTrue tells → at ≤ file_length (seen self.old name.now) }
        ensures written { OnOk result (IsTrue tells
            → seen self.new name.now ≡ Some (overlaid at bytes.now (bytes_of (seen self.old name.now)))) }
        ensures fits { OnOk result (IsTrue tells → at + length bytes.now < 2 ^ 64) }
        ensures change { ChangesOne tells seen moment may_leave self.old self.new name.now
            (TornFile at bytes.now) }
        ensures cause { HasCause (faults self.old) (faults self.new) (IsErr result) };

    /// Cuts a file to its first `length` bytes. A missing one, whose length counts as 0, stays
    /// missing.
    fn cut(&mut self, name: &str, length: u64) -> Result<(), Failed>
        requires { IsTrue tells → length ≤ file_length (seen self.old name.now) }
        ensures cut { OnOk result (IsTrue tells
            → seen self.new name.now ≡ option_map (take length) (seen self.old name.now)) }
        ensures change { ChangesOne tells seen moment may_leave self.old self.new name.now
            (CutFile length) }
        ensures cause { HasCause (faults self.old) (faults self.new) (IsErr result) };

    /// Removes a file. Of a missing one it is Ok.
    fn remove(&mut self, name: &str) -> Result<(), Failed>
        ensures removed { OnOk result (IsTrue tells → seen self.new name.now ≡ None) }
        ensures change { ChangesOne tells seen moment may_leave self.old self.new name.now
            RemovedFile }
        ensures cause { HasCause (faults self.old) (faults self.new) (IsErr result) };

    /// Settles all files of the store: once it succeeded, a stop leaves what reads give. Where it
    /// fails, a stop may leave what it might have left before, or what reads give.
    fn sync(&mut self) -> Result<(), Failed>
        ensures durable { OnOk result ((i : Image)
            → may_leave self.new (moment self.new) i → IsAtRest (seen self.old) i) }
        ensures settled { MaySettle tells seen moment may_leave self.old self.new }
        ensures cause { HasCause (faults self.old) (faults self.new) (IsErr result) };

    /// A store that doesn't tell its content has no image at any moment.
    ghost images_tell: { (store : Self) (t : ℕ) (i : Image) → may_leave store t i → IsTrue tells };

    /// What it reads as is one of its images.
    ghost seen_is_image: { (store : Self) → IsTrue tells → (i : Image) × may_leave store (moment store) i
        × ((name : List ℕ) → (i name).file ≡ seen store name) };
}
