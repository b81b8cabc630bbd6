// The trait of files that other programs write.
ghost use Rattle.std.specs.Prelude.{◌≡◌, ◌≤◌, ℕ, Bool, IsTrue, Err, IsErr, IfOk, length, option_map};
ghost use Rattle.io_traits.specs.Counts.{HasCause};
ghost use Rattle.io_traits.specs.Folders.{Content, IsOneCall, Lists};
ghost use Rattle.io_traits.specs.Reads.{GivesInto};

use crate::faults::{Failed, ListFault};
use plain_data::Names;
use std::alloc::Global;

/// Files that other programs write, such as configurations and logs. They may change between calls,
/// so a contract knows them call by call.
pub trait Files {
    /// Whether objects of this type tell what they hold.
    ghost tells: { Bool };

    /// What the call of each number sees, where it is told.
    ghost shows: { Self → ℕ → Content };

    /// How many calls were made, up to the last value of u64. It is the number of the next call.
    ghost calls: { Self → ℕ };

    /// How often a call failed.
    ghost faults: { Self → ℕ };

    /// The last parts of the names of the files in a folder, in byte order. The empty folder has the
    /// names without a slash.
    fn list(&mut self, alloc: Global, folder: &str) -> Result<Names, ListFault>
        ensures names { IfOk result (λ names. IsTrue tells
            → Lists (shows self.old (calls self.old)) folder.now names) }
        ensures call { IsOneCall tells shows calls self.old self.new }
        ensures cause { HasCause (faults self.old) (faults self.new)
            (result ≡ Err ListFault.Failed) };

    /// The length of a file in bytes; None where there is no such file.
    fn length(&mut self, path: &str) -> Result<Option<u64>, Failed>
        ensures length { IfOk result (λ n. IsTrue tells
            → n ≡ option_map length (shows self.old (calls self.old) path.now)) }
        ensures call { IsOneCall tells shows calls self.old self.new }
        ensures cause { HasCause (faults self.old) (faults self.new) (IsErr result) };

    /// Reads into the front of `into` the bytes of a file from the place `at` on: as many as stand
    /// there, up to the room. A missing file has no bytes.
    ///
    /// What stands in the room behind the bytes, and after a failure, is not said.
    fn read(&mut self, path: &str, at: u64, into: &mut [u8]) -> Result<usize, Failed>
        ensures within { IfOk result (λ n. n ≤ length into.old) }
        ensures gives { IfOk result (λ n. IsTrue tells
            → GivesInto (shows self.old (calls self.old) path.now) at into.old into.new n) }
        ensures call { IsOneCall tells shows calls self.old self.new }
        ensures cause { HasCause (faults self.old) (faults self.new) (IsErr result) };
}
