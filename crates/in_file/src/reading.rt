// Reads of a file or a source into the room of a buffer.
ghost use Rattle.std.specs.Prelude.{◌≡◌, ◌≤◌, ◌+◌, IsErr, IsTrue, IfOk, Ok, OnErr, length, take, drop};
ghost use Rattle.io_traits.specs.Counts.{HasCause};
ghost use Rattle.io_traits.specs.Folders.{IsOneCall};
ghost use Rattle.io_traits.specs.Pieces.{IfBytes, gave};
ghost use Rattle.io_traits.specs.Reads.{Gives};
ghost use Rattle.in_file.specs.Streams.{Found, TakesNothing};

use crate::line_buffer::READ_LEN;
use io_traits::{Failed, Files, Source, Step};

/// Reads what a file has from a place on, up to `room` bytes, behind the first `held` bytes of a buffer, and says how many
/// came.
pub(crate) fn read_behind<F: Files>(
    files: &mut F,
    path: &str,
    place: u64,
    held: usize,
    room: usize,
    buffer: &mut [u8],
) -> Result<usize, Failed>
    requires { held + room ≤ length buffer.old }
    ensures len { length buffer.new ≡ length buffer.old }
    ensures front { take held buffer.new ≡ take held buffer.old }
    ensures within { IfOk result (λ n. n ≤ room) }
    ensures gives { IfOk result (λ n. IsTrue F.tells
        → Gives (F.shows files.old (F.calls files.old) path.now) place room n (drop held buffer.new)) }
    ensures call { IsOneCall F.tells F.shows F.calls files.old files.new }
    ensures cause { HasCause (F.faults files.old) (F.faults files.new) (IsErr result) }
{
    files.read(path, place, &mut buffer[held..held + room])
}

/// Reads once of a source, behind the first `held` bytes of a buffer.
pub(crate) fn read_source_behind<I: Source>(
    source: &mut I,
    held: usize,
    buffer: &mut [u8],
) -> Result<Step, Failed>
    requires { held + 262144 ≤ length buffer.old }
    ensures len { length buffer.new ≡ length buffer.old }
    ensures front { take held buffer.new ≡ take held buffer.old }
    ensures within { IfBytes result (λ n. n ≤ 262144) }
    ensures found { IfOk result (λ step.
        Found I.Source (gave (Ok step) (drop held buffer.new)) source.old source.new) }
    ensures fault { OnErr result (TakesNothing I.Source source.old source.new) }
    ensures cause { HasCause (I.faults source.old) (I.faults source.new) (IsErr result) }
{
    source.read(&mut buffer[held..held + READ_LEN])
}
