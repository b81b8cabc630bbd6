// What is delivered to standard output.
ghost use Rattle.std.specs.Prelude.{◌≤◌, IsErr, OnOk};
ghost use Rattle.io_traits.specs.Counts.{HasCause};
ghost use Rattle.io_traits.specs.Telling.{Grows, GrowsInPart, IsFlushed};

use io_traits::{Failed, Sink, write_all};

/// Writes all the bytes and flushes them before it answers.
///
/// An error is a write or a flush that failed: the sink took the bytes before those that a failed write was
/// given, or all, if it was the flush.
pub fn write_flushed<O: Sink>(sink: &mut O, bytes: &[u8]) -> Result<(), Failed>
    ensures taken { OnOk result (Grows (O.taken sink.old) (O.taken sink.new) bytes.now) }
    ensures flushed { OnOk result (IsFlushed (O.taken sink.new) (O.flushed sink.new)) }
    ensures part { GrowsInPart (O.taken sink.old) (O.taken sink.new) bytes.now }
    ensures kept { O.flushed sink.old ≤ O.flushed sink.new }
    ensures cause { HasCause (O.faults sink.old) (O.faults sink.new) (IsErr result) }
{
    write_all(sink, bytes)?;
    sink.flush()
}
