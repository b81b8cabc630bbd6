// The trait of sinks of bytes, and writing all bytes of a piece.
ghost use Rattle.std.specs.Prelude.{◌≤◌, ◌<◌, ℕ, List, [], Option, IsErr, IfOk, OnOk, OnErr, length, take};
ghost use Rattle.io_traits.specs.Counts.{HasCause};
ghost use Rattle.io_traits.specs.Telling.{Grows, GrowsInPart, IsFlushed, IsWithin};

use crate::faults::Failed;

/// Where bytes go, such as stdout.
pub trait Sink {
    /// The bytes that it took, where it tells them.
    ghost taken: { Self → Option (List ℕ) };

    /// How many of the bytes that it took are flushed.
    ghost flushed: { Self → ℕ };

    /// How often a write or a flush failed.
    ghost faults: { Self → ℕ };

    /// Takes the first so many bytes of a piece: at least one, unless the piece is empty. A write
    /// that fails took nothing. What was flushed stays so, and a write may flush.
    fn write(&mut self, bytes: &[u8]) -> Result<usize, Failed>
        ensures within { IfOk result (λ n. n ≤ length bytes.now) }
        ensures some { IfOk result (λ n. 0 < length bytes.now → 0 < n) }
        ensures taken { IfOk result
            (λ n. Grows (taken self.old) (taken self.new) (take n bytes.now)) }
        ensures err { OnErr result (Grows (taken self.old) (taken self.new) []) }
        ensures kept { flushed self.old ≤ flushed self.new }
        ensures cause { HasCause (faults self.old) (faults self.new) (IsErr result) };

    /// Flushes all that it took. A flush that fails may have flushed a part of it.
    fn flush(&mut self) -> Result<(), Failed>
        ensures flushed { OnOk result (IsFlushed (taken self.new) (flushed self.new)) }
        ensures taken { Grows (taken self.old) (taken self.new) [] }
        ensures kept { flushed self.old ≤ flushed self.new }
        ensures cause { HasCause (faults self.old) (faults self.new) (IsErr result) };

    /// No byte is flushed that wasn't taken.
    ghost flushed_within: { (sink : Self) → IsWithin (taken sink) (flushed sink) };
}

/// Writes all the bytes, by as many writes as that takes, and asks for no flush. It ends at the first
/// write that fails; the sink took the bytes before those that this write was given.
pub fn write_all<O: Sink>(sink: &mut O, bytes: &[u8]) -> Result<(), Failed>
    ensures ok { OnOk result (Grows (O.taken sink.old) (O.taken sink.new) bytes.now) }
    ensures part { GrowsInPart (O.taken sink.old) (O.taken sink.new) bytes.now }
    ensures kept { O.flushed sink.old ≤ O.flushed sink.new }
    ensures cause { HasCause (O.faults sink.old) (O.faults sink.new) (IsErr result) }
{
    let mut rest = bytes;
    while !rest.is_empty() {
        let count = sink.write(rest)?;
        rest = &rest[count..];
    }
    Ok(())
}
