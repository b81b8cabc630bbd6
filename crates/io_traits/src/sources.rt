// The trait of sources of bytes.
ghost use Rattle.std.specs.Prelude.{◌≡◌, ◌≤◌, ◌<◌, ℕ, List, Option, Ok, IsErr, length};
ghost use Rattle.io_traits.specs.Counts.{HasCause};
ghost use Rattle.io_traits.specs.Pieces.{Piece, bytes_in, piece_list, gave, IfBytes};
ghost use Rattle.io_traits.specs.Telling.{Grows, Shrinks, IsAtEnd};

use crate::faults::Failed;

/// What a read of a source found.
#[derive(Clone, Copy, PartialEq, Eq)]
pub enum Step {
    /// So many bytes came, and stand at the front of the room.
    Bytes(usize),
    /// Nothing came so far. A later read may find bytes, or the end.
    NotYet,
    /// The source is at its end.
    End,
}

/// Where bytes come from, such as stdin.
pub trait Source {
    /// The pieces that it gave, where it tells them: each read that found bytes or the end gave one.
    ghost given: { Self → Option (List Piece) };

    /// The bytes that are left, where it tells them.
    ghost left: { Self → Option (List ℕ) };

    /// How often a read failed.
    ghost faults: { Self → ℕ };

    /// How often a read found nothing yet.
    ghost waits: { Self → ℕ };

    /// Reads into the front of `into`: at least one byte, unless the room is empty, and at most as
    /// many as there is room for. The bytes are the next ones of those that are left.
    ///
    /// What stands in the room behind the bytes, and after another answer than `Step::Bytes`, is
    /// not said.
    fn read(&mut self, into: &mut [u8]) -> Result<Step, Failed>
        ensures within { IfBytes result (λ n. n ≤ length into.old) }
        ensures some { IfBytes result (λ n. 0 < length into.old → 0 < n) }
        ensures given { Grows (given self.old) (given self.new)
            (piece_list (gave result into.new)) }
        ensures left { Shrinks (left self.old) (left self.new) (bytes_in (gave result into.new)) }
        ensures end { result ≡ Ok Step.End → IsAtEnd (left self.new) }
        ensures cause { HasCause (faults self.old) (faults self.new) (IsErr result) }
        ensures waits { HasCause (waits self.old) (waits self.new) (result ≡ Ok Step.NotYet) };
}
