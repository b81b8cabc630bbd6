// The trait of connections that other programs make.
ghost use Rattle.std.specs.Prelude.{◌≡◌, ◌≤◌, ◌<◌, ℕ, List, [], ◌∷◌, Option, Ok, IsErr, length};
ghost use Rattle.io_traits.specs.Connections.{IsNumbered, brought, Lessens, IsOver, pieces_from, KeepsReads, KeepsOthers, KeepsLooks};
ghost use Rattle.io_traits.specs.Counts.{HasCause};
ghost use Rattle.io_traits.specs.Pieces.{Piece, bytes_in, gave, IfBytes};
ghost use Rattle.io_traits.specs.Telling.{Grows, Shrinks, IsAtEnd};

use crate::faults::Failed;
use crate::sources::Step;

/// What a look for a connection found.
#[derive(Clone, Copy, PartialEq, Eq)]
pub enum Come {
    /// A connection came. It has this number.
    Conn(u32),
    /// None came so far.
    NotYet,
    /// No more will come.
    Ended,
}

/// Connections that other programs make to this one. They are numbered from 0 in the order in which
/// they came.
pub trait Links {
    /// The host and the port of each look for a connection, where it tells them.
    ghost looks: { Self → Option (List (List ℕ × ℕ)) };

    /// How many connections came.
    ghost came: { Self → ℕ };

    /// How many are still to come, where it tells that.
    ghost coming: { Self → Option ℕ };

    /// The pieces that its connections gave, each with the number of its connection, where it tells
    /// them: each read that found bytes or the end gave one.
    ghost given: { Self → Option (List (ℕ × Piece)) };

    /// The bytes that are left of a connection, where it tells them.
    ghost left: { Self → ℕ → Option (List ℕ) };

    /// How often a look for a connection failed, and how often it found none yet.
    ghost accept_faults: { Self → ℕ };

    ghost accept_waits: { Self → ℕ };

    /// How often a read of a connection failed, and how often it found nothing yet.
    ghost faults: { Self → ℕ → ℕ };

    ghost waits: { Self → ℕ → ℕ };

    /// Looks for a connection to this host and port. It begins to listen there if it doesn't yet.
    fn accept(&mut self, host: &str, port: u16) -> Result<Come, Failed>
        ensures place { Grows (looks self.old) (looks self.new) ((host.now, port) ∷ []) }
        ensures came { IsNumbered result (came self.old) (came self.new) }
        ensures coming { Lessens (coming self.old) (coming self.new) (brought result) }
        ensures end { result ≡ Ok Come.Ended → IsOver (coming self.new) }
        ensures reads { KeepsReads given left faults waits self.old self.new }
        ensures cause { HasCause (accept_faults self.old) (accept_faults self.new) (IsErr result) }
        ensures waits { HasCause (accept_waits self.old) (accept_waits self.new)
            (result ≡ Ok Come.NotYet) };

    /// Reads from a connection that came as a `Source` does: at least one byte into the front of
    /// `into`, unless the room is empty. No other connection changes.
    ///
    /// What stands in the room behind the bytes, and after another answer than `Step::Bytes`, is
    /// not said.
    fn read(&mut self, conn: u32, into: &mut [u8]) -> Result<Step, Failed>
        requires { conn < came self.old }
        ensures within { IfBytes result (λ n. n ≤ length into.old) }
        ensures some { IfBytes result (λ n. 0 < length into.old → 0 < n) }
        ensures given { Grows (given self.old) (given self.new)
            (pieces_from conn (gave result into.new)) }
        ensures left { Shrinks (left self.old conn) (left self.new conn)
            (bytes_in (gave result into.new)) }
        ensures end { result ≡ Ok Step.End → IsAtEnd (left self.new conn) }
        ensures cause { HasCause (faults self.old conn) (faults self.new conn) (IsErr result) }
        ensures waits { HasCause (waits self.old conn) (waits self.new conn)
            (result ≡ Ok Step.NotYet) }
        ensures others { KeepsOthers left faults waits conn self.old self.new }
        ensures looks { KeepsLooks looks came coming accept_faults accept_waits self.old self.new };

    /// Closes a connection. Nothing more comes over it, and its counts may stand at any number from
    /// then on that isn't lower, so that nobody needs to keep them.
    fn close(&mut self, conn: u32)
        ensures given { Grows (given self.old) (given self.new) [] }
        ensures left { IsAtEnd (left self.new conn) }
        ensures others { KeepsOthers left faults waits conn self.old self.new }
        ensures faults { faults self.old conn ≤ faults self.new conn }
        ensures waits { waits self.old conn ≤ waits self.new conn }
        ensures looks { KeepsLooks looks came coming accept_faults accept_waits self.old self.new };
}
