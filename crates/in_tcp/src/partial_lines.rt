// The unfinished lines of all connections, by connection.
ghost use Rattle.std.specs.Prelude.{◌≡◌, ◌≤◌, ◌<◌, ◌++◌, ◌∷◌, ℕ, [], IfSome, IfNone, OnOk, OnErr, length, drop};
ghost use Rattle.in_tcp.specs.Lines.{HasNoLine, IsWholeFirst};
ghost use Rattle.in_tcp.specs.Rests.{Becomes, bytes_of, place_from};

use crate::rest::Rest;
use byte_lines::FoundLine;
use std::alloc::{AllocError, Global};
use std::marker::Model;

/// What is left of each connection behind its last whole line. A connection of which nothing is left takes no memory here. A
/// contract sees the bytes of each number.
#[derive(Drop)]
pub(crate) struct PartialLines {
    alloc: Global,
    members: Vec<Rest>,
}

impl Model for PartialLines {
    ghost use Rattle.std.specs.Prelude.{List};
    ghost use Rattle.in_tcp.specs.Lines.{Part};

    ghost Value = { List Part };

    ghost view = { λ s. s.members.items };
}

impl PartialLines {
    pub(crate) fn new(alloc: Global) -> PartialLines
        ensures { result ≡ [] }
    {
        PartialLines {
            alloc,
            members: Vec::new(alloc),
        }
    }

    /// What is left of a connection.
    pub(crate) fn bytes(&self, conn: u32) -> &[u8]
        ensures { result.now ≡ bytes_of self.now conn }
    {
        match self.place(conn) {
            Some(place) => self.members[place].bytes(),
            None => &[],
        }
    }

    /// The first whole line of it.
    pub(crate) fn first(&mut self, conn: u32) -> Option<FoundLine>
        ensures same { self.new ≡ self.old }
        ensures line { IfSome result
            (λ found. IsWholeFirst (bytes_of self.old conn) found.content_len found.taken) }
        ensures none { IfNone result (HasNoLine (bytes_of self.old conn)) }
    {
        match self.place(conn) {
            Some(place) => self.members[place].first(),
            None => None,
        }
    }

    /// Takes bytes of a connection behind those that are left of it. Without memory it takes none.
    pub(crate) fn append(&mut self, conn: u32, bytes: &[u8]) -> Result<(), AllocError>
        ensures ok { OnOk result
            (Becomes conn (bytes_of self.old conn ++ bytes.now) self.old self.new) }
        ensures err { OnErr result (self.new ≡ self.old) }
    {
        match self.place(conn) {
            Some(place) => self.members[place].append(bytes),
            None => {
                let rest = Rest::of(self.alloc, conn, bytes)?;
                self.add(rest)
            }
        }
    }

    /// Gives up so many bytes in front of those of a connection.
    pub(crate) fn pass(&mut self, conn: u32, count: usize)
        requires { count ≤ length (bytes_of self.old conn) }
        ensures { Becomes conn (drop count (bytes_of self.old conn)) self.old self.new }
    {
        let Some(place) = self.place(conn) else {
            return;
        };
        self.members[place].pass(count);
        self.leave_out_empty(conn);
    }

    // The place of what is left of a connection.
    fn place(&self, conn: u32) -> Option<usize>
        ensures place { result ≡ place_from 0 conn self.now }
        ensures within { IfSome result (λ place. place < length self.now) }
    {
        for place in 0..self.members.len() {
            if self.members[place].conn() == conn {
                return Some(place);
            }
        }
        None
    }

    fn add(&mut self, rest: Rest) -> Result<(), AllocError>
        ensures ok { OnOk result (self.new ≡ self.old ++ rest ∷ []) }
        ensures err { OnErr result (self.new ≡ self.old) }
    {
        match self.members.push(rest) {
            Ok(()) => Ok(()),
            Err(_) => Err(AllocError),
        }
    }

    // Leaves a connection out, where nothing is left of it.
    fn leave_out_empty(&mut self, conn: u32)
        ensures { (n : ℕ) → bytes_of self.new n ≡ bytes_of self.old n }
    {
        if self.bytes(conn).is_empty() {
            self.members.retain(|rest| rest.conn() != conn);
        }
    }
}
