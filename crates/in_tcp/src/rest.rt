// The bytes of one connection behind its last whole line.
ghost use Rattle.std.specs.Prelude.{◌≡◌, ◌≤◌, ◌++◌, IfOk, IfSome, IfNone, OnOk, OnErr, length, take, drop};
ghost use Rattle.in_tcp.specs.Lines.{IsWholeFirst, HasNoLine};

use byte_lines::{FoundLine, find_line};
use in_lines::LINE_LIMIT;
use std::alloc::{AllocError, Global};
use std::marker::Model;

/// What is left of a connection behind its last whole line.
#[derive(Drop)]
pub(crate) struct Rest {
    conn: u32,
    bytes: Vec<u8>,
    /// How many bytes are known to have no line feed.
    searched: usize,
}

impl Model for Rest {
    ghost use Rattle.std.specs.Prelude.{◌≤◌, take, vec_len};
    ghost use Rattle.byte_lines.specs.Split.{HasNoLineFeed};
    ghost use Rattle.in_tcp.specs.Lines.{Part};

    ghost Value = { Part };

    ghost view = { λ r. record { conn = r.conn; bytes = r.bytes.items } };

    ghost invariant = { λ r. (r.searched ≤ vec_len r.bytes) × (r.searched ≤ 1048576)
        × HasNoLineFeed (take r.searched r.bytes.items) };
}

impl Rest {
    pub(crate) fn of(alloc: Global, conn: u32, bytes: &[u8]) -> Result<Rest, AllocError>
        ensures { IfOk result (λ r. r ≡ record { conn = conn; bytes = bytes.now }) }
    {
        Ok(Rest {
            conn,
            bytes: Vec::from_slice(alloc, bytes)?,
            searched: 0,
        })
    }

    pub(crate) fn conn(&self) -> u32
        ensures { result ≡ self.now.conn }
    {
        self.conn
    }

    pub(crate) fn bytes(&self) -> &[u8]
        ensures { result.now ≡ self.now.bytes }
    {
        &self.bytes
    }

    /// The first whole line.
    pub(crate) fn first(&mut self) -> Option<FoundLine>
        ensures same { self.new ≡ self.old }
        ensures line { IfSome result
            (λ found. IsWholeFirst self.old.bytes found.content_len found.taken) }
        ensures none { IfNone result (HasNoLine self.old.bytes) }
    {
        let found = find_line(&self.bytes, self.searched, LINE_LIMIT);
        if found.is_none() {
            self.searched = self.bytes.len();
        }
        found
    }

    /// Takes bytes behind these. Without memory it takes none.
    pub(crate) fn append(&mut self, bytes: &[u8]) -> Result<(), AllocError>
        ensures ok { OnOk result
            (self.new ≡ record self.old { bytes = self.old.bytes ++ bytes.now }) }
        ensures err { OnErr result (self.new ≡ self.old) }
    {
        self.bytes.extend_from_slice(bytes)
    }

    /// Gives up so many bytes in front.
    pub(crate) fn pass(&mut self, count: usize)
        requires { count ≤ length self.old.bytes }
        ensures { self.new ≡ record self.old { bytes = drop count self.old.bytes } }
    {
        drop(self.bytes.drain(..count));
        self.searched = 0;
    }
}
