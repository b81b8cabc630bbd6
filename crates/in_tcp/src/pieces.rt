// Pieces that were read from connections, in one buffer.
ghost use Rattle.std.specs.Prelude.{◌≡◌, ◌≤◌, ◌<◌, ◌+◌, ◌^◌, ℕ, [], IfSome, IfNone, IfOk, OnOk, OnErr, length, take, drop, vec_len};
ghost use Rattle.in_tcp.specs.Pieces.{IsFront, count_of, front_bytes, front_less, gave_in, gave_less, is_end, total_of};
ghost use Rattle.in_tcp.specs.Reads.{TookRead};
ghost use Rattle.in_tcp.specs.Search.{count_from};

use crate::reading::read_behind;
use byte_lines::remove_front;
use io_traits::{Links, Step};
use plain_data::Instant;
use std::alloc::{AllocError, Global};
use std::collections::VecDeque;
use std::marker::Model;

/// How many bytes a read asks for at least.
const READ_LEN: usize = 65_536;

/// What a read gave.
#[derive(Clone, Copy)]
pub(crate) enum ReadEvent {
    /// So many bytes.
    Bytes(usize),
    /// The end of the connection.
    End,
}

impl ReadEvent {
    // What a read with this answer gave, if it gave something.
    fn of(step: Step) -> Option<ReadEvent>
        ensures { result ≡ gave_in step }
    {
        match step {
            Step::Bytes(count) => Some(ReadEvent::Bytes(count)),
            Step::End => Some(ReadEvent::End),
            Step::NotYet => None,
        }
    }

    // The same with so many bytes less.
    fn less(self, count: usize) -> ReadEvent
        requires { count ≤ count_of self }
        ensures { result ≡ gave_less count self }
    {
        match self {
            ReadEvent::Bytes(had) => ReadEvent::Bytes(had - count),
            ReadEvent::End => ReadEvent::End,
        }
    }

    fn count(self) -> usize
        ensures { result ≡ count_of self }
    {
        match self {
            ReadEvent::Bytes(count) => count,
            ReadEvent::End => 0,
        }
    }

    pub(crate) fn is_end(self) -> bool
        ensures { result ≡ is_end self }
    {
        matches!(self, ReadEvent::End)
    }
}

/// A piece that was read.
#[derive(Clone, Copy)]
pub(crate) struct PieceRecord {
    /// The number of its connection.
    pub conn: u32,
    /// The moment of the poll that read it.
    pub moment: Instant,
    pub gave: ReadEvent,
}

impl PieceRecord {
    /// How many bytes it has of a connection.
    pub(crate) fn count_from(self, conn: u32) -> usize
        ensures { result ≡ count_from conn self }
    {
        if self.conn == conn {
            self.gave.count()
        } else {
            0
        }
    }
}

/// The pieces that were read and are not cut into lines yet. Their bytes stand in one buffer, behind one another, into which all
/// connections are read. A contract sees them as looks.
#[derive(Drop)]
pub(crate) struct Pieces {
    bytes: Vec<u8>,
    /// Where the bytes of the first piece begin.
    start: usize,
    /// Where those of the last end.
    end: usize,
    marks: VecDeque<PieceRecord>,
}

impl Model for Pieces {
    ghost use Rattle.std.specs.Prelude.{◌≡◌, ◌≤◌, ◌+◌, List, drop, vec_len};
    ghost use Rattle.in_lines.specs.Sources.{Look};
    ghost use Rattle.in_tcp.specs.Pieces.{looks_in, total_of};

    ghost Value = { List Look };

    ghost view = { λ s. looks_in (drop s.start s.bytes.items) s.marks.items };

    ghost invariant = { λ s. (s.start + total_of s.marks.items ≡ s.end) × (s.end ≤ vec_len s.bytes) };
}

impl Pieces {
    pub(crate) fn new(alloc: Global) -> Pieces
        ensures { result ≡ [] }
    {
        Pieces {
            bytes: Vec::new(alloc),
            start: 0,
            end: 0,
            marks: VecDeque::new(alloc),
        }
    }

    /// The mark of the first piece.
    pub(crate) fn front(&self) -> Option<PieceRecord>
        ensures some { IfSome result (λ mark. IsFront self.now mark) }
        ensures none { IfNone result (self.now ≡ []) }
    {
        match self.marks.front() {
            Some(mark) => Some(*mark),
            None => None,
        }
    }

    /// The bytes of the first piece.
    pub(crate) fn front_bytes(&self) -> &[u8]
        ensures { result.now ≡ front_bytes self.now }
    {
        match self.marks.front() {
            Some(mark) => match mark.gave {
                ReadEvent::Bytes(count) => &self.bytes[self.start..self.start + count],
                ReadEvent::End => &[],
            },
            None => &[],
        }
    }

    /// How many pieces there are.
    pub(crate) fn len(&self) -> usize
        ensures { result ≡ length self.now }
    {
        self.marks.len()
    }

    /// The mark of the piece of a place.
    pub(crate) fn mark(&self, place: usize) -> PieceRecord
        requires { place < length self.now }
        ensures { IsFront (drop place self.now) result }
    {
        self.marks[place]
    }

    /// The bytes of the piece of a place.
    pub(crate) fn bytes(&self, place: usize) -> &[u8]
        requires { place < length self.now }
        ensures { result.now ≡ front_bytes (drop place self.now) }
    {
        let at = self.start + total_before(&self.marks, place);
        &self.bytes[at..at + self.marks[place].gave.count()]
    }

    /// Gives up so many bytes in front of the first piece.
    pub(crate) fn shorten(&mut self, count: usize)
        requires { count ≤ length (front_bytes self.old) }
        ensures { self.new ≡ front_less count self.old }
    {
        let Some(mark) = self.marks.pop_front() else {
            return;
        };
        let gave = mark.gave.less(count);
        self.marks.push_front_reserved(PieceRecord { gave, ..mark });
        self.start += count;
    }

    /// Gives up the first piece, which has no bytes.
    pub(crate) fn pop(&mut self)
        requires { front_bytes self.old ≡ [] }
        ensures { self.new ≡ drop 1 self.old }
    {
        let _ = self.marks.pop_front();
        if self.marks.is_empty() {
            self.start = 0;
            self.end = 0;
        }
    }

    /// Reads a connection, and says whether that closed it. Without memory it reads nothing.
    pub(crate) fn read<L: Links>(
        &mut self,
        links: &mut L,
        conn: u32,
        moment: Instant,
    ) -> Result<bool, AllocError>
        requires { conn < L.came links.old }
        ensures read { IfOk result (λ closed.
            TookRead L.Links conn moment self.old self.new links.old links.new closed) }
        ensures err { OnErr result ((self.new ≡ self.old) × (links.new ≡ links.old)) }
    {
        self.release_given();
        self.marks.reserve(1)?;
        make_room(&mut self.bytes, self.end)?;
        let step = read_behind(links, conn, self.end, &mut self.bytes);
        let Some(gave) = ReadEvent::of(step) else {
            return Ok(false);
        };
        self.end += gave.count();
        self.marks
            .push_back_reserved(PieceRecord { conn, moment, gave });
        Ok(gave.is_end())
    }

    /// Moves the bytes that are held to the beginning, where those given up before them are as many at least, and as many as
    /// a read asks for. So the buffer stays in proportion to what is held, and moves cost no more than what was given up.
    fn release_given(&mut self)
        ensures { self.new ≡ self.old }
    {
        if self.start >= READ_LEN && self.start >= self.end - self.start {
            remove_front(&mut self.bytes, self.start);
            self.end -= self.start;
            self.start = 0;
        }
    }
}

// How many bytes the pieces in front of a place have.
fn total_before(marks: &VecDeque<PieceRecord>, place: usize) -> usize
    requires within { place ≤ length marks.now.items }
    requires fits { total_of marks.now.items < 2 ^ 64 }
    ensures { result ≡ total_of (take place marks.now.items) }
{
    let mut total = 0;
    for at in 0..place {
        total += marks[at].gave.count();
    }
    total
}

// Makes room for a read behind so many bytes.
fn make_room(bytes: &mut Vec<u8>, end: usize) -> Result<(), AllocError>
    requires { end ≤ vec_len bytes.old }
    ensures front { take end bytes.new.items ≡ take end bytes.old.items }
    ensures room { OnOk result (end + 65536 ≤ vec_len bytes.new) }
    ensures within { end ≤ vec_len bytes.new }
    ensures err { OnErr result (bytes.new.items ≡ bytes.old.items) }
{
    if bytes.len() - end < READ_LEN {
        bytes.resize(end + READ_LEN, 0)?;
    }
    Ok(())
}
