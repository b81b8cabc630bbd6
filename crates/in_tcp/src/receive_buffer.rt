// The lines of all connections that are received and not given yet.
ghost use Rattle.std.specs.Prelude.{◌≡◌, ◌≤◌, ◌<◌, ◌+◌, ◌↔◌, ◌∷◌, ◌++◌, ℕ, min, not, false, [], IfOk, IfSome, IfNone, OnErr, OnOk, length, take};
ghost use Rattle.byte_lines.specs.Split.{HasNoLineFeed};
ghost use Rattle.in_lines.specs.Decoding.{event_by};
ghost use Rattle.in_tcp.specs.Given.{GaveHeld};
ghost use Rattle.in_tcp.specs.Held.{GivesLine, HasNoNext, IsNext, SameLines, lines_in, next_bytes, next_text, size_of};
ghost use Rattle.in_tcp.specs.Lines.{line_limit};
ghost use Rattle.in_tcp.specs.Pieces.{IsFront};
ghost use Rattle.in_tcp.specs.Rests.{bytes_of};
ghost use Rattle.in_tcp.specs.Search.{completes, joined_of};
ghost use Rattle.in_tcp.specs.Took.{is_none};

use crate::partial_lines::PartialLines;
use crate::pieces::{PieceRecord, Pieces, ReadEvent};
use byte_lines::find_line;
use event_tree::Event;
use in_lines::{Codec, LINE_LIMIT, event_of_bytes};
use memchr::memchr;
use std::alloc::{AllocError, Global};

/// What came over the connections and was not given as events yet.
#[derive(Drop)]
pub(crate) struct ReceiveBuffer {
    pub rests: PartialLines,
    pub pieces: Pieces,
}

/// The next line that is held.
#[derive(Clone, Copy)]
pub(crate) struct NextLine {
    /// The mark of the piece that made it whole.
    mark: PieceRecord,
    /// Whether it stands among what was left of its connection; else it stands in the piece itself.
    in_rest: bool,
    /// How many bytes from the front it says.
    content_len: usize,
    /// How many bytes it stands in, with what ends it.
    taken: usize,
}

impl ReceiveBuffer {
    pub(crate) fn new(alloc: Global) -> ReceiveBuffer
        ensures { result ≡ record { rests = []; pieces = [] } }
    {
        ReceiveBuffer {
            rests: PartialLines::new(alloc),
            pieces: Pieces::new(alloc),
        }
    }

    /// The next line. On the way to it bytes go over to what is left of their connections, and without memory some of them stay.
    pub(crate) fn find(&mut self) -> Result<Option<NextLine>, AllocError>
        ensures same { SameLines self.old self.new }
        ensures next { IfOk result (λ next. IfSome next (λ next. IsNext self.new next)) }
        ensures none { IfOk result (λ next. IfNone next (self.new.pieces ≡ [])) }
    {
        while let Some(mark) = self.pieces.front() {
            if let Some(next) = self.next_in_front(&mark) {
                return Ok(Some(next));
            }
            self.move_on(&mark)?;
        }
        Ok(None)
    }

    /// The next line as an event by the codec; none where none is held. Without memory no line is lost.
    pub(crate) fn next(&mut self, alloc: Global, codec: Codec) -> Result<Option<Event>, AllocError>
        ensures { GaveHeld codec self.old self.new result }
    {
        let Some(next) = self.find()? else {
            return Ok(None);
        };
        let event = self.event(alloc, codec, &next)?;
        self.pass(&next);
        Ok(Some(event))
    }

    /// Whether a line is held. Nothing is moved, and no memory taken.
    pub(crate) fn holds(&self) -> bool
        ensures { result ≡ not (is_none (lines_in self.now.rests self.now.pieces)) }
    {
        for place in 0..self.pieces.len() {
            if self.completes_line(place) {
                return true;
            }
        }
        false
    }

    // Whether the piece of a place makes a line whole, where those before it make none.
    fn completes_line(&self, place: usize) -> bool
        requires within { place < length self.now.pieces }
        requires none { lines_in self.now.rests (take place self.now.pieces) ≡ [] }
        ensures { result ≡ completes self.now place }
    {
        let mark = self.pieces.mark(place);
        match mark.gave {
            ReadEvent::Bytes(count) => {
                if has_line_feed(self.pieces.bytes(place)) {
                    return true;
                }
                if has_line_feed(self.rests.bytes(mark.conn)) {
                    return true;
                }
                self.left_len(place, mark.conn).saturating_add(count) >= LINE_LIMIT
            }
            ReadEvent::End => self.left_len(place, mark.conn) > 0,
        }
    }

    // How many bytes are left of a connection before the piece of a place, where no piece before it makes a line whole; counted up to
    // as many as a line may have.
    fn left_len(&self, place: usize, conn: u32) -> usize
        requires { place ≤ length self.now.pieces }
        ensures { result ≡ min line_limit (length (bytes_of self.now.rests conn)
            + length (joined_of conn (take place self.now.pieces))) }
    {
        let mut len = self.rests.bytes(conn).len().min(LINE_LIMIT);
        for at in 0..place {
            let count = self.pieces.mark(at).count_from(conn);
            len = len.saturating_add(count).min(LINE_LIMIT);
        }
        len
    }

    // The event of the next line.
    fn event(&self, alloc: Global, codec: Codec, next: &NextLine) -> Result<Event, AllocError>
        requires { IsNext self.now next.now }
        ensures { IfOk result (λ event. event
            ≡ event_by codec (record { line = next_text self.now next.now; moment = next.now.mark.moment })) }
    {
        event_of_bytes(alloc, codec, self.content(next), next.mark.moment)
    }

    // The first line of what was left of a connection and its piece, which is the first of all.
    fn next_in_front(&mut self, mark: &PieceRecord) -> Option<NextLine>
        requires { IsFront self.old.pieces mark.now }
        ensures same { self.new ≡ self.old }
        ensures next { IfSome result (λ next. IsNext self.new next) }
        ensures none { IfNone result (HasNoNext self.old mark.now) }
    {
        let rest_len = self.rests.bytes(mark.conn).len();
        let in_rest = rest_len > 0;
        let found = if in_rest {
            self.rests.first(mark.conn)
        } else {
            find_line(self.pieces.front_bytes(), 0, LINE_LIMIT)
        };
        match found {
            Some(line) => Some(NextLine {
                mark: *mark,
                in_rest,
                content_len: line.content_len,
                taken: line.taken,
            }),
            None if in_rest && mark.gave.is_end() => Some(NextLine {
                mark: *mark,
                in_rest,
                content_len: rest_len,
                taken: rest_len,
            }),
            None => None,
        }
    }

    // Takes bytes of the first piece over to what is left of its connection, up to the first line feed and with it; a piece
    // without bytes is given up.
    fn move_on(&mut self, mark: &PieceRecord) -> Result<(), AllocError>
        requires front { IsFront self.old.pieces mark.now }
        requires none { HasNoNext self.old mark.now }
        ensures same { SameLines self.old self.new }
        ensures less { OnOk result (size_of self.new.pieces < size_of self.old.pieces) }
    {
        let bytes = self.pieces.front_bytes();
        if bytes.is_empty() {
            self.pieces.pop();
            return Ok(());
        }
        let count = first_end(bytes);
        self.rests.append(mark.conn, &bytes[..count])?;
        self.pieces.shorten(count);
        Ok(())
    }

    // The bytes that the next line says.
    fn content(&self, next: &NextLine) -> &[u8]
        requires { IsNext self.now next.now }
        ensures { result.now ≡ take next.now.content_len (next_bytes self.now next.now) }
    {
        let bytes = if next.in_rest {
            self.rests.bytes(next.mark.conn)
        } else {
            self.pieces.front_bytes()
        };
        &bytes[..next.content_len]
    }

    // Gives up the next line.
    fn pass(&mut self, next: &NextLine)
        requires { IsNext self.old next.now }
        ensures { GivesLine self.old self.new next.now }
    {
        if next.in_rest {
            self.rests.pass(next.mark.conn, next.taken);
        } else {
            self.pieces.shorten(next.taken);
        }
    }
}

// Whether a line feed stands among some bytes.
fn has_line_feed(bytes: &[u8]) -> bool
    ensures { (result ≡ false) ↔ HasNoLineFeed bytes.now }
{
    memchr(b'\n', bytes).is_some()
}

// How many bytes stand up to the first line feed and with it, or in all.
fn first_end(bytes: &[u8]) -> usize
    requires { 0 < length bytes.now }
    ensures some { 0 < result }
    ensures within { result ≤ length bytes.now }
{
    match memchr(b'\n', bytes) {
        Some(at) => at + 1,
        None => bytes.len(),
    }
}
