// A buffer of bytes that come in pieces, which gives their lines.
ghost use Rattle.std.specs.Prelude.{◌≡◌, ◌≤◌, ◌<◌, ◌+◌, ◌++◌, [], true, false, IfOk, IfSome, IfNone, OnOk, OnErr, Option, Some, None, length, take, drop, vec_len};
ghost use Rattle.std.specs.String.{string_bytes};
ghost use Rattle.byte_lines.specs.Split.{HasNoLineFeed};
ghost use Rattle.byte_lines.specs.Unread.{Unread, FindsNone, GivesLine, KeepsRest, lines_left, text_given, unread};

use crate::find::find_line;
use crate::text_of_bytes;
use std::alloc::{AllocError, Global};
use std::marker::Model;

/// Gives the lines of bytes that come in pieces.
///
/// A contract sees a reader as an `Unread`: the limit of a line, the bytes whose lines are not given yet, and
/// whether the input ends behind them. However the bytes are cut into pieces, their lines are the same
/// (`cutting_changes_nothing`).
///
/// Each byte is searched once and copied a bounded number of times, so the time is linear in the bytes. The bytes
/// whose lines are given are released by the next `feed` that finds them to be more than half of all that is kept.
#[derive(Drop)]
pub struct LineReader {
    alloc: Global,
    limit: usize,
    /// Bytes that came. The lines of those before `start` are given.
    buffer: Vec<u8>,
    start: usize,
    /// How many bytes from `start` on are known to have no line feed.
    searched: usize,
    ended: bool,
}

impl Model for LineReader {
    ghost Value = { Unread };

    ghost view = { λ r. record { limit = r.limit; bytes = drop r.start r.buffer.items; ended = r.ended } };

    ghost invariant = { λ r. (0 < r.limit) × (r.start + r.searched ≤ vec_len r.buffer) × (r.searched ≤ r.limit)
        × HasNoLineFeed (take r.searched (drop r.start r.buffer.items)) };
}

impl LineReader {
    /// A reader of lines of at most `limit` bytes, at the start of an input.
    pub fn new(alloc: Global, limit: usize) -> Self
        requires { 0 < limit }
        ensures { result ≡ record { limit = limit; bytes = []; ended = false } }
    {
        LineReader {
            alloc,
            limit,
            buffer: Vec::new(alloc),
            start: 0,
            searched: 0,
            ended: false,
        }
    }

    /// Takes the next bytes of the input. The only error is want of memory, and then nothing is taken.
    pub fn feed(&mut self, bytes: &[u8]) -> Result<(), AllocError>
        requires { self.old.ended ≡ false }
        ensures ok { OnOk result
            (self.new ≡ record self.old { bytes = self.old.bytes ++ bytes.now }) }
        ensures err { OnErr result (self.new ≡ self.old) }
    {
        self.release_given();
        self.buffer.extend_from_slice(bytes)?;
        Ok(())
    }

    /// Takes the end of the input, which makes a line of what is left. It needs no memory.
    pub fn end(&mut self)
        ensures { self.new ≡ record self.old { ended = true } }
    {
        self.ended = true;
    }

    /// Whether the end of the input was taken.
    pub fn is_ended(&self) -> bool
        ensures { result ≡ self.now.ended }
    {
        self.ended
    }

    /// Goes to the start of another input, once the lines of one that ended are all given. It needs no memory.
    pub fn restart(&mut self)
        requires ended { self.old.ended ≡ true }
        requires none_left { lines_left self.old ≡ [] }
        ensures { self.new ≡ record { limit = self.old.limit; bytes = []; ended = false } }
    {
        self.buffer.clear();
        self.start = 0;
        self.searched = 0;
        self.ended = false;
    }

    /// The next line, and `None` where no line is whole yet or, after the end, none is left. The only error is
    /// want of memory, and then the reader stays as it was.
    pub fn next_line(&mut self) -> Result<Option<String>, AllocError>
        ensures lines { IfOk result
            (λ line. lines_left self.old ≡ text_given line ++ lines_left self.new) }
        ensures none { IfOk result (λ line. line ≡ None → FindsNone self.old self.new) }
        ensures rest { IfOk result (λ line. KeepsRest self.old self.new) }
        ensures limit { self.new.limit ≡ self.old.limit }
        ensures ended { self.new.ended ≡ self.old.ended }
        ensures err { OnErr result (self.new ≡ self.old) }
    {
        match first_line(
            self.alloc,
            self.unread(),
            self.searched,
            self.limit,
            self.ended,
        )? {
            Some(line) => {
                self.start += line.taken;
                self.searched = 0;
                Ok(Some(line.text))
            }
            None => {
                self.searched = self.buffer.len() - self.start;
                Ok(None)
            }
        }
    }

    fn unread(&self) -> &[u8]
        ensures { result.now ≡ self.now.bytes }
    {
        &self.buffer[self.start..]
    }

    /// Gives up the bytes whose lines are given, where they are more than half of all, so that each byte moves
    /// at most once for each that is given up.
    fn release_given(&mut self)
        ensures { self.new ≡ self.old }
    {
        if self.start > self.buffer.len() / 2 {
            remove_front(&mut self.buffer, self.start);
            self.start = 0;
        }
    }
}

/// Removes so many bytes in front. The others are moved; no memory is taken or given back.
pub fn remove_front(bytes: &mut Vec<u8>, count: usize)
    requires { count ≤ vec_len bytes.old }
    ensures { bytes.new.items ≡ drop count bytes.old.items }
{
    let left = bytes.len() - count;
    bytes.copy_within(count.., 0);
    bytes.truncate(left);
}

/// The text of a line, and how many bytes it stands in.
#[derive(Drop)]
struct TakenLine {
    text: String,
    taken: usize,
}

/// The first line of the bytes, of which the first `searched` are known to have no line feed.
fn first_line(
    alloc: Global,
    bytes: &[u8],
    searched: usize,
    limit: usize,
    ended: bool,
) -> Result<Option<TakenLine>, AllocError>
    requires limit { 0 < limit }
    requires within { searched ≤ length bytes.now }
    requires below { searched ≤ limit }
    requires no_line_feed { HasNoLineFeed (take searched bytes.now) }
    ensures some { IfOk result (λ line. IfSome line
        (λ line. GivesLine limit bytes.now ended (string_bytes line.text) (drop line.taken bytes.now))) }
    ensures within { IfOk result (λ line. IfSome line (λ line. line.taken ≤ length bytes.now)) }
    ensures none { IfOk result
        (λ line. IfNone line (lines_left (unread limit bytes.now ended) ≡ [])) }
    ensures no_line_feed { IfOk result (λ line. IfNone line (HasNoLineFeed bytes.now)) }
    ensures short { IfOk result (λ line. IfNone line (length bytes.now < limit)) }
{
    match find_line(bytes, searched, limit) {
        Some(line) => {
            let text = text_of_bytes(alloc, &bytes[..line.content_len])?;
            Ok(Some(TakenLine {
                text,
                taken: line.taken,
            }))
        }
        None if ended && !bytes.is_empty() => {
            let text = text_of_bytes(alloc, bytes)?;
            Ok(Some(TakenLine {
                text,
                taken: bytes.len(),
            }))
        }
        None => Ok(None),
    }
}
