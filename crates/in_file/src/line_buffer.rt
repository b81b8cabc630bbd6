// The buffer of bytes from which lines are lent.
ghost use Rattle.std.specs.Prelude.{◌≡◌, ◌≤◌, ◌<◌, ◌-◌, ◌+◌, [], true, false, Err, IfOk, IfSome, IfNone, OnErr, OnOk, length, take, drop, vec_len};
ghost use Rattle.byte_lines.specs.Split.{HasNoLineFeed};
ghost use Rattle.byte_lines.specs.Unread.{lines_left, unread};
ghost use Rattle.io_traits.specs.Counts.{HasCause};
ghost use Rattle.in_file.specs.Held.{IsFirst, got_by, has_line, looks_by, passed};
ghost use Rattle.in_file.specs.Looks.{IsRead};
ghost use Rattle.in_file.specs.Openings.{line_limit};
ghost use Rattle.in_file.specs.Streams.{TakesNothing, WasRead};
ghost use Rattle.in_lines.specs.declared.poll_outcome.PollFault.TheVariants as p;

use crate::reading::{read_behind, read_source_behind};
use byte_lines::{FoundLine, find_line};
use in_lines::{Got, LINE_LIMIT, PollFault};
use io_traits::{Files, Source, Step};
use std::alloc::{AllocError, Global};
use std::marker::Model;

/// How many bytes one read asks for at most: 256 KiB.
pub(crate) const READ_LEN: usize = 262_144;

/// The bytes that were read and whose lines are not given yet, and whether the file or the stream ended behind them.
///
/// A read puts bytes straight behind these, and a line is lent out of them, so that it is copied once on its way into
/// its event. The room of a read is kept for the next one.
#[derive(Drop)]
pub(crate) struct LineBuffer {
    /// Bytes that came, and behind them the room of the last read. The lines of those before `start` are given.
    bytes: Vec<u8>,
    start: usize,
    /// Where the bytes that came end.
    filled: usize,
    /// How many bytes from `start` on are known to have no line feed.
    searched: usize,
    ended: bool,
}

impl Model for LineBuffer {
    ghost use Rattle.std.specs.Prelude.{◌+◌, ◌≤◌, take, drop, vec_len};
    ghost use Rattle.byte_lines.specs.Split.{HasNoLineFeed};
    ghost use Rattle.byte_lines.specs.Unread.{Unread};

    ghost Value = { Unread };

    ghost view = { λ h. record {
      limit = 1048576;
      bytes = drop h.start (take h.filled h.bytes.items);
      ended = h.ended;
    } };

    ghost invariant = { λ h. (h.start + h.searched ≤ h.filled) × (h.filled ≤ vec_len h.bytes) × (h.searched ≤ 1048576)
        × HasNoLineFeed (take h.searched (drop h.start (take h.filled h.bytes.items))) };
}

impl LineBuffer {
    pub(crate) fn new(alloc: Global) -> LineBuffer
        ensures { result ≡ unread line_limit [] false }
    {
        LineBuffer {
            bytes: Vec::new(alloc),
            start: 0,
            filled: 0,
            searched: 0,
            ended: false,
        }
    }

    /// How many bytes are held.
    pub(crate) fn len(&self) -> usize
        ensures { result ≡ length self.now.bytes }
    {
        self.filled - self.start
    }

    pub(crate) fn is_ended(&self) -> bool
        ensures { result ≡ self.now.ended }
    {
        self.ended
    }

    /// Takes the end of the file or the stream, which makes a line of what is left.
    pub(crate) fn end(&mut self)
        ensures { self.new ≡ record self.old { ended = true } }
    {
        self.ended = true;
    }

    fn unread(&self) -> &[u8]
        ensures { result.now ≡ self.now.bytes }
    {
        &self.bytes[self.start..self.filled]
    }

    /// The first line that is held.
    pub(crate) fn first(&self) -> Option<FoundLine>
        ensures first { IfSome result
            (λ found. IsFirst self.now found.content_len found.taken) }
        ensures within { IfSome result (λ found. found.taken ≤ length self.now.bytes) }
        ensures content_within { IfSome result (λ found. found.content_len ≤ found.taken) }
        ensures short { IfSome result (λ found. found.content_len ≤ line_limit) }
        ensures none { IfNone result (lines_left self.now ≡ []) }
        ensures no_line_feed { IfNone result (HasNoLineFeed self.now.bytes) }
        ensures rest { IfNone result (length self.now.bytes < line_limit) }
        ensures limit { self.now.limit ≡ line_limit }
    {
        let bytes = self.unread();
        match find_line(bytes, self.searched, LINE_LIMIT) {
            Some(line) => Some(line),
            None if self.ended && !bytes.is_empty() => Some(FoundLine {
                content_len: bytes.len(),
                taken: bytes.len(),
            }),
            None => None,
        }
    }

    /// So many bytes in front.
    pub(crate) fn front(&self, count: usize) -> &[u8]
        requires { count ≤ length self.now.bytes }
        ensures { result.now ≡ take count self.now.bytes }
    {
        &self.unread()[..count]
    }

    /// Whether a line is held.
    pub(crate) fn holds(&self) -> bool
        ensures { result ≡ has_line self.now }
    {
        self.first().is_some()
    }

    /// The same, where what was searched for it is not searched again.
    pub(crate) fn has_line(&mut self) -> bool
        ensures line { result ≡ has_line self.old }
        ensures same { self.new ≡ self.old }
    {
        match self.first() {
            Some(_) => true,
            None => {
                self.searched = self.len();
                false
            }
        }
    }

    /// Gives up so many bytes in front.
    pub(crate) fn pass(&mut self, count: usize)
        requires { count ≤ length self.old.bytes }
        ensures { self.new ≡ passed count self.old }
    {
        self.start += count;
        self.searched = 0;
    }

    /// Whether a poll reads: no whole line is held, and the end was not met.
    pub(crate) fn wants_read(&mut self) -> bool
        ensures looks { result ≡ looks_by (lines_left self.old) self.old.ended }
        ensures same { self.new ≡ self.old }
        ensures limit { self.new.limit ≡ line_limit }
    {
        !self.ended && !self.has_line()
    }

    /// What a poll found, once it read.
    pub(crate) fn outcome(&mut self) -> Got
        ensures got { result ≡ got_by (lines_left self.old) self.old.ended }
        ensures same { self.new ≡ self.old }
    {
        if self.has_line() {
            Got::Lines
        } else if self.ended {
            Got::End
        } else {
            Got::NotYet
        }
    }

    /// Reads what a file has from a place on, up to `room` bytes, behind those that are held, and says how many came.
    pub(crate) fn fill<F: Files>(
        &mut self,
        files: &mut F,
        path: &str,
        place: u64,
        room: usize,
    ) -> Result<usize, PollFault>
        requires { room ≤ 262144 }
        ensures read { IfOk result (IsRead F.Files path.now place room self.old.bytes self.new.bytes
            files.old files.new) }
        ensures rest { self.new ≡ record self.old { bytes = self.new.bytes } }
        ensures err { OnErr result (self.new ≡ self.old) }
        ensures memory { result ≡ Err p.Memory → files.new ≡ files.old }
        ensures cause { HasCause (F.faults files.old) (F.faults files.new) (result ≡ Err p.Fault) }
    {
        self.release_given();
        make_room(&mut self.bytes, self.filled, room)?;
        let count = read_behind(files, path, place, self.filled, room, &mut self.bytes)?;
        self.filled += count;
        Ok(count)
    }

    /// Reads once of a source, behind the bytes that are held.
    pub(crate) fn fill_from<I: Source>(&mut self, source: &mut I) -> Result<Step, PollFault>
        ensures read { IfOk result (λ step.
            WasRead I.Source step self.old.bytes self.new.bytes source.old source.new) }
        ensures rest { self.new ≡ record self.old { bytes = self.new.bytes } }
        ensures err { OnErr result (self.new ≡ self.old) }
        ensures fault { result ≡ Err p.Fault → TakesNothing I.Source source.old source.new }
        ensures memory { result ≡ Err p.Memory → source.new ≡ source.old }
        ensures cause { HasCause (I.faults source.old) (I.faults source.new)
            (result ≡ Err p.Fault) }
    {
        self.release_given();
        make_room(&mut self.bytes, self.filled, READ_LEN)?;
        let step = read_source_behind(source, self.filled, &mut self.bytes)?;
        if let Step::Bytes(count) = step {
            self.filled += count;
        }
        Ok(step)
    }

    /// Moves what is held to the beginning, where lines were given.
    fn release_given(&mut self)
        ensures { self.new ≡ self.old }
    {
        if self.start > 0 {
            move_to_front(&mut self.bytes, self.start, self.filled);
            self.filled -= self.start;
            self.start = 0;
        }
    }
}

// Moves the bytes between two places to the beginning. No memory is taken or given back.
fn move_to_front(bytes: &mut Vec<u8>, start: usize, end: usize)
    requires within { end ≤ vec_len bytes.old }
    requires order { start ≤ end }
    ensures front { take (end - start) bytes.new.items ≡ drop start (take end bytes.old.items) }
    ensures len { vec_len bytes.new ≡ vec_len bytes.old }
{
    bytes.copy_within(start..end, 0);
}

// Makes room for so many bytes behind the first ones.
fn make_room(bytes: &mut Vec<u8>, filled: usize, room: usize) -> Result<(), AllocError>
    requires within { filled ≤ vec_len bytes.old }
    requires room { room ≤ 262144 }
    ensures front { take filled bytes.new.items ≡ take filled bytes.old.items }
    ensures within { filled ≤ vec_len bytes.new }
    ensures room { OnOk result (filled + room ≤ vec_len bytes.new) }
{
    if bytes.len() - filled < room {
        bytes.resize(filled + room, 0)?;
    }
    Ok(())
}
