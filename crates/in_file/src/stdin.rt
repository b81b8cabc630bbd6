// The input of standard input: polls a source of bytes, and gives its lines as events.
ghost use Rattle.std.specs.Prelude.{◌≡◌, ◌↔◌, [], true, false, Err, None, IfOk, OnOk, OnErr};
ghost use Rattle.io_traits.specs.Counts.{HasCause};
ghost use Rattle.byte_lines.specs.Unread.{lines_left};
ghost use Rattle.in_file.specs.Openings.{line_limit};
ghost use Rattle.in_file.specs.Streams.{Gave, HasRead, StaysSet, TakesNothing, WasPolled, begun, got_of, looks};
ghost use Rattle.in_lines.specs.declared.poll_outcome.PollFault.TheVariants as p;

use crate::line_buffer::LineBuffer;
use event_tree::Event;
use in_lines::{Codec, Got, PollFault, event_of_bytes};
use io_traits::{Source, Step};
use plain_data::Instant;
use std::alloc::{AllocError, Global};
use std::marker::Model;

/// An input of the lines of a stream such as standard input, as events.
///
/// A line ends at a line feed, and a carriage return just before it is no part of it; a line of 1,048,576 bytes without one ends
/// there. At the end of the stream a rest that isn't empty is a line.
pub struct StdinInput {
    alloc: Global,
    codec: Codec,
    /// The bytes that were read and whose lines are not given yet.
    held: LineBuffer,
    /// The moment of the poll that made the lines whole that are held.
    moment: Instant,
}

// Written out, so that it is one call wherever an error is handed on while one is held.
impl Drop for StdinInput {
    fn drop(self) {
        let StdinInput {
            alloc: _,
            codec: _,
            held: _held,
            moment: _,
        } = self;
    }
}

impl Model for StdinInput {
    ghost use Rattle.std.specs.Prelude.{◌≡◌};
    ghost use Rattle.in_file.specs.Streams.{Stream};

    ghost Value = { Stream };

    ghost view = { λ s. record { codec = s.codec; unread = s.held; moment = s.moment } };

    ghost invariant = { λ s. s.held.limit ≡ 1048576 };
}

impl StdinInput {
    /// An input of which nothing was read, and whose lines are read by this codec. Takes no memory.
    pub fn new(alloc: Global, codec: Codec) -> StdinInput
        ensures begins { result ≡ begun codec }
        ensures read { HasRead [] [] result }
    {
        StdinInput {
            alloc,
            codec,
            held: LineBuffer::new(alloc),
            moment: Instant::epoch(),
        }
    }

    /// Looks whether lines came, at a moment of the clock. Where it holds a whole line, or met the end of the source, it does not
    /// read; else it reads of it, once, up to 262,144 bytes. That may wait, as a read of a pipe or a terminal does.
    ///
    /// - `Lines`: it holds a whole line.
    /// - `End`: it holds none, and the source was read to its end.
    /// - `NotYet`: it holds none so far. Bytes came, or the source had nothing yet.
    ///
    /// A `Fault` is one of the source, of which nothing was taken. An error leaves the input as it was.
    pub fn poll<I: Source>(&mut self, source: &mut I, moment: Instant) -> Result<Got, PollFault>
        ensures polled { OnOk result
            (WasPolled I.Source moment source.old source.new self.old self.new) }
        ensures got { IfOk result (λ got. got ≡ got_of self.new) }
        ensures stays { OnOk result (StaysSet self.old self.new) }
        ensures err { OnErr result (self.new ≡ self.old) }
        ensures fault { result ≡ Err p.Fault → TakesNothing I.Source source.old source.new }
        ensures memory { result ≡ Err p.Memory → source.new ≡ source.old }
        ensures cause { HasCause (I.faults source.old) (I.faults source.new)
            (result ≡ Err p.Fault) }
    {
        self.read_once(source, moment)?;
        Ok(self.outcome())
    }

    // Reads, unless it need not.
    fn read_once<I: Source>(&mut self, source: &mut I, moment: Instant) -> Result<(), PollFault>
        ensures polled { OnOk result
            (WasPolled I.Source moment source.old source.new self.old self.new) }
        ensures err { OnErr result (self.new ≡ self.old) }
        ensures fault { result ≡ Err p.Fault → TakesNothing I.Source source.old source.new }
        ensures memory { result ≡ Err p.Memory → source.new ≡ source.old }
        ensures cause { HasCause (I.faults source.old) (I.faults source.new)
            (result ≡ Err p.Fault) }
    {
        if self.looks() {
            return self.read(source, moment);
        }
        Ok(())
    }

    // Whether a poll reads.
    fn looks(&mut self) -> bool
        ensures looks { result ≡ looks self.old }
        ensures same { self.new ≡ self.old }
        ensures limit { self.new.unread.limit ≡ line_limit }
    {
        self.held.wants_read()
    }

    fn outcome(&mut self) -> Got
        ensures got { result ≡ got_of self.old }
        ensures same { self.new ≡ self.old }
    {
        self.held.outcome()
    }

    // Reads of the source.
    fn read<I: Source>(&mut self, source: &mut I, moment: Instant) -> Result<(), PollFault>
        requires { looks self.old ≡ true }
        ensures polled { OnOk result
            (WasPolled I.Source moment source.old source.new self.old self.new) }
        ensures err { OnErr result (self.new ≡ self.old) }
        ensures fault { result ≡ Err p.Fault → TakesNothing I.Source source.old source.new }
        ensures memory { result ≡ Err p.Memory → source.new ≡ source.old }
        ensures cause { HasCause (I.faults source.old) (I.faults source.new)
            (result ≡ Err p.Fault) }
    {
        match self.held.fill_from(source)? {
            Step::Bytes(_) => self.moment = moment,
            Step::NotYet => {}
            Step::End => {
                self.held.end();
                self.moment = moment;
            }
        }
        Ok(())
    }

    /// The event of the next line, before the settings of the input are applied to it, with the moment of the poll that made
    /// the line whole. None exactly where no whole line is held.
    ///
    /// The only error is want of memory, and then the input is as it was.
    pub fn next(&mut self) -> Result<Option<Event>, AllocError>
        ensures gave { IfOk result (λ event. Gave event self.old self.new) }
        ensures none { IfOk result (λ event. (event ≡ None) ↔ (lines_left self.old.unread ≡ [])) }
        ensures stays { OnOk result (StaysSet self.old self.new) }
        ensures err { OnErr result (self.new ≡ self.old) }
    {
        let Some(line) = self.held.first() else {
            return Ok(None);
        };
        let bytes = self.held.front(line.content_len);
        let event = event_of_bytes(self.alloc, self.codec, bytes, self.moment)?;
        self.held.pass(line.taken);
        Ok(Some(event))
    }

    /// Whether [`StdinInput::next`] would give an event: whether a whole line is held among the bytes that were read. It does
    /// not read, and takes no memory.
    pub fn holds(&self) -> bool
        ensures { (result ≡ false) ↔ (lines_left self.now.unread ≡ []) }
    {
        self.held.holds()
    }

    /// Whether the source was read to its end. Lines may be held still. Takes no memory.
    pub fn is_ended(&self) -> bool
        ensures { result ≡ self.now.unread.ended }
    {
        self.held.is_ended()
    }
}
