// The TCP input: polls its connections and gives their lines as events.
ghost use Rattle.std.specs.Prelude.{◌≡◌, ◌↔◌, ℕ, false, [], IfOk};
ghost use Rattle.in_tcp.specs.Inputs.{GaveNext, Stands, WasPolled, lines_of, poll_answer};
ghost use Rattle.in_tcp.specs.Reads.{AllCame};

use crate::polling::Connected;
use event_tree::Event;
use in_lines::{Codec, Got, PollFault};
use io_traits::Links;
use plain_data::{Instant, Text};
use std::alloc::{AllocError, Global};
use std::marker::Model;

/// An input of the lines that come over TCP connections, up to 64 of them beside each other.
///
/// - A connection's bytes are cut into lines as those of any input, and lines stand in the order in which they became whole,
///   whatever their connections.
/// - At a connection's end a rest that isn't empty is a line, also where the end is a read that failed: such a fault ends that
///   connection alone.
/// - Connections share one buffer. One that sends nothing takes no memory but for its number.
pub struct TcpInput {
    alloc: Global,
    host: Text,
    port: u16,
    codec: Codec,
    connected: Connected,
}

// Written out, so that it is one call wherever an error is handed on while one is held.
impl Drop for TcpInput {
    fn drop(self) {
        let TcpInput {
            alloc: _,
            host: _host,
            port: _,
            codec: _,
            connected: _connected,
        } = self;
    }
}

impl Model for TcpInput {
    ghost use Rattle.std.specs.Prelude.{◌≤◌, length};
    ghost use Rattle.in_tcp.specs.Inputs.{Tcp};
    ghost use Rattle.in_tcp.specs.Reads.{Rising};

    ghost Value = { Tcp };

    ghost view = { λ t. record {
      host = t.host;
      port = t.port;
      codec = t.codec;
      connections = t.connected.connections.items;
      parts = t.connected.held.rests;
      looks = t.connected.held.pieces;
    } };

    ghost invariant = { λ t. Rising t.connected.connections.items × (length t.connected.connections.items ≤ 64) };
}

impl TcpInput {
    /// An input that is to listen at this host and port, on which nobody listens before its first poll. The only error is want
    /// of memory.
    pub fn start(alloc: Global, host: &str, port: u16, codec: Codec) -> Result<TcpInput, AllocError>
        ensures begins { IfOk result (λ t. t ≡ record {
          host = host.now;
          port = port;
          codec = codec;
          connections = [];
          parts = [];
          looks = [];
        }) }
        ensures stands { IfOk result (λ t. (came : ℕ) → Stands [] [] came t) }
    {
        Ok(TcpInput {
            alloc,
            host: Text::of(alloc, host)?,
            port,
            codec,
            connected: Connected::new(alloc),
        })
    }

    /// Looks once for a connection, unless 64 are open, and then reads each open connection once, in the order in which they came.
    /// The lines that this makes whole have this moment.
    ///
    /// - `Lines`: at least one whole line is held.
    /// - `End`: none is held, this look said that no more connections will come, and none is open.
    /// - `NotYet`: none is held, and it isn't the end. The look gave a connection, or none yet, or said that no more will come, or
    ///   64 were open; and each read gave bytes, an end or nothing yet, or failed.
    /// - `Fault`: the look failed. Nothing was read, and the input is as it was.
    /// - `Memory`: some of the connections may have been read. What they gave is held, and the others are read by the next poll.
    ///
    /// A connection is closed where its read found its end, or failed, and only there. The connections have to be those of
    /// its earlier polls.
    pub fn poll<L: Links>(&mut self, links: &mut L, moment: Instant) -> Result<Got, PollFault>
        requires { AllCame (L.came links.old) self.old.connections }
        ensures { WasPolled L.Links moment self.old self.new links.old links.new result }
    {
        let over = self.connected.look(self.host.as_str(), self.port, links)?;
        let taken = self.connected.take(links, moment);
        answer(taken, over, self.connected.is_unconnected())
    }

    /// The next line as an event, by the codec, at the moment of the poll that made it whole; none exactly where no whole line is
    /// held. The only error is want of memory, and then no line is lost.
    pub fn next(&mut self) -> Result<Option<Event>, AllocError>
        ensures { GaveNext self.old self.new result }
    {
        self.connected.held.next(self.alloc, self.codec)
    }

    /// Whether [`TcpInput::next`] would give an event: whether a whole line is held of what was read. It looks at no connection, and
    /// takes no memory.
    pub fn holds(&self) -> bool
        ensures { (result ≡ false) ↔ (lines_of self.now ≡ []) }
    {
        self.connected.held.holds()
    }
}

// The answer of a poll, by whether a line is held, whether no more connections will come, and whether none is open.
fn answer(taken: Result<bool, AllocError>, over: bool, none: bool) -> Result<Got, PollFault>
    ensures { result ≡ poll_answer taken over none }
{
    match taken {
        Ok(true) => Ok(Got::Lines),
        Ok(false) if over && none => Ok(Got::End),
        Ok(false) => Ok(Got::NotYet),
        Err(_) => Err(PollFault::Memory),
    }
}
