//! The parts of a poll.

ghost use Rattle.std.specs.Prelude.{◌≡◌, [], IsOk};
ghost use Rattle.in_tcp.specs.Asks.{Looked};
ghost use Rattle.in_tcp.specs.Reads.{AllCame, ReadEach, Rising};
ghost use Rattle.in_tcp.specs.Took.{Took, is_none};

use crate::receive_buffer::ReceiveBuffer;
use in_lines::PollFault;
use io_traits::{Come, Links};
use plain_data::Instant;
use std::alloc::{AllocError, Global};

/// How many connections of an input may be open.
pub const CONNECTION_LIMIT: usize = 64;

/// The connections that are open, by their numbers, and what came over connections.
#[derive(Drop)]
pub(crate) struct Connected {
    pub connections: Vec<u32>,
    pub held: ReceiveBuffer,
}

impl Connected {
    pub(crate) fn new(alloc: Global) -> Connected
        ensures connections { result.connections.items ≡ [] }
        ensures held { result.held ≡ record { rests = []; pieces = [] } }
    {
        Connected {
            connections: Vec::new(alloc),
            held: ReceiveBuffer::new(alloc),
        }
    }

    /// Whether no connection is open.
    pub(crate) fn is_unconnected(&self) -> bool
        ensures { result ≡ is_none self.now.connections.items }
    {
        self.connections.is_empty()
    }

    /// Looks for a connection, unless as many as may be are open, and says whether no more will come.
    pub(crate) fn look<L: Links>(
        &mut self,
        host: &str,
        port: u16,
        links: &mut L,
    ) -> Result<bool, PollFault>
        ensures looked { Looked L.Links host.now port self.old.connections.items self.new.connections.items links.old links.new result }
        ensures held { self.new.held ≡ self.old.held }
    {
        if self.connections.len() >= CONNECTION_LIMIT {
            return Ok(false);
        }
        self.connections.reserve(1)?;
        match links.accept(host, port) {
            Ok(Come::Conn(conn)) => {
                self.connections.push_reserved(conn);
                Ok(false)
            }
            Ok(Come::NotYet) => Ok(false),
            Ok(Come::Ended) => Ok(true),
            Err(_) => Err(PollFault::Fault),
        }
    }

    /// Reads each open connection, and says whether a whole line is held then.
    pub(crate) fn take<L: Links>(
        &mut self,
        links: &mut L,
        moment: Instant,
    ) -> Result<bool, AllocError>
        requires came { AllCame (L.came links.old) self.old.connections.items }
        requires rising { Rising self.old.connections.items }
        ensures { Took L.Links moment self.old self.new links.old links.new result }
    {
        self.read_each(links, moment)?;
        Ok(self.held.find()?.is_some())
    }

    // Reads each open connection, and leaves out those that this closed.
    fn read_each<L: Links>(&mut self, links: &mut L, moment: Instant) -> Result<(), AllocError>
        requires came { AllCame (L.came links.old) self.old.connections.items }
        requires rising { Rising self.old.connections.items }
        ensures read { ReadEach L.Links moment self.old.connections.items self.new.connections.items self.old.held.pieces self.new.held.pieces links.old links.new (IsOk result) }
        ensures rests { self.new.held.rests ≡ self.old.held.rests }
    {
        let mut place = 0;
        while place < self.connections.len() {
            let conn = self.connections[place];
            if self.held.pieces.read(links, conn, moment)? {
                self.connections.remove(place);
            } else {
                place += 1;
            }
        }
        Ok(())
    }
}
