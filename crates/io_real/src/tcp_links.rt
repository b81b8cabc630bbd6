// TCP connections that other programs make to this machine.
ghost use Rattle.std.specs.Prelude.{◌≡◌, ◌≤◌, ◌<◌, ◌+◌, ◌^◌, None, Ok, false, IsErr, OnOk, OnErr, [], length};
ghost use Rattle.io_traits.specs.Connections.{IsNumbered};
ghost use Rattle.io_traits.specs.Counts.{HasCause};
ghost use Rattle.io_traits.specs.Pieces.{IfBytes};

use crate::connections::Connections;
use crate::fault_counts::fail;
use crate::listeners::Listeners;
use io_traits::{Come, Failed, Links, Step};
use std::alloc::Global;
use std::io::{self, ErrorKind};
use std::marker::Model;
use std::net::Net;

/// TCP connections that other programs make to this machine. A contract sees how many came, and the
/// counts of faults and waits: those of the looks, and those of each connection that is open.
///
/// No call waits for another program, but that the first look on a host may wait for its address.
pub struct TcpLinks<R: Net> {
    listeners: Listeners<R>,
    connections: Connections<R::Stream>,
    came: u64,
    faults: u64,
    waits: u64,
}

// Written out, so that it is one call wherever an error is handed on.
impl<R: Net + Drop> Drop for TcpLinks<R> {
    fn drop(self) {
        let TcpLinks {
            listeners: _listeners,
            connections: _connections,
            came: _,
            faults: _,
            waits: _,
        } = self;
    }
}

impl<R: Net> Model for TcpLinks<R> {
    ghost use Rattle.io_real.specs.Links.{LinkCounts, AllCame};

    ghost Value = { LinkCounts };

    ghost view = { λ s. record {
      came = s.came;
      connections = s.connections;
      accepts = record { faults = s.faults; waits = s.waits };
    } };

    ghost invariant = { λ s. AllCame s.came s.connections };
}

impl<R: Net> TcpLinks<R> {
    ghost use Rattle.io_real.specs.Adapters.{no_counts};
    ghost use Rattle.io_real.specs.Links.{EndHasRoom, after_accept, after_close, after_read, faults_of, is_open, waits_of, with_next};

    /// Connections over a runtime, or a reference to one. It listens nowhere so far.
    pub fn new(alloc: Global, rt: R) -> TcpLinks<R>
        ensures { result ≡ record { came = 0; connections = []; accepts = no_counts } }
    {
        TcpLinks {
            listeners: Listeners::new(alloc, rt),
            connections: Connections::new(alloc),
            came: 0,
            faults: 0,
            waits: 0,
        }
    }

    /// How many connections came.
    pub fn came(&self) -> u64
        ensures { result ≡ self.now.came }
    {
        self.came
    }

    /// How often a look failed.
    pub fn accept_faults(&self) -> u64
        ensures { result ≡ self.now.accepts.faults }
    {
        self.faults
    }

    /// How often a look found none yet.
    pub fn accept_waits(&self) -> u64
        ensures { result ≡ self.now.accepts.waits }
    {
        self.waits
    }

    // Takes the next connection to a host and port, which gets this number.
    fn take(&mut self, number: u32, host: &str, port: u16) -> io::Result<()>
        requires { number ≡ self.old.came }
        ensures ok { OnOk result (self.new ≡ with_next self.old number) }
        ensures err { OnErr result (self.new ≡ self.old) }
    {
        self.connections.reserve()?;
        let stream = self.listeners.accept(host, port)?;
        self.connections.push(number, stream)?;
        self.came += 1;
        Ok(())
    }

    /// The next connection to a host and a port, on which it listens from the first look there on. A
    /// look found none yet where none waits, where a signal cut it short, and where a connection broke
    /// before it was taken; with any other error, and without memory for the connection, it failed.
    /// After 2^32 connections no more come.
    pub fn accept(&mut self, host: &str, port: u16) -> Result<Come, Failed>
        ensures state { self.new ≡ after_accept self.old result }
        ensures ended { result ≡ Ok Come.Ended → 2 ^ 32 ≤ self.old.came }
        ensures number { IsNumbered result self.old.came self.new.came }
        ensures cause { HasCause self.old.accepts.faults self.new.accepts.faults (IsErr result) }
        ensures waits { HasCause self.old.accepts.waits self.new.accepts.waits
            (result ≡ Ok Come.NotYet) }
    {
        let Ok(number) = u32::try_from(self.came) else {
            return Ok(Come::Ended);
        };
        match self.take(number, host, port) {
            Ok(()) => Ok(Come::Conn(number)),
            Err(error) if found_none(error.kind()) => {
                self.waits = self.waits.saturating_add(1);
                Ok(Come::NotYet)
            }
            Err(_) => Err(fail(&mut self.faults)),
        }
    }

    /// Reads as a `StdinSource` does, but waits for nothing. A connection that was closed is at its
    /// end.
    pub fn read(&mut self, conn: u32, into: &mut [u8]) -> Result<Step, Failed>
        requires { conn < self.old.came }
        ensures state { self.new ≡ after_read self.old conn result }
        ensures closed { is_open conn self.old.connections ≡ false → result ≡ Ok Step.End }
        ensures room { EndHasRoom (is_open conn self.old.connections) result into.old }
        ensures within { IfBytes result (λ n. n ≤ length into.old) }
        ensures some { IfBytes result (λ n. 0 < length into.old → 0 < n) }
        ensures cause { HasCause (faults_of self.old conn) (faults_of self.new conn)
            (IsErr result) }
        ensures waits { HasCause (waits_of self.old conn) (waits_of self.new conn)
            (result ≡ Ok Step.NotYet) }
    {
        self.connections.read(conn, into)
    }

    /// Closes a connection, and forgets its counts.
    pub fn close(&mut self, conn: u32)
        ensures state { self.new ≡ after_close self.old conn }
        ensures faults { faults_of self.old conn ≤ faults_of self.new conn }
        ensures waits { waits_of self.old conn ≤ waits_of self.new conn }
    {
        self.connections.close(conn)
    }
}

impl<R: Net> Links for TcpLinks<R> {
    ghost use Rattle.io_real.specs.Links.{faults_of, waits_of};

    ghost looks = { λ _. None };

    ghost came = { λ s. s.came };

    ghost coming = { λ _. None };

    ghost given = { λ _. None };

    ghost left = { λ _ _. None };

    ghost accept_faults = { λ s. s.accepts.faults };

    ghost accept_waits = { λ s. s.accepts.waits };

    ghost faults = { λ s conn. faults_of s conn };

    ghost waits = { λ s conn. waits_of s conn };

    fn accept(&mut self, host: &str, port: u16) -> Result<Come, Failed> {
        self.accept(host, port)
    }

    fn read(&mut self, conn: u32, into: &mut [u8]) -> Result<Step, Failed> {
        self.read(conn, into)
    }

    fn close(&mut self, conn: u32) {
        self.close(conn)
    }
}

// Whether a look that ended with such an error found no connection yet, and a later one may. Linux
// hands on here what broke a connection before it was taken (accept(2), "Error handling").
fn found_none(kind: ErrorKind) -> bool {
    matches!(
        kind,
        ErrorKind::WouldBlock
            | ErrorKind::Interrupted
            | ErrorKind::ConnectionAborted
            | ErrorKind::NetworkDown
            | ErrorKind::NetworkUnreachable
            | ErrorKind::HostUnreachable
    )
}
