// Hosts that are asked over TCP, with a connection for each request.
ghost use Rattle.std.specs.Prelude.{◌≡◌, None};

use crate::peer::{Peer, PeerFault};
use bulk_replies::is_whole;
use std::io::{self, ErrorKind, Read, Write};
use std::marker::Model;
use std::net::{Net, OpenStream, TcpStream, ToSocketAddrs};
use std::time::Duration;

/// How many seconds each attempt to connect, each read and each write may wait.
const LIMIT_SECONDS: u64 = 10;

/// How many bytes a reply may have.
const LONGEST_REPLY: usize = 16 * 1024 * 1024;

/// How many bytes a read takes at most.
const PIECE: usize = 16 * 1024;

/// How many reads a reply may take. Each gives a byte at least, but where a signal cuts it short.
const MOST_READS: usize = 2 * LONGEST_REPLY;

/// Hosts that are asked over TCP, by a connection for each request. A contract sees how often they failed.
///
/// An attempt to connect, a read and a write fail after 10 seconds each; the name of a host is looked up without a limit. A
/// reply ends where its head says, or else where the host closes the connection. One of more than 16 MiB is a fault.
#[derive(Drop)]
pub struct TcpPeer<R> {
    net: R,
    faults: u64,
}

impl<R> Model for TcpPeer<R> {
    ghost use Rattle.std.specs.Prelude.{ℕ};

    ghost Value = { ℕ };

    ghost view = { λ s. s.faults };
}

impl<R: Net> TcpPeer<R> {
    /// A peer over a runtime, or a reference to one.
    pub fn new(net: R) -> TcpPeer<R>
        ensures { result ≡ 0 }
    {
        TcpPeer { net, faults: 0 }
    }

    /// How often it failed.
    pub fn faults(&self) -> u64
        ensures { result ≡ self.now }
    {
        self.faults
    }
}

impl<R: Net + Drop> Peer for TcpPeer<R> {
    ghost asked = { λ _. None };

    ghost faults = { λ s. s };

    fn ask(&mut self, host: &str, request: &[u8], reply: &mut Vec<u8>) -> Result<(), PeerFault> {
        match exchange(&self.net, host, request, reply) {
            Ok(()) => Ok(()),
            Err(error) if error.kind() == ErrorKind::OutOfMemory => Err(PeerFault::Memory),
            Err(_) => {
                self.faults = self.faults.saturating_add(1);
                Err(PeerFault::Failed)
            }
        }
    }
}

// Sends a request by a connection of its own, and takes the reply.
fn exchange<R: Net>(net: &R, host: &str, request: &[u8], reply: &mut Vec<u8>) -> io::Result<()> {
    let limit = Duration::from_secs(LIMIT_SECONDS);
    let mut stream = connect(net, host, limit)?;
    stream.set_read_timeout(Some(limit))?;
    stream.set_write_timeout(Some(limit))?;
    stream.write_all(request)?;
    reply.clear();
    take_reply(&mut stream, reply)
}

// Connects to the first address of a host that takes the connection.
fn connect<R: Net>(net: &R, host: &str, limit: Duration) -> io::Result<R::Stream> {
    let mut last = io::Error::from(ErrorKind::InvalidInput);
    for address in host.to_socket_addrs(net)? {
        match TcpStream::connect_timeout(net, &address, limit) {
            Ok(stream) => return Ok(stream),
            Err(error) => last = error,
        }
    }
    Err(last)
}

// Reads a reply until it is whole or the stream ends.
fn take_reply<S: Read>(stream: &mut S, reply: &mut Vec<u8>) -> io::Result<()> {
    let mut piece = [0; PIECE];
    for _ in 0..MOST_READS {
        match stream.read(&mut piece) {
            Ok(0) => return Ok(()),
            Ok(count) => {
                add_piece(reply, &piece[..count])?;
                if is_whole(reply) {
                    return Ok(());
                }
            }
            Err(error) if error.kind() == ErrorKind::Interrupted => {}
            Err(error) => return Err(error),
        }
    }
    Err(io::Error::from(ErrorKind::InvalidData))
}

// Adds a piece of a reply, if it doesn't get too long.
fn add_piece(reply: &mut Vec<u8>, piece: &[u8]) -> io::Result<()> {
    if piece.len() > LONGEST_REPLY.saturating_sub(reply.len()) {
        return Err(io::Error::from(ErrorKind::InvalidData));
    }
    reply.extend_from_slice(piece)?;
    Ok(())
}
