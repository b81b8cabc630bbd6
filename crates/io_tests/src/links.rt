// Calls of connections, and what those do that make them.
use crate::answers::CallAnswer;
use crate::words::number;
use io_real::TcpLinks;
use io_traits::{Come, Failed, Step};
use std::alloc::Global;
use std::io::{self, Write};
use std::net::{Net, TcpListener, TcpStream};
use std::thread;
use std::time::Duration;
use table_rows::first_word;

// How long a read waits for bytes that were sent, in milliseconds.
const PATIENCE: u32 = 2_000;

/// Those that make connections, ports that were free, and sockets that listen on some of them.
pub struct Peers {
    ports: Vec<u16>,
    streams: Vec<TcpStream>,
    listeners: Vec<TcpListener>,
}

// Written out, so that it is one call wherever an error is handed on.
impl Drop for Peers {
    fn drop(self) {
        let Peers {
            ports: _ports,
            streams: _streams,
            listeners: _listeners,
        } = self;
    }
}

impl Peers {
    pub fn new(alloc: Global) -> Peers {
        Peers {
            ports: Vec::new(alloc),
            streams: Vec::new(alloc),
            listeners: Vec::new(alloc),
        }
    }

    // The port of this number; 0 where there is none.
    fn port(&self, word: &str) -> u16 {
        match self.ports.get(number(word) as usize) {
            Some(port) => *port,
            None => 0,
        }
    }
}

/// What a call of those answers that make connections.
pub fn peers_answer(rt: &HostRuntime, peers: &mut Peers, call: &str) -> io::Result<CallAnswer> {
    let (call, rest) = first_word(call);
    let (host, rest) = first_word(rest);
    Ok(CallAnswer::made(match call {
        "port" => find_port(rt, peers, host),
        "hold" => hold_port(rt, peers, host),
        "connect" => connect(rt, peers, host, rest),
        "send" => send(peers, host, rest),
        _ => {
            peers.streams.clear();
            Ok(())
        }
    }))
}

// A port that is free gets the next number.
fn find_port(rt: &HostRuntime, peers: &mut Peers, host: &str) -> io::Result<()> {
    let listener = TcpListener::bind(rt, (host, 0_u16))?;
    peers.ports.push(listener.local_addr()?.port())?;
    Ok(())
}

// And so does one on which it listens from then on.
fn hold_port(rt: &HostRuntime, peers: &mut Peers, host: &str) -> io::Result<()> {
    let listener = TcpListener::bind(rt, (host, 0_u16))?;
    peers.ports.push(listener.local_addr()?.port())?;
    peers.listeners.push(listener)?;
    Ok(())
}

fn connect(rt: &HostRuntime, peers: &mut Peers, host: &str, port: &str) -> io::Result<()> {
    let stream = TcpStream::connect(rt, (host, peers.port(port)))?;
    peers.streams.push(stream)?;
    Ok(())
}

fn send(peers: &mut Peers, peer: &str, text: &str) -> io::Result<()> {
    match peers.streams.get_mut(number(peer) as usize) {
        Some(stream) => stream.write_all(text.as_bytes()),
        None => Ok(()),
    }
}

/// What a call of connections answers.
pub fn links_answer(
    rt: &HostRuntime,
    links: &mut TcpLinks<&HostRuntime>,
    peers: &Peers,
    call: &str,
) -> io::Result<CallAnswer> {
    let (call, rest) = first_word(call);
    let (word, rest) = first_word(rest);
    match call {
        "look" => Ok(come(links.accept(word, peers.port(rest)))),
        "read" => read(rt, links, connection(word), number(rest)),
        "close" => {
            links.close(connection(word));
            Ok(CallAnswer::Done)
        }
        "faults" => Ok(CallAnswer::Number(links.accept_faults())),
        "waits" => Ok(CallAnswer::Number(links.accept_waits())),
        _ => Ok(CallAnswer::Number(links.came())),
    }
}

// The number of a connection; one that isn't read is 0.
fn connection(word: &str) -> u32 {
    word.parse().unwrap_or(0)
}

fn come(outcome: Result<Come, Failed>) -> CallAnswer {
    match outcome {
        Ok(Come::Conn(number)) => CallAnswer::Number(u64::from(number)),
        Ok(Come::NotYet) => CallAnswer::None,
        Ok(Come::Ended) => CallAnswer::Text("ended"),
        Err(Failed) => CallAnswer::Failed,
    }
}

// Reads into a room of so many bytes, and again until something is found.
fn read(
    rt: &HostRuntime,
    links: &mut TcpLinks<&HostRuntime>,
    conn: u32,
    size: u64,
) -> io::Result<CallAnswer> {
    for _ in 0..PATIENCE {
        let mut room = vec![in rt.alloc(); b'-'; size as usize]?;
        match read_once(links, conn, &mut room) {
            Ok(Step::NotYet) => thread::sleep(rt, Duration::from_millis(1)),
            Ok(Step::Bytes(count)) => return Ok(CallAnswer::read(room, Ok(count))),
            Ok(Step::End) => return Ok(CallAnswer::Text("end")),
            Err(Failed) => return Ok(CallAnswer::Failed),
        }
    }
    Ok(CallAnswer::None)
}

fn read_once(
    links: &mut TcpLinks<&HostRuntime>,
    conn: u32,
    room: &mut [u8],
) -> Result<Step, Failed> {
    if u64::from(conn) < links.came() {
        links.read(conn, room)
    } else {
        Err(Failed)
    }
}
