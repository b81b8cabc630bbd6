// Where connections are taken.
use plain_data::Text;
use std::alloc::Global;
use std::io::{self, ErrorKind};
use std::net::{Net, OpenListener, OpenStream, TcpListener};

/// A socket that listens on a host and a port.
#[derive(Drop)]
struct Listening<L> {
    host: Text,
    port: u16,
    listener: L,
}

/// The sockets that listen, one for each host and port.
#[derive(Drop)]
pub struct Listeners<R: Net> {
    rt: R,
    alloc: Global,
    sockets: Vec<Listening<R::Listener>>,
}

impl<R: Net> Listeners<R> {
    pub fn new(alloc: Global, rt: R) -> Listeners<R> {
        Listeners {
            rt,
            alloc,
            sockets: Vec::new(alloc),
        }
    }

    /// The next connection to a host and port, whose reads don't wait. It listens there if it doesn't
    /// yet. Where there is none so far, it is `ErrorKind::WouldBlock`.
    pub fn accept(&mut self, host: &str, port: u16) -> io::Result<R::Stream> {
        if let Some(listener) = self.listener(host, port) {
            return next(listener);
        }
        self.sockets.reserve(1)?;
        let name = Text::of(self.alloc, host)?;
        let listener = TcpListener::bind(&self.rt, (host, port))?;
        listener.set_nonblocking(true)?;
        let first = next(&listener);
        self.sockets.push(Listening {
            host: name,
            port,
            listener,
        })?;
        first
    }

    // The socket that listens on a host and port.
    fn listener(&self, host: &str, port: u16) -> Option<&R::Listener> {
        for listening in &self.sockets {
            if listening.port == port && listening.host.as_str() == host {
                return Some(&listening.listener);
            }
        }
        None
    }
}

fn next<L: OpenListener<Stream: OpenStream>>(listener: &L) -> io::Result<L::Stream> {
    let (stream, _) = listener.accept()?;
    stream.set_nonblocking(true)?;
    Ok(stream)
}
