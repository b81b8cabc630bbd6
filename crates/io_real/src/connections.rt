// The connections that are open.
ghost use Rattle.std.specs.Prelude.{◌≡◌, ◌≤◌, ◌<◌, [], ◌∷◌, ◌++◌, Ok, false, IfSome, OnOk, OnErr, map, length};
ghost use Rattle.io_traits.specs.Pieces.{IfBytes};
ghost use Rattle.io_real.specs.Adapters.{no_counts};
ghost use Rattle.io_real.specs.Links.{EndHasRoom, counted, is_open, open_of, others, place_from};

use crate::stdin_sources::StdinSource;
use io_traits::{Failed, Source, Step};
use std::alloc::{AllocError, Global};
use std::io::Read;
use std::marker::Model;

/// A connection: its number, and where its bytes come from.
#[derive(Drop)]
struct Connection<S> {
    number: u32,
    source: StdinSource<S>,
}

/// The connections that are open. A contract sees their numbers and counts.
#[derive(Drop)]
pub struct Connections<S> {
    members: Vec<Connection<S>>,
}

impl<S> Model for Connections<S> {
    ghost use Rattle.std.specs.Prelude.{List, map};
    ghost use Rattle.io_real.specs.Links.{Open, open_of};

    ghost Value = { List Open };

    ghost view = { λ s. map open_of s.members.items };
}

impl<S: Drop> Connections<S> {
    pub fn new(alloc: Global) -> Connections<S>
        ensures { result ≡ [] }
    {
        Connections {
            members: Vec::new(alloc),
        }
    }

    /// Makes room for one more.
    pub fn reserve(&mut self) -> Result<(), AllocError>
        ensures { self.new ≡ self.old }
    {
        self.members.reserve(1)
    }

    pub fn push(&mut self, number: u32, stream: S) -> Result<(), AllocError>
        ensures ok { OnOk result (self.new ≡ self.old ++ (number, no_counts) ∷ []) }
        ensures err { OnErr result (self.new ≡ self.old) }
    {
        let source = StdinSource::new(stream);
        match self.members.push(Connection { number, source }) {
            Ok(()) => Ok(()),
            Err(_) => Err(AllocError),
        }
    }

    /// Closes a connection.
    pub fn close(&mut self, conn: u32)
        ensures { self.new ≡ others conn self.old }
    {
        self.members.retain(|connection| connection.number != conn);
    }
}

impl<S: Read + Drop> Connections<S> {
    /// Reads from a connection. One that isn't open is at its end.
    pub fn read(&mut self, conn: u32, into: &mut [u8]) -> Result<Step, Failed>
        ensures within { IfBytes result (λ n. n ≤ length into.old) }
        ensures some { IfBytes result (λ n. 0 < length into.old → 0 < n) }
        ensures state { self.new ≡ counted conn result self.old }
        ensures closed { is_open conn self.old ≡ false → result ≡ Ok Step.End }
        ensures room { EndHasRoom (is_open conn self.old) result into.old }
    {
        match place_of(&self.members, conn) {
            Some(place) => self.members[place].source.read(into),
            None => Ok(Step::End),
        }
    }
}

// The place of a connection.
fn place_of<S>(members: &[Connection<S>], conn: u32) -> Option<usize>
    ensures place { result ≡ place_from 0 conn (map open_of members.now) }
    ensures within { IfSome result (λ place. place < length members.now) }
{
    for place in 0..members.len() {
        if members[place].number == conn {
            return Some(place);
        }
    }
    None
}
