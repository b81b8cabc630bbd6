// Connections in memory, which give listed pieces.
ghost use Rattle.std.specs.Prelude.{◌≡◌, ◌≤◌, ◌<◌, Some, [], Ok, IfOk, IsErr, OnOk, OnErr, IsTrue, map, filter, length, take};
ghost use Rattle.io_traits.specs.Counts.{HasCause, Rose, one_more};
ghost use Rattle.io_traits.specs.Pieces.{End, bytes_in, gave, IfBytes};
ghost use Rattle.io_memory.specs.Sources.{written_over};
ghost use Rattle.io_memory.specs.Links.{sent_of, first_from};

use crate::memory_sources::SourceEvent;
use crate::scripts::Script;
use crate::told_looks::ToldLooks;
use io_traits::{Come, Failed, Links, Step};
use plain_data::Text;
use std::alloc::{AllocError, Global};
use std::collections::VecDeque;
use std::marker::Model;

/// What a connection in memory gave, or is to give.
#[derive(Drop)]
pub struct ConnectionEvent {
    /// The number of the connection.
    pub conn: u32,
    pub gave: SourceEvent,
}

/// How a connection in memory stands.
#[derive(Clone, Copy, Debug, PartialEq, Eq)]
pub struct ConnState {
    /// Whether more may come: its end was not read, and it was not closed.
    pub is_open: bool,
    /// How often a read of it failed.
    pub faults: u64,
    /// How often a read of it found nothing yet.
    pub waits: u64,
}

/// Connections in memory, which tell what they hold.
///
/// Their pieces stand in one list, and a connection gives a piece once it is the first that is left.
/// Nothing is left of a connection whose end was read, and of one that was closed.
pub struct MemoryLinks {
    looks: ToldLooks,
    connections: u32,
    came: Vec<ConnState>,
    given: Vec<ConnectionEvent>,
    left: VecDeque<ConnectionEvent>,
    accept_faults: u64,
    accept_waits: u64,
    script: Script,
}

// Written out, so that it is one call wherever an error is handed on.
impl Drop for MemoryLinks {
    fn drop(self) {
        let MemoryLinks {
            looks: _looks,
            connections: _,
            came: _came,
            given: _given,
            left: _left,
            accept_faults: _,
            accept_waits: _,
            script: _script,
        } = self;
    }
}

impl Model for MemoryLinks {
    ghost use Rattle.std.specs.Prelude.{map};
    ghost use Rattle.io_memory.specs.Links.{Linking, AllFull, sent_of};

    ghost Value = { Linking };

    ghost view = { λ s. record {
      looks = s.looks;
      connections = s.connections;
      came = s.came.items;
      given = map sent_of s.given.items;
      left = map sent_of s.left.items;
      accept_faults = s.accept_faults;
      accept_waits = s.accept_waits;
      script = s.script;
    } };

    ghost invariant = { λ s. AllFull (map sent_of s.left.items) };
}

impl MemoryLinks {
    ghost use Rattle.std.specs.Option.{option_map};
    ghost use Rattle.io_memory.specs.Links.{IsFilled, sent_of, is_full, beginning, state_of, faults_of, waits_of, with_state, one_fault, one_wait, next_from, step_of, found, NotesLook, looked, next_come, shut, taken_off, after_accept, after_step, after_read, first_from};
    ghost use Rattle.io_memory.specs.Scripts.{fails_next};

    /// So many connections, which come one at each look, with these pieces. Pieces without bytes are
    /// left out.
    pub fn new(
        alloc: Global,
        connections: u32,
        mut pieces: Vec<ConnectionEvent>,
        script: Script,
    ) -> MemoryLinks
        ensures { result
            ≡ beginning connections (filter is_full (map sent_of pieces.items)) script }
    {
        pieces.retain(|sent| sent.is_full());
        MemoryLinks {
            looks: ToldLooks::new(alloc),
            connections,
            came: Vec::new(alloc),
            given: Vec::new(alloc),
            left: VecDeque::from_vec(pieces),
            accept_faults: 0,
            accept_waits: 0,
            script,
        }
    }

    /// The host and the port of each look, in their order; None once it found no memory to keep one.
    pub fn looks(&self) -> Option<&[(Text, u16)]>
        ensures { option_map (λ looks. looks.now) result ≡ self.now.looks }
    {
        self.looks.told()
    }

    /// How many connections came.
    pub fn came(&self) -> u64
        ensures { result ≡ length self.now.came }
    {
        self.came.len() as u64
    }

    /// The pieces that the connections gave, in their order.
    pub fn given(&self) -> &[ConnectionEvent]
        ensures { map sent_of result.now ≡ self.now.given }
    {
        &self.given
    }

    /// How many pieces are left.
    pub fn left(&self) -> usize
        ensures { result ≡ length self.now.left }
    {
        self.left.len()
    }

    /// How often a look failed.
    pub fn accept_faults(&self) -> u64
        ensures { result ≡ self.now.accept_faults }
    {
        self.accept_faults
    }

    /// How often a look found none yet.
    pub fn accept_waits(&self) -> u64
        ensures { result ≡ self.now.accept_waits }
    {
        self.accept_waits
    }

    /// How a connection stands. One that didn't come is open and has no counts.
    pub fn state(&self, conn: u32) -> ConnState
        ensures { result ≡ state_of self.now conn }
    {
        match self.came.get(conn as usize) {
            Some(state) => *state,
            None => ConnState {
                is_open: true,
                faults: 0,
                waits: 0,
            },
        }
    }

    /// Its script, which counts the calls but for those that close, the faults and the waits.
    pub fn script(&self) -> &Script
        ensures { result.now ≡ self.now.script }
    {
        &self.script
    }

    fn set_state(&mut self, conn: u32, state: ConnState)
        ensures { self.new ≡ with_state self.old conn state }
    {
        if let Some(came) = self.came.get_mut(conn as usize) {
            *came = state;
        }
    }

    // Counts a read that failed.
    fn fail_read(&mut self, conn: u32) -> Failed
        requires { conn < length self.old.came }
        ensures later { faults_of self.old conn ≤ faults_of self.new conn }
        ensures rose { Rose (faults_of self.old conn) (faults_of self.new conn) }
        ensures state { self.new ≡ one_fault self.old conn }
    {
        let state = self.state(conn);
        self.set_state(
            conn,
            ConnState {
                faults: state.faults.saturating_add(1),
                ..state
            },
        );
        Failed
    }

    // Counts a read that found nothing yet.
    fn wait_read(&mut self, conn: u32)
        requires { conn < length self.old.came }
        ensures later { waits_of self.old conn ≤ waits_of self.new conn }
        ensures rose { Rose (waits_of self.old conn) (waits_of self.new conn) }
        ensures state { self.new ≡ one_wait self.old conn }
    {
        let state = self.state(conn);
        self.set_state(
            conn,
            ConnState {
                waits: state.waits.saturating_add(1),
                ..state
            },
        );
    }

    // Leaves nothing of a connection.
    fn shut(&mut self, conn: u32)
        ensures { self.new ≡ shut self.old conn }
    {
        let state = self.state(conn);
        self.set_state(
            conn,
            ConnState {
                is_open: false,
                ..state
            },
        );
        self.left.retain(|sent| sent.conn != conn);
    }

    // The answer of a read that neither fails nor waits by the script.
    fn next_step(&self, conn: u32, room: usize) -> Step
        ensures step { result ≡ step_of room (next_from self.now conn) }
        ensures some { IfBytes (Ok result) (λ n. 0 < room → 0 < n) }
    {
        if !self.state(conn).is_open {
            return Step::End;
        }
        match self.left.front() {
            Some(sent) if sent.conn == conn => match &sent.gave {
                SourceEvent::Bytes(bytes) => Step::Bytes(room.min(bytes.len())),
                SourceEvent::End => Step::End,
            },
            _ => Step::NotYet,
        }
    }

    // Takes so many bytes off the first piece.
    fn take_off(&mut self, count: usize)
        ensures { self.new ≡ record self.old { left = taken_off count self.old.left } }
    {
        let Some(ConnectionEvent { conn, gave }) = self.left.pop_front() else {
            return;
        };
        if let SourceEvent::Bytes(mut bytes) = gave {
            if count < bytes.len() {
                drop(bytes.drain(..count));
                let gave = SourceEvent::Bytes(bytes);
                self.left
                    .push_front_reserved(ConnectionEvent { conn, gave });
            }
        }
    }

    // Gives the first bytes of the first piece, which is one of this connection. Without memory it
    // changes nothing.
    fn give_bytes(&mut self, conn: u32, count: usize, into: &mut [u8]) -> Result<(), AllocError>
        requires count { count ≤ length (bytes_in (first_from conn self.old.left)) }
        requires room { count ≤ length into.old }
        ensures state { OnOk result (self.new ≡ after_step self.old conn (Step.Bytes count)) }
        ensures room { OnOk result (into.new
            ≡ written_over (take count (bytes_in (first_from conn self.old.left))) into.old) }
        ensures err { OnErr result ((self.new ≡ self.old) × (into.new ≡ into.old)) }
    {
        let bytes = &first_bytes(&self.left, conn)[..count];
        let copy = Vec::from_slice(*self.given.allocator(), bytes)?;
        let gave = SourceEvent::Bytes(copy);
        if self.given.push(ConnectionEvent { conn, gave }).is_err() {
            return Err(AllocError);
        }
        into[..count].copy_from_slice(bytes);
        self.take_off(count);
        Ok(())
    }

    // Gives an end. Without memory it changes nothing.
    fn give_end(&mut self, conn: u32) -> Result<(), AllocError>
        ensures state { OnOk result (self.new ≡ after_step self.old conn Step.End) }
        ensures err { OnErr result (self.new ≡ self.old) }
    {
        let gave = SourceEvent::End;
        if self.given.push(ConnectionEvent { conn, gave }).is_err() {
            return Err(AllocError);
        }
        self.shut(conn);
        Ok(())
    }

    // Gives what a read of a connection finds. Without memory it changes nothing.
    fn give(&mut self, conn: u32, into: &mut [u8]) -> Result<Step, AllocError>
        requires { conn < length self.old.came }
        ensures answer { IfOk result (λ step.
            step ≡ step_of (length into.old) (next_from self.old conn)) }
        ensures some { IfOk result (λ step. IfBytes (Ok step) (λ n. 0 < length into.old → 0 < n)) }
        ensures room { IsFilled result (next_from self.old conn) into.old into.new }
        ensures state { IfOk result (λ step. self.new ≡ after_step self.old conn step) }
        ensures waits { IfOk result (λ step.
            HasCause (waits_of self.old conn) (waits_of self.new conn) (step ≡ Step.NotYet)) }
        ensures err { OnErr result ((self.new ≡ self.old) × (into.new ≡ into.old)) }
    {
        let step = self.next_step(conn, into.len());
        match step {
            Step::Bytes(count) => self.give_bytes(conn, count, into)?,
            Step::End => self.give_end(conn)?,
            Step::NotYet => self.wait_read(conn),
        }
        Ok(step)
    }

    /// Gives the front of the connection's next piece, as much as there is room for. It finds nothing
    /// yet where that piece isn't the first that is left. After its end, and once it is closed, the
    /// connection gives its end again. It fails where its script names the call, and where it finds no
    /// memory for its list of pieces.
    pub fn read(&mut self, conn: u32, into: &mut [u8]) -> Result<Step, Failed>
        requires { conn < length self.old.came }
        ensures named { IsTrue (fails_next self.old.script) → IsErr result }
        ensures answer { IfOk result
            (λ step. step ≡ step_of (length into.old) (found self.old conn)) }
        ensures some { IfBytes result (λ n. 0 < length into.old → 0 < n) }
        ensures room { IsFilled result (found self.old conn) into.old into.new }
        ensures err { OnErr result (into.new ≡ into.old) }
        ensures state { self.new ≡ after_read self.old conn result }
        ensures cause { HasCause (faults_of self.old conn) (faults_of self.new conn)
            (IsErr result) }
        ensures waits { HasCause (waits_of self.old conn) (waits_of self.new conn)
            (result ≡ Ok Step.NotYet) }
    {
        match self.script.look() {
            Ok(true) => {}
            Ok(false) => {
                self.wait_read(conn);
                return Ok(Step::NotYet);
            }
            Err(_) => return Err(self.fail_read(conn)),
        }
        match self.give(conn, into) {
            Ok(Step::NotYet) => {
                self.script.wait();
                Ok(Step::NotYet)
            }
            Ok(step) => Ok(step),
            Err(_) => {
                let _ = self.script.fail();
                Err(self.fail_read(conn))
            }
        }
    }

    /// Gives the next connection, or `Come::Ended` once all came, whatever the host and port, which it
    /// tells. It fails where its script names the call, and where it finds no memory for the
    /// connection.
    pub fn accept(&mut self, host: &str, port: u16) -> Result<Come, Failed>
        ensures looks { NotesLook self.old.looks self.new.looks host.now port }
        ensures named { IsTrue (fails_next self.old.script) → IsErr result }
        ensures comes { IfOk result (λ come. come ≡ next_come self.old) }
        ensures state { self.new ≡ after_accept (looked self.old self.new.looks) result }
        ensures cause { HasCause self.old.accept_faults self.new.accept_faults (IsErr result) }
        ensures waits { HasCause self.old.accept_waits self.new.accept_waits
            (result ≡ Ok Come.NotYet) }
    {
        self.looks.note(host, port);
        self.look()
    }

    // Looks for the next connection.
    fn look(&mut self) -> Result<Come, Failed>
        ensures named { IsTrue (fails_next self.old.script) → IsErr result }
        ensures comes { IfOk result (λ come. come ≡ next_come self.old) }
        ensures state { self.new ≡ after_accept self.old result }
        ensures cause { HasCause self.old.accept_faults self.new.accept_faults (IsErr result) }
        ensures waits { HasCause self.old.accept_waits self.new.accept_waits
            (result ≡ Ok Come.NotYet) }
    {
        match self.script.look() {
            Ok(true) => {}
            Ok(false) => {
                self.accept_waits = self.accept_waits.saturating_add(1);
                return Ok(Come::NotYet);
            }
            Err(_) => return Err(self.fail_accept()),
        }
        let number = self.came.len();
        if number >= self.connections as usize {
            return Ok(Come::Ended);
        }
        let state = ConnState {
            is_open: true,
            faults: 0,
            waits: 0,
        };
        if self.came.push(state).is_err() {
            let _ = self.script.fail();
            return Err(self.fail_accept());
        }
        Ok(Come::Conn(number as u32))
    }

    /// Leaves out the pieces that are left of the connection. Its counts stay. It is no call of the
    /// script.
    pub fn close(&mut self, conn: u32)
        ensures { self.new ≡ shut self.old conn }
    {
        self.shut(conn)
    }

    // Counts a look that failed.
    fn fail_accept(&mut self) -> Failed
        ensures later { self.old.accept_faults ≤ self.new.accept_faults }
        ensures rose { Rose self.old.accept_faults self.new.accept_faults }
        ensures state { self.new
            ≡ record self.old { accept_faults = one_more self.old.accept_faults } }
    {
        self.accept_faults = self.accept_faults.saturating_add(1);
        Failed
    }
}

// The bytes of the first piece, where it is one of this connection.
fn first_bytes(left: &VecDeque<ConnectionEvent>, conn: u32) -> &[u8]
    ensures { result.now ≡ bytes_in (first_from conn (map sent_of left.now.items)) }
{
    match left.front() {
        Some(sent) if sent.conn == conn => match &sent.gave {
            SourceEvent::Bytes(bytes) => bytes,
            SourceEvent::End => &[],
        },
        _ => &[],
    }
}

impl ConnectionEvent {
    ghost use Rattle.io_memory.specs.Links.{sent_of, is_full};

    // Whether it has bytes, or is an end.
    fn is_full(&self) -> bool
        ensures { result ≡ is_full (sent_of self.now) }
    {
        match &self.gave {
            SourceEvent::Bytes(bytes) => !bytes.is_empty(),
            SourceEvent::End => true,
        }
    }
}

impl Links for MemoryLinks {
    ghost use Rattle.io_memory.specs.Links.{coming_of, faults_of, left_of, waits_of};

    ghost looks = { λ s. s.looks };

    ghost came = { λ s. length s.came };

    ghost coming = { λ s. Some (coming_of s) };

    ghost given = { λ s. Some s.given };

    ghost left = { λ s conn. Some (left_of s conn) };

    ghost accept_faults = { λ s. s.accept_faults };

    ghost accept_waits = { λ s. s.accept_waits };

    ghost faults = { λ s conn. faults_of s conn };

    ghost waits = { λ s conn. waits_of s conn };

    fn accept(&mut self, host: &str, port: u16) -> Result<Come, Failed> {
        self.accept(host, port)
    }

    fn read(&mut self, conn: u32, into: &mut [u8]) -> Result<Step, Failed> {
        self.read(conn, into)
    }

    fn close(&mut self, conn: u32) {
        self.close(conn)
    }
}
