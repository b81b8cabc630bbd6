// A sink over a buffered writer such as stdout.
ghost use Rattle.std.specs.Prelude.{◌≡◌, ◌≤◌, ◌<◌, None, IfOk, IsErr, length};
ghost use Rattle.std.specs.Io.KnownBytes.{Keeps, WriteAppends};
ghost use Rattle.io_traits.specs.Counts.{HasCause};
ghost use Rattle.io_real.specs.Adapters.{faults_after};

use crate::fault_counts::fail;
use io_traits::{Failed, Sink};
use std::io::{ErrorKind, Write};
use std::marker::Model;
use std::rt::Clock as RuntimeClock;
use std::thread;
use std::time::Duration;

// How long a write that would block waits before the next try.
const WAIT_MILLIS: u64 = 10;

/// A sink over a writer, such as a `BufWriter` over stdout. A contract sees the
/// writer and its count of faults.
///
/// A write or a flush that a signal cuts short is made again, and so is one that would block
/// (`ErrorKind::WouldBlock`), as on a pipe that is full and doesn't block, after 10 milliseconds.
#[derive(Drop)]
pub struct WriteSink<W, R> {
    rt: R,
    output: W,
    faults: u64,
}

impl<W, R> Model for WriteSink<W, R> {
    ghost use Rattle.io_real.specs.Adapters.{Writing};

    ghost Value = { Writing W };

    ghost view = { λ s. record { output = s.output; faults = s.faults } };
}

impl<W, R> WriteSink<W, R> {
    /// A sink over a writer, and a runtime, or a reference to one, by whose clock it waits.
    pub fn new(rt: R, output: W) -> WriteSink<W, R>
        ensures { result ≡ record { output = output; faults = 0 } }
    {
        WriteSink {
            rt,
            output,
            faults: 0,
        }
    }

    /// How many writes and flushes failed.
    pub fn faults(&self) -> u64
        ensures { result ≡ self.now.faults }
    {
        self.faults
    }
}

impl<W: Write, R: RuntimeClock> Sink for WriteSink<W, R> {
    ghost use Rattle.io_traits.proofs.Growth.{within_untold};

    ghost taken = { λ _. None };

    ghost flushed = { λ _. 0 };

    ghost faults = { λ s. s.faults };

    /// Writes once, and again as often as a signal cuts a write short or it would block. A writer
    /// that takes no byte of a piece that isn't empty failed, as one that gives any other error.
    fn write(&mut self, bytes: &[u8]) -> Result<usize, Failed>
        ensures counts { self.new.faults ≡ faults_after self.old.faults result }
        ensures writer { WriteAppends (W.contents self.old.output) (W.contents self.new.output)
            result bytes.now }

        // What every sink promises.
        ensures within { IfOk result (λ n. n ≤ length bytes.now) }
        ensures some { IfOk result (λ n. 0 < length bytes.now → 0 < n) }
        ensures cause { HasCause self.old.faults self.new.faults (IsErr result) }
    {
        for _ in 0..u64::MAX {
            match self.output.write(bytes) {
                Ok(count) if count > 0 || bytes.is_empty() => return Ok(count),
                Err(error) if error.kind() == ErrorKind::Interrupted => {}
                Err(error) if error.kind() == ErrorKind::WouldBlock => wait(&self.rt),
                _ => break,
            }
        }
        Err(fail(&mut self.faults))
    }

    /// Flushes the writer, and again as often as a signal cuts that short or it would block. With any
    /// other error it failed.
    fn flush(&mut self) -> Result<(), Failed>
        ensures counts { self.new.faults ≡ faults_after self.old.faults result }
        ensures writer { Keeps (W.contents self.old.output) (W.contents self.new.output) }

        // What every sink promises.
        ensures cause { HasCause self.old.faults self.new.faults (IsErr result) }
    {
        for _ in 0..u64::MAX {
            match self.output.flush() {
                Ok(()) => return Ok(()),
                Err(error) if error.kind() == ErrorKind::Interrupted => {}
                Err(error) if error.kind() == ErrorKind::WouldBlock => wait(&self.rt),
                Err(_) => break,
            }
        }
        Err(fail(&mut self.faults))
    }

    ghost flushed_within = { λ _. within_untold 0 };
}

fn wait(rt: &impl RuntimeClock) {
    thread::sleep(rt, Duration::from_millis(WAIT_MILLIS));
}
