// A source over a reader such as stdin.
ghost use Rattle.std.specs.Prelude.{◌≡◌, ◌≤◌, ◌<◌, None, Ok, IsErr, length};
ghost use Rattle.io_traits.specs.Counts.{HasCause};
ghost use Rattle.std.specs.Io.KnownBytes.{Consumes, IsAtEnd};
ghost use Rattle.io_traits.specs.Pieces.{bytes_in, gave, IfBytes};
ghost use Rattle.io_real.specs.Adapters.{counts_after, no_counts};

use crate::fault_counts::fail;
use io_traits::{Failed, Source, Step};
use std::io::{ErrorKind, Read};
use std::marker::Model;

/// A source over a reader, such as stdin as `HostRuntime::stdin` gives it. A contract sees the reader and
/// its counts.
///
/// Each read is one read of the reader, straight into the room. It may wait, as a read of a pipe or
/// a terminal does.
#[derive(Drop)]
pub struct StdinSource<R> {
    input: R,
    faults: u64,
    waits: u64,
}

impl<R> Model for StdinSource<R> {
    ghost use Rattle.io_real.specs.Adapters.{Reading};

    ghost Value = { Reading R };

    ghost view = { λ s. record {
      input = s.input;
      counts = record { faults = s.faults; waits = s.waits };
    } };
}

impl<R> StdinSource<R> {
    /// A source over a reader, which it reads itself: no buffer is between them.
    pub fn new(input: R) -> StdinSource<R>
        ensures { result ≡ record { input = input; counts = no_counts } }
    {
        StdinSource {
            input,
            faults: 0,
            waits: 0,
        }
    }

    /// How many reads failed.
    pub fn faults(&self) -> u64
        ensures { result ≡ self.now.counts.faults }
    {
        self.faults
    }

    /// How many reads found nothing yet.
    pub fn waits(&self) -> u64
        ensures { result ≡ self.now.counts.waits }
    {
        self.waits
    }
}

impl<R: Read> Source for StdinSource<R> {
    ghost given = { λ _. None };

    ghost left = { λ _. None };

    ghost faults = { λ s. s.counts.faults };

    ghost waits = { λ s. s.counts.waits };

    /// Reads once. It is the end where the reader gives no byte into a room that isn't empty. A read
    /// that would block (`ErrorKind::WouldBlock`), or that a signal cut short
    /// (`ErrorKind::Interrupted`), found nothing yet; with any other error it failed.
    fn read(&mut self, into: &mut [u8]) -> Result<Step, Failed>
        ensures counts { self.new.counts ≡ counts_after self.old.counts result }
        ensures reader { Consumes (R.remaining self.old.input) (R.remaining self.new.input)
            (bytes_in (gave result into.new)) }
        ensures reader_end { result ≡ Ok Step.End → IsAtEnd (R.remaining self.new.input) }
        ensures room { result ≡ Ok Step.End → 0 < length into.old }

        // What every source promises.
        ensures within { IfBytes result (λ n. n ≤ length into.old) }
        ensures some { IfBytes result (λ n. 0 < length into.old → 0 < n) }
        ensures cause { HasCause self.old.counts.faults self.new.counts.faults (IsErr result) }
        ensures waits { HasCause self.old.counts.waits self.new.counts.waits
            (result ≡ Ok Step.NotYet) }
    {
        match self.input.read(into) {
            Ok(0) if !into.is_empty() => Ok(Step::End),
            Ok(count) => Ok(Step::Bytes(count)),
            Err(error) => match error.kind() {
                ErrorKind::WouldBlock | ErrorKind::Interrupted => {
                    self.waits = self.waits.saturating_add(1);
                    Ok(Step::NotYet)
                }
                _ => Err(fail(&mut self.faults)),
            },
        }
    }
}
