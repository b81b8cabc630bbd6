// A generator that is polled: each poll makes up to 125 of its events.
ghost use Rattle.std.specs.Prelude.{◌≡◌, IfOk, OnOk, OnErr};
ghost use Rattle.line_inputs.specs.Generating as spec;

use event_tree::Event;
use in_lines::{Generator, Got, Progress};
use plain_data::Instant;
use std::alloc::{AllocError, Global};
use std::marker::Model;

/// How many events a poll of a generator makes at most.
pub const POLL_LIMIT: u64 = 125;

/// A generator that is polled as other inputs are. Its events have its own settings already.
pub struct GeneratedInput {
    alloc: Global,
    generator: Generator,
    progress: Progress,
    /// How many events its last poll may still make.
    left: u64,
    /// The moment of that poll.
    moment: Instant,
}

// Written out, so that it is one call wherever an error is handed on while one is held.
impl Drop for GeneratedInput {
    fn drop(self) {
        let GeneratedInput {
            alloc: _,
            generator: _generator,
            progress: _,
            left: _,
            moment: _,
        } = self;
    }
}

impl Model for GeneratedInput {
    ghost use Rattle.std.specs.Prelude.{◌≡◌};
    ghost use Rattle.in_lines.specs.Generators.{progress_at};
    ghost use Rattle.line_inputs.specs.Generating.{Generating};

    ghost Value = { Generating };

    ghost view = { λ g. record {
      generator = g.generator;
      given = g.progress.events;
      left = g.left;
      moment = g.moment;
    } };

    ghost invariant = { λ g. g.progress ≡ progress_at g.generator.lines g.progress.events };
}

impl GeneratedInput {
    /// A generator of which no poll was made. Takes no memory.
    pub fn new(alloc: Global, generator: Generator) -> GeneratedInput
        ensures { result ≡ spec.begun generator }
    {
        let progress = generator.start();
        GeneratedInput {
            alloc,
            generator,
            progress,
            left: 0,
            moment: Instant::epoch(),
        }
    }

    /// Makes up to 125 events of this moment, unless it has some of its last poll still to give, or gave all. It is `Lines` where it
    /// has one to give, and else `End`. Takes no memory.
    pub fn poll(&mut self, moment: Instant) -> Got
        ensures polled { self.new ≡ spec.polled moment self.old }
        ensures got { result ≡ spec.got_of self.new }
    {
        if self.holds() {
            return Got::Lines;
        }
        if self.is_ended() {
            return Got::End;
        }
        self.left = POLL_LIMIT;
        self.moment = moment;
        Got::Lines
    }

    /// The next event of the last poll; none exactly where it has none to give. The only error is want of memory, and then it is as it
    /// was.
    pub fn next(&mut self) -> Result<Option<Event>, AllocError>
        ensures event { IfOk result (λ event. event ≡ spec.next_event self.old) }
        ensures passed { OnOk result (self.new ≡ spec.passed self.old) }
        ensures err { OnErr result (self.new ≡ self.old) }
    {
        if !self.holds() {
            return Ok(None);
        }
        let event = self
            .generator
            .next(self.alloc, self.moment, &mut self.progress)?;
        self.left -= 1;
        Ok(event)
    }

    /// Whether it has an event of its last poll still to give. Takes no memory.
    pub fn holds(&self) -> bool
        ensures { result ≡ spec.holds self.now }
    {
        self.left > 0 && !self.is_ended()
    }

    /// Whether it gave all its events. Takes no memory.
    pub fn is_ended(&self) -> bool
        ensures { result ≡ spec.is_over self.now }
    {
        self.generator.gave_all(self.progress.events)
    }
}
