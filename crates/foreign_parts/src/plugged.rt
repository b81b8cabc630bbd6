// Boxes with the numbers that a rack gave them.
ghost use Rattle.std.specs.Prelude.{IfOk};

use crate::filter::{ForeignFilter, Verdict};
use crate::output::ForeignOutput;
use config_tree::{FromFault, Settings};
use event_tree::Event;
use std::alloc::AllocError;

/// What the rack holds: a box with its number, which reads settings.
pub trait Plugged: Drop {
    ghost use Rattle.std.specs.Prelude.{◌≡◌, ℕ, Option};
    ghost use Rattle.config_tree.specs.Joining.{Entries};
    ghost use Rattle.config_tree.specs.declared.fault.SettingFault.{SettingFault};
    ghost use Rattle.foreign_parts.specs.Configuring.{Answers};

    /// The number that it has of its own.
    ghost number: { Self → ℕ };

    /// Why it refuses settings; none where it takes them.
    ghost refusal: { Self → Entries → Option SettingFault };

    fn configure(&mut self, settings: &Settings) -> Result<(), FromFault>
        ensures answers { Answers result (refusal self.old settings.now.list) }
        ensures refusal { refusal self.new ≡ refusal self.old }
        ensures number { number self.new ≡ number self.old };

    /// Tells its number.
    fn own_number(&self) -> u64
        ensures { result ≡ number self.now };
}

/// What a boxed filter is to a kit: it answers to an event with a verdict.
pub trait FilterCall: Drop {
    ghost use Rattle.event_tree.specs.Events.{Ev};
    ghost use Rattle.foreign_parts.specs.declared.filter.Verdict.{Verdict};

    /// Whether it may make this of an event.
    ghost may: { Self → Ev → Verdict → Type 0 };

    /// What it makes of an event.
    fn ask(&self, event: &Event) -> Result<Verdict, AllocError>
        ensures { IfOk result (may self.now event.now) };
}

/// A boxed filter with the number that it has of its own.
#[derive(Drop)]
pub struct PluggedFilter {
    pub number: u64,
    pub filter: Box<dyn ForeignFilter>,
}

/// A boxed output with the number that it has of its own.
#[derive(Drop)]
pub struct PluggedOutput {
    pub number: u64,
    pub output: Box<dyn ForeignOutput>,
}

impl Plugged for PluggedFilter {
    ghost number = { λ p. p.number };

    ghost refusal = { λ p. (ForeignFilter-box p.filter).refusal p.filter.value };

    fn configure(&mut self, settings: &Settings) -> Result<(), FromFault> {
        self.filter.configure(settings)
    }

    fn own_number(&self) -> u64 {
        self.number
    }
}

impl FilterCall for PluggedFilter {
    ghost may = { λ p. (ForeignFilter-box p.filter).may p.filter.value };

    fn ask(&self, event: &Event) -> Result<Verdict, AllocError> {
        self.filter.apply(event)
    }
}

impl Plugged for PluggedOutput {
    ghost number = { λ p. p.number };

    ghost refusal = { λ p. (ForeignOutput-box p.output).refusal p.output.value };

    fn configure(&mut self, settings: &Settings) -> Result<(), FromFault> {
        self.output.configure(settings)
    }

    fn own_number(&self) -> u64 {
        self.number
    }
}
