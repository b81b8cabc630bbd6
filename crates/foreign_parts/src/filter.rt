// The trait of filters that are handed in as boxes, and their verdicts.
ghost use Rattle.std.specs.Prelude.{◌≡◌, ℕ, Option, IfOk};
ghost use Rattle.io_traits.specs.Counts.{one_more};
ghost use Rattle.config_tree.specs.Joining.{Entries};
ghost use Rattle.config_tree.specs.declared.fault.SettingFault.{SettingFault};
ghost use Rattle.event_tree.specs.Events.{Ev};
ghost use Rattle.foreign_parts.specs.Configuring.{Answers};
ghost use Rattle.foreign_parts.specs.declared.filter.Verdict.{Verdict};

use config_tree::{FromFault, Settings};
use event_tree::{Event, Events};
use std::alloc::AllocError;

/// What a boxed filter made of an event: the events that stand in its place, and whether it
/// matched.
#[derive(Drop)]
pub struct Verdict {
    pub events: Events,
    pub matched: bool,
}

impl Verdict {
    /// The same again.
    pub fn copy(&self) -> Result<Verdict, AllocError>
        ensures { IfOk result (λ copy. copy ≡ self.now) }
    {
        Ok(Verdict {
            events: copies(&self.events)?,
            matched: self.matched,
        })
    }
}

fn copies(events: &Events) -> Result<Events, AllocError>
    ensures { IfOk result (λ copies. copies ≡ events.now) }
{
    let mut copies = Events::with_capacity(events.allocator(), events.len())?;
    for event in events.as_slice() {
        copies.push(event.copy()?)?;
    }
    Ok(copies)
}

/// A filter that is handed in as a box. It can move between threads.
pub trait ForeignFilter: Send + Drop {
    ghost use Rattle.config_tree.specs.Joining.{Entries};
    ghost use Rattle.config_tree.specs.declared.fault.SettingFault.{SettingFault};
    ghost use Rattle.event_tree.specs.Events.{Ev};
    ghost use Rattle.foreign_parts.specs.declared.filter.Verdict.{Verdict};

    /// Why it refuses settings; none where it takes them.
    ghost refusal: { Self → Entries → Option SettingFault };

    /// Whether it may make this of an event.
    ghost may: { Self → Ev → Verdict → Type 0 };

    /// How often it was closed, as far as a number of 64 bits counts.
    ghost closes: { Self → ℕ };

    /// Reads the settings of the plugin that it is to be: all that stand in the text, those that
    /// every filter has among them.
    fn configure(&mut self, settings: &Settings) -> Result<(), FromFault>
        ensures answers { Answers result (refusal self.old settings.now.list) }
        ensures refusal { refusal self.new ≡ refusal self.old }
        ensures closes { closes self.new ≡ closes self.old };

    /// What it makes of an event.
    fn apply(&self, event: &Event) -> Result<Verdict, AllocError>
        ensures { IfOk result (may self.now event.now) };

    /// Its last call.
    fn close(&mut self)
        ensures { closes self.new ≡ one_more (closes self.old) };
}
