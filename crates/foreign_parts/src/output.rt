// The trait of outputs that are handed in as boxes, and the fates of events.
ghost use Rattle.std.specs.Prelude.{◌≡◌, ◌<◌, ℕ, List, [], Option, length};
ghost use Rattle.io_traits.specs.Counts.{HasCause, one_more};
ghost use Rattle.io_traits.specs.Telling.{Grows};
ghost use Rattle.config_tree.specs.Joining.{Entries};
ghost use Rattle.config_tree.specs.declared.fault.SettingFault.{SettingFault};
ghost use Rattle.event_tree.specs.Events.{Ev};
ghost use Rattle.foreign_parts.specs.Configuring.{Answers};
ghost use Rattle.foreign_parts.specs.Delivering.{Delivers, HadFault, WasLater};

use config_tree::{FromFault, Settings};
use event_tree::{Event, Text};
use plain_data::Items;
use std::alloc::AllocError;
use thiserror::Error;

/// What became of an event that was delivered.
#[derive(Drop)]
pub enum Fate {
    Took,
    /// It was refused for good, with a status and a text of at most 65,536 bytes.
    Rejected(u16, Text),
}

/// A fate for each event, in their order.
pub type Fates = Items<Fate>;

/// What an output answered to events.
#[derive(Drop)]
pub enum Delivery {
    /// It took them, but for those that it rejected.
    Took(Fates),
    /// It takes none of them now. They may be delivered again.
    Later,
}

/// Why events were not delivered.
#[derive(Clone, Copy, Debug, Error)]
pub enum DeliverFault {
    /// The output failed, and the count of its faults rose in that call.
    #[error("the output failed")]
    Failed,
    #[error("out of memory")]
    Memory,
}

impl From<AllocError> for DeliverFault {
    ghost use Rattle.foreign_parts.specs.declared.output.DeliverFault.TheVariants.{Memory};

    ghost from_gives = { λ _ fault. fault ≡ Memory };

    fn from(_error: AllocError) -> DeliverFault {
        DeliverFault::Memory
    }
}

/// An output that is handed in as a box. It can move between threads.
pub trait ForeignOutput: Send + Drop {
    ghost use Rattle.config_tree.specs.Joining.{Entries};
    ghost use Rattle.config_tree.specs.declared.fault.SettingFault.{SettingFault};
    ghost use Rattle.event_tree.specs.Events.{Ev};

    /// Why it refuses settings; none where it takes them.
    ghost refusal: { Self → Entries → Option SettingFault };

    /// The events that it holds, where it tells them.
    ghost held: { Self → Option (List Ev) };

    /// How often a delivery failed.
    ghost faults: { Self → ℕ };

    /// How often it answered that it takes events later.
    ghost laters: { Self → ℕ };

    /// How often it was closed, as far as a number of 64 bits counts.
    ghost closes: { Self → ℕ };

    /// Reads the settings of the plugin that it is to be: all that stand in the text, `id` among
    /// them.
    fn configure(&mut self, settings: &Settings) -> Result<(), FromFault>
        ensures answers { Answers result (refusal self.old settings.now.list) }
        ensures refusal { refusal self.new ≡ refusal self.old }
        ensures held { Grows (held self.old) (held self.new) [] }
        ensures faults { faults self.new ≡ faults self.old }
        ensures laters { laters self.new ≡ laters self.old }
        ensures closes { closes self.new ≡ closes self.old };

    /// Delivers events, of which there is one at least. It holds those that it took; none of them
    /// where it answers `Later` or memory ran out, and some from their front where it failed.
    fn deliver(&mut self, events: &[Event]) -> Result<Delivery, DeliverFault>
        requires { 0 < length events.now }
        ensures held { Delivers result events.now (held self.old) (held self.new) }
        ensures faults { HasCause (faults self.old) (faults self.new) (HadFault result) }
        ensures laters { HasCause (laters self.old) (laters self.new) (WasLater result) }
        ensures closes { closes self.new ≡ closes self.old };

    /// Its last call.
    fn close(&mut self)
        ensures held { Grows (held self.old) (held self.new) [] }
        ensures faults { faults self.new ≡ faults self.old }
        ensures laters { laters self.new ≡ laters self.old }
        ensures closes { closes self.new ≡ one_more (closes self.old) };
}
