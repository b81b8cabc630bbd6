// Boxes for the rack that refuse a setting by its name.
ghost use Rattle.foreign_parts.specs.Configuring.{Answers};
ghost use Rattle.filter_tests.specs.Boxes.{refused};

use event_tree::{Event, Events};
use foreign_parts::{
    DeliverFault, Delivery, ForeignFilter, ForeignOutput, FromFault, SettingFault, Settings,
    Verdict,
};
use plain_data::Text;
use std::alloc::{AllocError, Global};

/// A box that refuses the setting of one name, and takes all others. As a filter it leaves each event as it
/// is, and as an output it takes nothing now.
#[derive(Drop)]
pub struct Picky {
    pub alloc: Global,
    pub refuses: Text,
    pub laters: u64,
    pub closes: u64,
}

/// A box that refuses the setting of this name.
pub fn refusing(alloc: Global, refuses: &str) -> Result<Box<Picky>, AllocError> {
    let refuses = Text::of(alloc, refuses)?;
    let picky = Picky {
        alloc,
        refuses,
        laters: 0,
        closes: 0,
    };
    Ok(Box::new(alloc, picky)?)
}

impl Picky {
    fn read(&self, settings: &Settings) -> Result<(), FromFault>
        ensures { Answers result (refused self.now.refuses settings.now.list) }
    {
        match settings.get(self.refuses.as_str()) {
            None => Ok(()),
            Some(_) => Err(FromFault::Bad(SettingFault::Unknown(self.refuses.copy()?))),
        }
    }
}

impl ForeignFilter for Picky {
    ghost use Rattle.filter_tests.specs.Boxes.{refused, unchanged};

    ghost refusal = { λ picky entries. refused picky.refuses entries };

    ghost may = { λ _ event verdict. unchanged event verdict };

    ghost closes = { λ picky. picky.closes };

    fn configure(&mut self, settings: &Settings) -> Result<(), FromFault> {
        self.read(settings)
    }

    fn apply(&self, event: &Event) -> Result<Verdict, AllocError> {
        let mut events = Events::new(self.alloc);
        events.push(event.copy()?)?;
        Ok(Verdict {
            events,
            matched: true,
        })
    }

    fn close(&mut self) {
        self.closes = self.closes.saturating_add(1);
    }
}

impl ForeignOutput for Picky {
    ghost use Rattle.std.specs.Prelude.{Some, []};
    ghost use Rattle.filter_tests.specs.Boxes.{refused};

    ghost refusal = { λ picky entries. refused picky.refuses entries };

    ghost held = { λ _. Some [] };

    ghost faults = { λ _. 0 };

    ghost laters = { λ picky. picky.laters };

    ghost closes = { λ picky. picky.closes };

    fn configure(&mut self, settings: &Settings) -> Result<(), FromFault> {
        self.read(settings)
    }

    fn deliver(&mut self, _events: &[Event]) -> Result<Delivery, DeliverFault> {
        self.laters = self.laters.saturating_add(1);
        Ok(Delivery::Later)
    }

    fn close(&mut self) {
        self.closes = self.closes.saturating_add(1);
    }
}
