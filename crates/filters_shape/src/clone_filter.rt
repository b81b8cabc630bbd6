// The filter `clone`: copies an event, one copy for each name.
ghost use Rattle.std.specs.Prelude.{◌≡◌, map, IfOk};
ghost use Rattle.filter_settings.specs.Settings.{Gives};
ghost use Rattle.filters_shape.specs.Clone as spec;

use event_tree::{Event, Events, Names, Text};
use filter_settings::{
    Applied, FromFault, Options, SetByName, SettingValue, Settings, add_tag, assign, read_settings,
    read_texts, require, set_option,
};
use std::alloc::{AllocError, Global};

/// The filter `clone`: the event, and a copy of it for each name.
pub struct CloneFilter {
    /// The names of the copies, each of which has its own among its tags.
    pub clones: Names,
    /// They act on the copies alone.
    pub options: Options,
}

// Written out, so that it is one call wherever an error is handed on while a filter is held.
impl Drop for CloneFilter {
    fn drop(self) {
        let CloneFilter {
            clones: _clones,
            options: _options,
        } = self;
    }
}

impl SetByName for CloneFilter {
    ghost use Rattle.filters_shape.specs.Clone.{clone_set};

    ghost setting = { clone_set };

    fn set(&mut self, alloc: Global, name: &str, value: &SettingValue) -> Result<(), FromFault> {
        match name {
            "clones" => assign(&mut self.clones, read_texts(alloc, name, value)),
            _ => set_option(&mut self.options, alloc, name, value),
        }
    }
}

impl CloneFilter {
    /// Reads the settings. The fault is that of the first setting, in the order of the text, that is
    /// unknown or of another kind, and then `Missing` where `clones` doesn't stand.
    pub fn from_settings(settings: &Settings) -> Result<CloneFilter, FromFault>
        ensures { Gives result (spec.clone_of settings.now.list) }
    {
        let alloc = settings.list.allocator();
        let start = CloneFilter {
            clones: Names::new(alloc),
            options: Options::none(alloc),
        };
        let filter = read_settings(settings, start)?;
        require(settings, "clones", filter)
    }

    /// The event as it was, and then a copy for each name, with that name among its tags and with the
    /// options. It counts as matched. A copy takes time and memory in proportion to the event.
    pub fn apply(&self, event: Event) -> Result<Applied, AllocError>
        ensures { IfOk result (λ applied. applied ≡ spec.cloned self.now event) }
    {
        let copies = self.copies(&event)?;
        let mut events = Events::new(self.clones.allocator());
        events.push(event)?;
        events.append(copies)?;
        Ok(Applied {
            events,
            matched: true,
        })
    }

    #[tactic(auto, using(event_text::proofs::Going::going))]
    fn copies(&self, event: &Event) -> Result<Events, AllocError>
        ensures { IfOk result (λ copies. copies ≡ map (spec.clone_named self.now event.now)
            self.now.clones) }
    {
        let mut copies = Events::new(self.clones.allocator());
        for name in self.clones.as_slice() {
            copies.push(self.copy_named(event, name)?)?;
        }
        Ok(copies)
    }

    fn copy_named(&self, event: &Event, name: &Text) -> Result<Event, AllocError>
        ensures { IfOk result (λ copy. copy ≡ spec.clone_named self.now event.now name.now) }
    {
        let mut copy = event.copy()?;
        add_tag(&mut copy, name.copy()?)?;
        self.options.apply(copy)
    }
}
