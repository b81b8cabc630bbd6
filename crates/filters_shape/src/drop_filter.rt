// The filter `drop`: gives no event.
ghost use Rattle.std.specs.Prelude.{◌≡◌, IfOk};
ghost use Rattle.filter_settings.specs.Settings.{Gives};
ghost use Rattle.filters_shape.specs.Drops as spec;

use event_tree::{Event, Events};
use filter_settings::{Applied, FromFault, Options, Settings, read_settings};
use std::alloc::AllocError;

/// The filter `drop`, which gives no event.
#[derive(Drop)]
pub struct DropFilter {
    /// They are read, and no event is left on which they could act.
    pub options: Options,
}

impl DropFilter {
    /// Reads the settings, of which `drop` has none of its own. The fault is that of the first setting, in
    /// the order of the text, that is unknown or of another kind.
    pub fn from_settings(settings: &Settings) -> Result<DropFilter, FromFault>
        ensures { Gives result (spec.drop_of settings.now.list) }
    {
        let options = read_settings(settings, Options::none(settings.list.allocator()))?;
        Ok(DropFilter { options })
    }

    /// No event. It counts as matched.
    pub fn apply(&self, _event: Event) -> Result<Applied, AllocError>
        ensures { IfOk result (λ applied. applied ≡ spec.dropped) }
    {
        Ok(Applied {
            events: Events::new(self.options.add_tag.allocator()),
            matched: true,
        })
    }
}
