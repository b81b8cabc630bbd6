// Boxed filters: what is read here of their settings.

ghost use Rattle.std.specs.Prelude.{◌≡◌};
ghost use Rattle.filter_settings.specs.Settings.{Gives};
ghost use Rattle.built_plugins.specs.Makes as spec;

use config_tree::{FromFault, SettingValue, Settings};
use event_text::Options;
use filter_settings::{SetByName, read_settings, set_option};
use std::alloc::Global;

/// What is read here of a boxed filter's settings; the box reads all of them.
pub struct BoxedFilter {
    /// They act on the events of a verdict that matched.
    pub options: Options,
}

// Written out, so that it is one call wherever an error is handed on while a filter is held.
impl Drop for BoxedFilter {
    fn drop(self) {
        let BoxedFilter { options: _options } = self;
    }
}

impl SetByName for BoxedFilter {
    ghost use Rattle.built_plugins.specs.Makes.{boxed_set};

    ghost setting = { boxed_set };

    fn set(&mut self, alloc: Global, name: &str, value: &SettingValue) -> Result<(), FromFault> {
        if is_common(name) {
            set_option(&mut self.options, alloc, name, value)
        } else {
            Ok(())
        }
    }
}

impl BoxedFilter {
    /// Reads those settings that every filter has, and passes over the others. The fault is that of
    /// the first of them that is refused.
    #[tactic(auto, unfolding(crate::specs::Makes::boxed_of))]
    pub fn from_settings(settings: &Settings) -> Result<BoxedFilter, FromFault>
        ensures { Gives result (spec.boxed_of settings.now.list) }
    {
        let start = BoxedFilter {
            options: Options::none(settings.list.allocator()),
        };
        read_settings(settings, start)
    }
}

// Whether every filter has the setting.
fn is_common(name: &str) -> bool
    ensures { result ≡ spec.is_common name.now }
{
    match name {
        "id" | "add_field" | "remove_field" | "add_tag" | "remove_tag" => true,
        _ => false,
    }
}
