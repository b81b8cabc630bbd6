// Filters of a configuration: a built-in one, or a boxed one.

ghost use Rattle.std.specs.Prelude.{◌≡◌};
ghost use Rattle.filter_settings.specs.Settings.{Gives};
ghost use Rattle.built_plugins.specs.Makes as spec;

use crate::boxed::BoxedFilter;
use crate::built::BuiltFilter;
use config_tree::{FromFault, Plugin};

/// A filter with its settings read.
pub enum Filter {
    Built(BuiltFilter),
    /// A filter that is handed in as a box, and makes events by its verdicts.
    Boxed(BoxedFilter),
}

// Written out, so that it is one call wherever an error is handed on while a filter is held.
impl Drop for Filter {
    fn drop(self) {
        match self {
            Filter::Built(_filter) => {}
            Filter::Boxed(_filter) => {}
        }
    }
}

impl Filter {
    /// The filter that a plugin is: the built-in one of its name, and else a boxed one. The fault is
    /// that of the first setting that is refused.
    pub fn from_plugin(plugin: &Plugin) -> Result<Filter, FromFault>
        ensures { Gives result (spec.filter_of plugin.now) }
    {
        match BuiltFilter::from_plugin(plugin)? {
            Some(filter) => Ok(Filter::Built(filter)),
            None => Ok(Filter::Boxed(BoxedFilter::from_settings(&plugin.settings)?)),
        }
    }

    /// Whether it is a boxed one.
    pub fn is_boxed(&self) -> bool
        ensures { result ≡ spec.is_boxed self.now }
    {
        match self {
            Filter::Built(_) => false,
            Filter::Boxed(_) => true,
        }
    }
}
