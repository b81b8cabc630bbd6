// Reading the settings of a filter, one by one, by name.
ghost use Rattle.std.specs.Prelude.{◌≡◌};
ghost use Rattle.config_tree.specs.Joining.{has};
ghost use Rattle.filter_settings.specs.Settings as spec;
ghost use Rattle.filter_settings.specs.Settings.{Gives};

use crate::faults::missing;
use config_tree::{FromFault, SettingValue, Settings};
use plain_data::Text;
use std::alloc::Global;

/// A filter whose settings are read by name.
pub trait SetByName: Drop {
    ghost use Rattle.std.specs.Prelude.{ℕ, List};
    ghost use Rattle.config_tree.specs.declared.tree.SettingValue.{SettingValue};
    ghost use Rattle.filter_settings.specs.Settings.{Made, Leaves};

    /// What a setting makes of the filter, or its fault.
    ghost setting: { List ℕ → SettingValue → Self → Made Self };

    /// Sets what the setting of this name says. The fault is `Unknown`, `WrongKind` or `BadPattern` of
    /// the name, in this order, or `Memory`; what the filter is then is of no use.
    fn set(&mut self, alloc: Global, name: &str, value: &SettingValue) -> Result<(), FromFault>
        ensures { Leaves result (setting name.now value.now self.old) self.new };
}

/// What the settings make of a filter that has none yet, in the order of the text. The fault is that of
/// the first setting that is refused.
pub fn read_settings<F: SetByName>(settings: &Settings, start: F) -> Result<F, FromFault>
    ensures { Gives result (spec.all_set F.setting settings.now.list start) }
{
    set_all(settings.list.allocator(), settings.list.as_slice(), start)
}

#[tactic(auto, using(crate::proofs::Setting::setting))]
fn set_all<F: SetByName>(
    alloc: Global,
    entries: &[(Text, SettingValue)],
    start: F,
) -> Result<F, FromFault>
    ensures { Gives result (spec.all_set F.setting entries.now start) }
{
    let mut filter = start;
    for entry in entries {
        filter.set(alloc, entry.0.as_str(), &entry.1)?;
    }
    Ok(filter)
}

/// The filter, where a setting stands that it can't do without; `Missing` of that name otherwise.
pub fn require<F: Drop>(settings: &Settings, name: &str, filter: F) -> Result<F, FromFault>
    ensures { Gives result (spec.needed name.now settings.now.list filter) }
{
    if stands(settings, name) {
        Ok(filter)
    } else {
        Err(missing(settings.list.allocator(), name))
    }
}

fn stands(settings: &Settings, name: &str) -> bool
    ensures { result ≡ has name.now settings.now.list }
{
    match settings.get(name) {
        Some(_) => true,
        None => false,
    }
}
