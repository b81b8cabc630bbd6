// The fault of a setting that is unknown.
ghost use Rattle.config_tree.specs.declared.fault.SettingFault.TheVariants as setting;
ghost use Rattle.filter_settings.specs.Settings.{IsFault};

use config_tree::{FromFault, SettingFault};
use plain_data::Text;
use std::alloc::Global;

pub(crate) fn unknown(alloc: Global, name: &str) -> FromFault
    ensures { IsFault (setting.Unknown name.now) result }
{
    match Text::of(alloc, name) {
        Ok(name) => FromFault::Bad(SettingFault::Unknown(name)),
        Err(_) => FromFault::Memory,
    }
}
