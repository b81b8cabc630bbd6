// The faults of settings: wrong kinds and bad patterns.
ghost use Rattle.std.specs.Prelude.{◌≡◌};
ghost use Rattle.config_tree.specs.declared.fault.SettingFault.TheVariants as setting;
ghost use Rattle.filter_settings.specs.Settings as spec;
ghost use Rattle.filter_settings.specs.Settings.{Gives, IsFault};

use config_tree::{FromFault, SettingFault};
use plain_data::Text;
use std::alloc::Global;

/// What was found, and else that the setting of this name has a value of another kind.
pub fn wanted<T>(alloc: Global, name: &str, found: Option<T>) -> Result<T, FromFault>
where
    T: Drop,
    ensures { Gives result (spec.wanted name.now found) }
{
    match found {
        Some(found) => Ok(found),
        None => Err(wrong_kind(alloc, name)),
    }
}

fn wrong_kind(alloc: Global, name: &str) -> FromFault
    ensures { IsFault (setting.WrongKind name.now) result }
{
    match Text::of(alloc, name) {
        Ok(name) => FromFault::Bad(SettingFault::WrongKind(name)),
        Err(_) => FromFault::Memory,
    }
}

pub(crate) fn unknown(alloc: Global, name: &str) -> FromFault
    ensures { IsFault (setting.Unknown name.now) result }
{
    match Text::of(alloc, name) {
        Ok(name) => FromFault::Bad(SettingFault::Unknown(name)),
        Err(_) => FromFault::Memory,
    }
}

pub(crate) fn missing(alloc: Global, name: &str) -> FromFault
    ensures { IsFault (setting.Missing name.now) result }
{
    match Text::of(alloc, name) {
        Ok(name) => FromFault::Bad(SettingFault::Missing(name)),
        Err(_) => FromFault::Memory,
    }
}

/// The fault of the setting of this name, whose text should be a pattern and is none.
pub fn bad_pattern(alloc: Global, name: &str) -> FromFault
    ensures { IsFault (setting.BadPattern name.now) result }
{
    match Text::of(alloc, name) {
        Ok(name) => FromFault::Bad(SettingFault::BadPattern(name)),
        Err(_) => FromFault::Memory,
    }
}
