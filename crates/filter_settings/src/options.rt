// The settings that every filter has.
ghost use Rattle.filter_settings.specs.Options as spec;
ghost use Rattle.filter_settings.specs.Settings.{Leaves};

use crate::faults::unknown;
use crate::hashes::read_field_templates;
use crate::keeping::{assign, not_kept};
use crate::lists::{read_paths, read_templates};
use crate::reading::SetByName;
use crate::values::read_id;
use config_tree::{FromFault, SettingValue};
use event_text::Options;
use std::alloc::Global;

/// One of the settings that every filter has: `id`, which is read and not kept here, and the four
/// options. Any other name is `Unknown`.
pub fn set_option(
    options: &mut Options,
    alloc: Global,
    name: &str,
    value: &SettingValue,
) -> Result<(), FromFault>
    ensures { Leaves result (spec.option_set name.now value.now options.old) options.new }
{
    match name {
        "id" => not_kept(read_id(alloc, name, value)),
        "add_field" => {
            assign(
                &mut options.add_field,
                read_field_templates(alloc, name, value),
            )
        }
        "remove_field" => assign(&mut options.remove_field, read_paths(alloc, name, value)),
        "add_tag" => assign(&mut options.add_tag, read_templates(alloc, name, value)),
        "remove_tag" => assign(&mut options.remove_tag, read_templates(alloc, name, value)),
        _ => Err(unknown(alloc, name)),
    }
}

impl SetByName for Options {
    ghost use Rattle.filter_settings.specs.Options.{option_set};

    ghost setting = { option_set };

    fn set(&mut self, alloc: Global, name: &str, value: &SettingValue) -> Result<(), FromFault> {
        set_option(self, alloc, name, value)
    }
}
