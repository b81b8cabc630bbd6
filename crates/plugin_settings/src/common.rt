// The settings that every input has.
ghost use Rattle.std.specs.Prelude.{◌≡◌};
ghost use Rattle.filter_settings.specs.Settings.{Leaves};
ghost use Rattle.plugin_settings.specs.Common as spec;

use crate::codecs::read_codec;
use crate::faults::unknown;
use config_tree::{FromFault, SettingValue};
use event_text::Template;
use event_tree::Path;
use filter_settings::{
    SetByName, assign, assign_some, not_kept, read_field_templates, read_id, read_templates,
    read_text,
};
use in_lines::Codec;
use plain_data::{Items, Text};
use std::alloc::Global;

/// The settings that every input has. Its `id` is read and not kept here.
pub struct InputSettings {
    /// How its lines are read. Inputs that take events pay no heed to it.
    pub codec: Codec,
    /// Fields that are added to each event, with their texts.
    pub add_field: Items<(Path, Template)>,
    /// Tags that are added to each event.
    pub tags: Items<Template>,
    /// The `type` of each event that has none.
    pub event_type: Option<Text>,
}

// Written out, so that it is one call wherever an error is handed on while settings are held.
impl Drop for InputSettings {
    fn drop(self) {
        let InputSettings {
            codec: _,
            add_field: _add_field,
            tags: _tags,
            event_type: _event_type,
        } = self;
    }
}

impl SetByName for InputSettings {
    ghost use Rattle.plugin_settings.specs.Common.{common_set};

    ghost setting = { common_set };

    fn set(&mut self, alloc: Global, name: &str, value: &SettingValue) -> Result<(), FromFault> {
        match name {
            "id" => not_kept(read_id(alloc, name, value)),
            "codec" => assign(&mut self.codec, read_codec(alloc, name, value)),
            "add_field" => assign(
                &mut self.add_field,
                read_field_templates(alloc, name, value),
            ),
            "tags" => assign(&mut self.tags, read_templates(alloc, name, value)),
            "type" => assign_some(&mut self.event_type, read_text(alloc, name, value)),
            _ => Err(unknown(alloc, name)),
        }
    }
}

impl InputSettings {
    /// Those of an input none of whose settings stand, with its default codec.
    pub(crate) fn new(alloc: Global, codec: Codec) -> InputSettings
        ensures { result ≡ spec.common_start codec }
    {
        InputSettings {
            codec,
            add_field: Items::new(alloc),
            tags: Items::new(alloc),
            event_type: None,
        }
    }
}
