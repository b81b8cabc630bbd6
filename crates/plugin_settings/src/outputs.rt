// The settings of the built-in outputs.
ghost use Rattle.filter_settings.specs.Settings.{Gives, Leaves, wanted};
ghost use Rattle.plugin_settings.specs.Outputs as spec;

use crate::codecs::{out_codec, read_out_codec};
use crate::faults::unknown;
use config_tree::{FromFault, SettingValue, Settings};
use event_tree::Names;
use filter_settings::{
    SetByName, assign, not_kept, read_flag, read_id, read_settings, read_text, read_texts, require,
    wanted,
};
use in_lines::{Codec, OutCodec};
use plain_data::Text;
use std::alloc::Global;

// The one setting that every output has, which is read and not kept.
fn read_output_id(alloc: Global, name: &str, value: &SettingValue) -> Result<(), FromFault>
    ensures { Gives result (spec.id_set name.now value.now tt) }
{
    match name {
        "id" => not_kept(read_id(alloc, name, value)),
        _ => Err(unknown(alloc, name)),
    }
}

/// What `stdout` is set to.
#[derive(Drop)]
pub struct StdoutSettings {
    pub codec: OutCodec,
}

impl SetByName for StdoutSettings {
    ghost use Rattle.plugin_settings.specs.Outputs.{stdout_set};

    ghost setting = { stdout_set };

    fn set(&mut self, alloc: Global, name: &str, value: &SettingValue) -> Result<(), FromFault> {
        match name {
            "codec" => assign(&mut self.codec, read_out_codec(alloc, name, value)),
            _ => read_output_id(alloc, name, value),
        }
    }
}

impl StdoutSettings {
    /// Reads the settings. The fault is that of the first setting, in the order of the text, that is
    /// unknown or of another kind.
    pub fn from_settings(settings: &Settings) -> Result<StdoutSettings, FromFault>
        ensures { Gives result (spec.stdout_of settings.now.list) }
    {
        let codec = out_codec(settings.list.allocator(), Codec::JsonLines)?;
        read_settings(settings, StdoutSettings { codec })
    }
}

/// What the output `file` is set to.
pub struct FileOutputSettings {
    /// The file that it writes.
    pub path: Text,
    pub codec: OutCodec,
}

impl Drop for FileOutputSettings {
    fn drop(self) {
        let FileOutputSettings {
            path: _path,
            codec: _codec,
        } = self;
    }
}

impl SetByName for FileOutputSettings {
    ghost use Rattle.plugin_settings.specs.Outputs.{file_set};

    ghost setting = { file_set };

    fn set(&mut self, alloc: Global, name: &str, value: &SettingValue) -> Result<(), FromFault> {
        match name {
            "path" => assign(&mut self.path, read_text(alloc, name, value)),
            "codec" => assign(&mut self.codec, read_out_codec(alloc, name, value)),
            _ => read_output_id(alloc, name, value),
        }
    }
}

impl FileOutputSettings {
    /// Reads the settings. The fault is that of the first setting, in the order of the text, that is
    /// unknown or of another kind, and then `Missing` where `path` doesn't stand.
    pub fn from_settings(settings: &Settings) -> Result<FileOutputSettings, FromFault>
        ensures { Gives result (spec.file_of settings.now.list) }
    {
        let alloc = settings.list.allocator();
        let codec = out_codec(alloc, Codec::JsonLines)?;
        let path = Text::of(alloc, "")?;
        let read = read_settings(settings, FileOutputSettings { path, codec })?;
        require(settings, "path", read)
    }
}

/// What the output `pipeline` is set to.
#[derive(Drop)]
pub struct SendSettings {
    /// The addresses to which it sends. One that stands twice counts once.
    pub send_to: Names,
}

impl SetByName for SendSettings {
    ghost use Rattle.plugin_settings.specs.Outputs.{send_set};

    ghost setting = { send_set };

    fn set(&mut self, alloc: Global, name: &str, value: &SettingValue) -> Result<(), FromFault> {
        match name {
            "send_to" => assign(&mut self.send_to, read_texts(alloc, name, value)),
            "ensure_delivery" => read_sure(alloc, name, value),
            _ => read_output_id(alloc, name, value),
        }
    }
}

impl SendSettings {
    /// Reads the settings. The fault is that of the first setting, in the order of the text, that is
    /// unknown or of another kind, and then `Missing` where `send_to` doesn't stand.
    pub fn from_settings(settings: &Settings) -> Result<SendSettings, FromFault>
        ensures { Gives result (spec.send_of settings.now.list) }
    {
        let send_to = Names::new(settings.list.allocator());
        let read = read_settings(settings, SendSettings { send_to })?;
        require(settings, "send_to", read)
    }
}

// The flag `true`, which is the one that is taken.
fn read_sure(alloc: Global, name: &str, value: &SettingValue) -> Result<(), FromFault>
    ensures { Gives result (wanted name.now (spec.sure value.now)) }
{
    if read_flag(alloc, name, value)? {
        Ok(())
    } else {
        wanted(alloc, name, None)
    }
}

/// What `sink` is set to: it has no setting of its own.
#[derive(Drop)]
pub struct SinkSettings {}

impl SetByName for SinkSettings {
    ghost use Rattle.plugin_settings.specs.Outputs.{id_set};

    ghost setting = { id_set };

    fn set(&mut self, alloc: Global, name: &str, value: &SettingValue) -> Result<(), FromFault> {
        read_output_id(alloc, name, value)
    }
}

impl SinkSettings {
    /// Reads the settings. The fault is that of the first setting, in the order of the text, that is
    /// unknown or of another kind.
    pub fn from_settings(settings: &Settings) -> Result<SinkSettings, FromFault>
        ensures { Gives result (spec.sink_of settings.now.list) }
    {
        read_settings(settings, SinkSettings {})
    }
}
