// The settings of the inputs `generator` and `file`.
ghost use Rattle.std.specs.Prelude.{◌≡◌, IfOk, option_and_then};
ghost use Rattle.filter_settings.specs.Readers.{text_of};
ghost use Rattle.filter_settings.specs.Settings.{Gives, wanted};
ghost use Rattle.plugin_settings.specs.Inputs as spec;

use crate::common::InputSettings;
use crate::numbers::read_count;
use config_tree::{FromFault, SettingValue, Settings};
use event_tree::Names;
use filter_settings::{
    SetByName, assign, assign_some, read_settings, read_text, read_texts, require, wanted,
};
use in_lines::Codec;
use plain_data::Text;
use std::alloc::{AllocError, Global};

/// What `generator` is set to.
pub struct GeneratorSettings {
    /// The one line that it gives, where `lines` doesn't stand.
    pub message: Text,
    /// The lines that it gives, one at least, each once per count.
    pub lines: Option<Names>,
    /// How often it gives them; 0 is without end.
    pub count: u64,
    /// The number from which the lines of a sample are made, where it gives those.
    pub sample: Option<u64>,
    pub common: InputSettings,
}

impl Drop for GeneratorSettings {
    fn drop(self) {
        let GeneratorSettings {
            message: _message,
            lines: _lines,
            count: _,
            sample: _,
            common: _common,
        } = self;
    }
}

impl SetByName for GeneratorSettings {
    ghost use Rattle.plugin_settings.specs.Inputs.{generator_set};

    ghost setting = { generator_set };

    fn set(&mut self, alloc: Global, name: &str, value: &SettingValue) -> Result<(), FromFault> {
        match name {
            "message" => assign(&mut self.message, read_text(alloc, name, value)),
            "lines" => assign_some(&mut self.lines, read_lines(alloc, name, value)),
            "count" => assign(&mut self.count, read_count(alloc, name, value)),
            "sample" => assign_some(&mut self.sample, read_count(alloc, name, value)),
            _ => self.common.set(alloc, name, value),
        }
    }
}

impl GeneratorSettings {
    /// Reads the settings. The fault is that of the first setting, in the order of the text, that is
    /// unknown or of another kind.
    pub fn from_settings(settings: &Settings) -> Result<GeneratorSettings, FromFault>
        ensures { Gives result (spec.generator_of settings.now.list) }
    {
        let start = GeneratorSettings::new(settings.list.allocator())?;
        read_settings(settings, start)
    }

    fn new(alloc: Global) -> Result<GeneratorSettings, AllocError>
        ensures { IfOk result (λ start. start ≡ spec.generator_start) }
    {
        Ok(GeneratorSettings {
            message: Text::of(alloc, "Hello world!")?,
            lines: None,
            count: 0,
            sample: None,
            common: InputSettings::new(alloc, Codec::Plain),
        })
    }
}

/// A list of one text at least.
fn read_lines(alloc: Global, name: &str, value: &SettingValue) -> Result<Names, FromFault>
    ensures { Gives result (wanted name.now (spec.lines_of value.now)) }
{
    let lines = read_texts(alloc, name, value)?;
    if lines.is_empty() {
        wanted(alloc, name, None)
    } else {
        Ok(lines)
    }
}

/// What the input `file` is set to.
pub struct FileInputSettings {
    /// The file, or with a `*` the files, that it reads.
    pub path: Text,
    /// Whether a file without a recorded position is read from its beginning, and not from its end.
    pub from_start: bool,
    /// Whether it ends at the end of the file, and reads one without a recorded position from its
    /// beginning.
    pub ends: bool,
    pub common: InputSettings,
}

impl Drop for FileInputSettings {
    fn drop(self) {
        let FileInputSettings {
            path: _path,
            from_start: _,
            ends: _,
            common: _common,
        } = self;
    }
}

impl SetByName for FileInputSettings {
    ghost use Rattle.plugin_settings.specs.Inputs.{file_set};

    ghost setting = { file_set };

    fn set(&mut self, alloc: Global, name: &str, value: &SettingValue) -> Result<(), FromFault> {
        match name {
            "path" => assign(&mut self.path, read_text(alloc, name, value)),
            "start_position" => assign(&mut self.from_start, read_position(alloc, name, value)),
            "mode" => assign(&mut self.ends, read_mode(alloc, name, value)),
            _ => self.common.set(alloc, name, value),
        }
    }
}

impl FileInputSettings {
    /// Reads the settings. The fault is that of the first setting, in the order of the text, that is
    /// unknown or of another kind, and then `Missing` where `path` doesn't stand.
    pub fn from_settings(settings: &Settings) -> Result<FileInputSettings, FromFault>
        ensures { Gives result (spec.file_of settings.now.list) }
    {
        let alloc = settings.list.allocator();
        let start = FileInputSettings {
            path: Text::of(alloc, "")?,
            from_start: false,
            ends: false,
            common: InputSettings::new(alloc, Codec::Plain),
        };
        let read = read_settings(settings, start)?;
        require(settings, "path", read)
    }
}

fn read_position(alloc: Global, name: &str, value: &SettingValue) -> Result<bool, FromFault>
    ensures { Gives result (wanted name.now (option_and_then spec.position_of
        (text_of value.now))) }
{
    let text = read_text(alloc, name, value)?;
    match text.as_str() {
        "beginning" => Ok(true),
        "end" => Ok(false),
        _ => wanted(alloc, name, None),
    }
}

fn read_mode(alloc: Global, name: &str, value: &SettingValue) -> Result<bool, FromFault>
    ensures { Gives result (wanted name.now (option_and_then spec.mode_of (text_of value.now))) }
{
    let text = read_text(alloc, name, value)?;
    match text.as_str() {
        "read" => Ok(true),
        "tail" => Ok(false),
        _ => wanted(alloc, name, None),
    }
}
