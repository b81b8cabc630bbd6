// The settings of the inputs `tcp`, `http`, `pipeline` and `dead_letter_queue`.
ghost use Rattle.std.specs.Prelude.{option_and_then};
ghost use Rattle.filter_settings.specs.Readers.{text_of};
ghost use Rattle.filter_settings.specs.Settings.{Gives, wanted};
ghost use Rattle.plugin_settings.specs.Inputs as spec;

use crate::common::InputSettings;
use crate::numbers::read_port;
use config_tree::{FromFault, SettingValue, Settings};
use filter_settings::{SetByName, assign, read_settings, read_text, require, wanted};
use in_lines::Codec;
use plain_data::Text;
use std::alloc::Global;

/// What `tcp` is set to.
pub struct TcpSettings {
    /// From 1 to 65,535.
    pub port: u16,
    pub host: Text,
    pub common: InputSettings,
}

impl Drop for TcpSettings {
    fn drop(self) {
        let TcpSettings {
            port: _,
            host: _host,
            common: _common,
        } = self;
    }
}

impl SetByName for TcpSettings {
    ghost use Rattle.plugin_settings.specs.Inputs.{tcp_set};

    ghost setting = { tcp_set };

    fn set(&mut self, alloc: Global, name: &str, value: &SettingValue) -> Result<(), FromFault> {
        match name {
            "port" => assign(&mut self.port, read_port(alloc, name, value)),
            "host" => assign(&mut self.host, read_text(alloc, name, value)),
            "mode" => read_server(alloc, name, value),
            _ => self.common.set(alloc, name, value),
        }
    }
}

impl TcpSettings {
    /// Reads the settings. The fault is that of the first setting, in the order of the text, that is
    /// unknown or of another kind, and then `Missing` where `port` doesn't stand.
    pub fn from_settings(settings: &Settings) -> Result<TcpSettings, FromFault>
        ensures { Gives result (spec.tcp_of settings.now.list) }
    {
        let alloc = settings.list.allocator();
        let start = TcpSettings {
            port: 0,
            host: Text::of(alloc, "0.0.0.0")?,
            common: InputSettings::new(alloc, Codec::Line),
        };
        let read = read_settings(settings, start)?;
        require(settings, "port", read)
    }
}

// The one mode that there is: `server`.
fn read_server(alloc: Global, name: &str, value: &SettingValue) -> Result<(), FromFault>
    ensures { Gives result (wanted name.now (option_and_then spec.is_server (text_of value.now))) }
{
    let text = read_text(alloc, name, value)?;
    match text.as_str() {
        "server" => Ok(()),
        _ => wanted(alloc, name, None),
    }
}

/// What the input `http` is set to.
pub struct HttpSettings {
    /// From 1 to 65,535.
    pub port: u16,
    pub host: Text,
    pub common: InputSettings,
}

impl Drop for HttpSettings {
    fn drop(self) {
        let HttpSettings {
            port: _,
            host: _host,
            common: _common,
        } = self;
    }
}

impl SetByName for HttpSettings {
    ghost use Rattle.plugin_settings.specs.Inputs.{http_set};

    ghost setting = { http_set };

    fn set(&mut self, alloc: Global, name: &str, value: &SettingValue) -> Result<(), FromFault> {
        match name {
            "port" => assign(&mut self.port, read_port(alloc, name, value)),
            "host" => assign(&mut self.host, read_text(alloc, name, value)),
            _ => self.common.set(alloc, name, value),
        }
    }
}

impl HttpSettings {
    /// Reads the settings. The fault is that of the first setting, in the order of the text, that is
    /// unknown or of another kind.
    pub fn from_settings(settings: &Settings) -> Result<HttpSettings, FromFault>
        ensures { Gives result (spec.http_of settings.now.list) }
    {
        let alloc = settings.list.allocator();
        let start = HttpSettings {
            port: 8080,
            host: Text::of(alloc, "0.0.0.0")?,
            common: InputSettings::new(alloc, Codec::Line),
        };
        read_settings(settings, start)
    }
}

/// What the input `pipeline` is set to.
pub struct AddressSettings {
    /// The address on which it listens.
    pub address: Text,
    pub common: InputSettings,
}

impl Drop for AddressSettings {
    fn drop(self) {
        let AddressSettings {
            address: _address,
            common: _common,
        } = self;
    }
}

impl SetByName for AddressSettings {
    ghost use Rattle.plugin_settings.specs.Inputs.{address_set};

    ghost setting = { address_set };

    fn set(&mut self, alloc: Global, name: &str, value: &SettingValue) -> Result<(), FromFault> {
        match name {
            "address" => assign(&mut self.address, read_text(alloc, name, value)),
            _ => self.common.set(alloc, name, value),
        }
    }
}

impl AddressSettings {
    /// Reads the settings. The fault is that of the first setting, in the order of the text, that is
    /// unknown or of another kind, and then `Missing` where `address` doesn't stand.
    pub fn from_settings(settings: &Settings) -> Result<AddressSettings, FromFault>
        ensures { Gives result (spec.address_of settings.now.list) }
    {
        let alloc = settings.list.allocator();
        let start = AddressSettings {
            address: Text::of(alloc, "")?,
            common: InputSettings::new(alloc, Codec::Line),
        };
        let read = read_settings(settings, start)?;
        require(settings, "address", read)
    }
}

/// What `dead_letter_queue` is set to.
pub struct DeadLetterSettings {
    /// The pipeline whose dead letters it reads.
    pub pipeline_id: Text,
    pub common: InputSettings,
}

impl Drop for DeadLetterSettings {
    fn drop(self) {
        let DeadLetterSettings {
            pipeline_id: _pipeline_id,
            common: _common,
        } = self;
    }
}

impl SetByName for DeadLetterSettings {
    ghost use Rattle.plugin_settings.specs.Inputs.{letters_set};

    ghost setting = { letters_set };

    fn set(&mut self, alloc: Global, name: &str, value: &SettingValue) -> Result<(), FromFault> {
        match name {
            "pipeline_id" => assign(&mut self.pipeline_id, read_text(alloc, name, value)),
            _ => self.common.set(alloc, name, value),
        }
    }
}

impl DeadLetterSettings {
    /// Reads the settings. The fault is that of the first setting, in the order of the text, that is
    /// unknown or of another kind.
    pub fn from_settings(settings: &Settings) -> Result<DeadLetterSettings, FromFault>
        ensures { Gives result (spec.letters_of settings.now.list) }
    {
        let alloc = settings.list.allocator();
        let start = DeadLetterSettings {
            pipeline_id: Text::of(alloc, "main")?,
            common: InputSettings::new(alloc, Codec::Line),
        };
        read_settings(settings, start)
    }
}
