// The settings of the output `elasticsearch`.
ghost use Rattle.std.specs.Prelude.{◌≡◌, IfOk};
ghost use Rattle.filter_settings.specs.Settings.{Gives, wanted};
ghost use Rattle.out_bulk.specs.Settings as spec;

use crate::hosts::are_hosts;
use event_text::Template;
use event_tree::Names;
use filter_settings::{
    FromFault, SetByName, SettingValue, Settings, assign, read_settings, read_template, read_texts,
    require, wanted,
};
use plugin_settings::SinkSettings;
use std::alloc::{AllocError, Global};

/// What the output `elasticsearch` is set to.
pub struct BulkSettings {
    /// The hosts, each with a port. The first one alone is asked.
    pub hosts: Names,
    /// The name of the index, filled for each event.
    pub index: Template,
    pub common: SinkSettings,
}

impl Drop for BulkSettings {
    fn drop(self) {
        let BulkSettings {
            hosts: _hosts,
            index: _index,
            common: _common,
        } = self;
    }
}

impl SetByName for BulkSettings {
    ghost use Rattle.out_bulk.specs.Settings.{bulk_set};

    ghost setting = { bulk_set };

    fn set(&mut self, alloc: Global, name: &str, value: &SettingValue) -> Result<(), FromFault> {
        match name {
            "hosts" => assign(&mut self.hosts, read_hosts(alloc, name, value)),
            "index" => assign(&mut self.index, read_template(alloc, name, value)),
            _ => self.common.set(alloc, name, value),
        }
    }
}

impl BulkSettings {
    /// Reads the settings. The fault is that of the first setting, in the order of the text, that is unknown or of another
    /// kind, and then `Missing` where `hosts` doesn't stand.
    pub fn from_settings(settings: &Settings) -> Result<BulkSettings, FromFault>
        ensures { Gives result (spec.bulk_of settings.now.list) }
    {
        let start = before_any(settings.list.allocator())?;
        let read = read_settings(settings, start)?;
        require(settings, "hosts", read)
    }
}

#[tactic(auto, unfolding(crate::specs::Settings::bulk_start))]
fn before_any(alloc: Global) -> Result<BulkSettings, AllocError>
    ensures { IfOk result (λ start. start ≡ spec.bulk_start) }
{
    let index = Template::read(alloc, "ecs-logstash-%{+yyyy.MM.dd}")?;
    Ok(BulkSettings {
        hosts: Names::new(alloc),
        index,
        common: SinkSettings {},
    })
}

// A list of hosts, of which there is one at least.
fn read_hosts(alloc: Global, name: &str, value: &SettingValue) -> Result<Names, FromFault>
    ensures { Gives result (wanted name.now (spec.hosts_of value.now)) }
{
    let hosts = read_texts(alloc, name, value)?;
    if !hosts.is_empty() && are_hosts(hosts.as_slice()) {
        Ok(hosts)
    } else {
        wanted(alloc, name, None)
    }
}
