// Settings that are whole numbers or ports.
ghost use Rattle.std.specs.Prelude.{◌≡◌};
ghost use Rattle.filter_settings.specs.Settings.{Gives, wanted};
ghost use Rattle.plugin_settings.specs.Numbers as spec;

use config_tree::{FromFault, SettingValue};
use event_text::number_of as number_in;
use event_tree::Number;
use filter_settings::wanted;
use std::alloc::Global;

/// A whole number from 0 on, or a text that writes one.
pub(crate) fn read_count(alloc: Global, name: &str, value: &SettingValue) -> Result<u64, FromFault>
    ensures { Gives result (wanted name.now (spec.count_of value.now)) }
{
    wanted(alloc, name, count_of(value))
}

/// The number of a port, from 1 to 65,535.
pub(crate) fn read_port(alloc: Global, name: &str, value: &SettingValue) -> Result<u16, FromFault>
    ensures { Gives result (wanted name.now (spec.port_of value.now)) }
{
    wanted(alloc, name, port_of(value))
}

fn number_of(value: &SettingValue) -> Option<Number>
    ensures { result ≡ spec.number_of value.now }
{
    match value {
        SettingValue::Number(number) => Some(*number),
        SettingValue::Text(text) => number_in(text.as_str()),
        SettingValue::Nested(_) | SettingValue::Array(_) | SettingValue::Hash(_) => None,
    }
}

fn whole(number: Number) -> Option<u64>
    ensures { result ≡ spec.whole number }
{
    if number.scale() == 0 && number.mantissa() >= 0 {
        Some(number.mantissa() as u64)
    } else {
        None
    }
}

fn count_of(value: &SettingValue) -> Option<u64>
    ensures { result ≡ spec.count_of value.now }
{
    whole(number_of(value)?)
}

fn port_in(count: u64) -> Option<u16>
    ensures { result ≡ spec.port_in count }
{
    if 1 <= count && count <= 65535 {
        Some(count as u16)
    } else {
        None
    }
}

fn port_of(value: &SettingValue) -> Option<u16>
    ensures { result ≡ spec.port_of value.now }
{
    port_in(count_of(value)?)
}
