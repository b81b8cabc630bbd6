// The codecs of inputs and outputs, read from their settings.
ghost use Rattle.std.specs.Prelude.{◌≡◌, IfOk};
ghost use Rattle.filter_settings.specs.Settings.{Gives};
ghost use Rattle.plugin_settings.specs.Codecs as spec;

use crate::faults::unknown;
use config_tree::{FromFault, SettingValue, Settings};
use event_text::Template;
use filter_settings::{SetByName, assign, read_settings, read_template, wanted};
use in_lines::{Codec, OutCodec};
use std::alloc::{AllocError, Global};

/// The format of a codec that writes texts.
#[derive(Drop)]
pub(crate) struct Format {
    template: Template,
}

impl SetByName for Format {
    ghost use Rattle.plugin_settings.specs.Codecs.{format_set};

    ghost setting = { format_set };

    fn set(&mut self, alloc: Global, name: &str, value: &SettingValue) -> Result<(), FromFault> {
        match name {
            "format" => assign(&mut self.template, read_template(alloc, name, value)),
            _ => Err(unknown(alloc, name)),
        }
    }
}

/// The codec of an input, by its name or as a plugin, which has no settings. The fault is `WrongKind` of the
/// setting where it is none, and else `Unknown` of the codec's first setting.
pub fn read_codec(alloc: Global, name: &str, value: &SettingValue) -> Result<Codec, FromFault>
    ensures { Gives result (spec.codec_read name.now value.now) }
{
    let codec = wanted(alloc, name, codec_of(value))?;
    if let SettingValue::Nested(plugin) = value {
        without_settings(&plugin.settings)?;
    }
    Ok(codec)
}

/// The codec of an output, by its name or as a plugin with its settings: `format` of `plain` and `line`,
/// which is `%{message}` by default. The fault is `WrongKind` of the setting where it is none, and else that
/// of the codec's first setting that is refused.
pub fn read_out_codec(
    alloc: Global,
    name: &str,
    value: &SettingValue,
) -> Result<OutCodec, FromFault>
    ensures { Gives result (spec.out_codec_read name.now value.now) }
{
    let codec = wanted(alloc, name, codec_of(value))?;
    match value {
        SettingValue::Nested(plugin) => {
            let format = read_format(codec, &plugin.settings)?;
            Ok(OutCodec {
                codec,
                format: format.template,
            })
        }
        SettingValue::Text(_)
        | SettingValue::Number(_)
        | SettingValue::Array(_)
        | SettingValue::Hash(_) => Ok(out_codec(alloc, codec)?),
    }
}

/// A codec of outputs before any of its settings.
pub(crate) fn out_codec(alloc: Global, codec: Codec) -> Result<OutCodec, AllocError>
    ensures { IfOk result (λ made. made ≡ spec.out_codec_start codec) }
{
    let format = message_format(alloc)?;
    Ok(OutCodec {
        codec,
        format: format.template,
    })
}

fn read_format(codec: Codec, settings: &Settings) -> Result<Format, FromFault>
    ensures { Gives result (spec.format_read codec settings.now.list) }
{
    let start = message_format(settings.list.allocator())?;
    if codec.writes_texts() {
        read_settings(settings, start)
    } else {
        without_settings(settings)?;
        Ok(start)
    }
}

fn message_format(alloc: Global) -> Result<Format, AllocError>
    ensures { IfOk result (λ format. format ≡ spec.format_start) }
{
    Ok(Format {
        template: Template::read(alloc, "%{message}")?,
    })
}

fn without_settings(settings: &Settings) -> Result<(), FromFault>
    ensures { Gives result (spec.without_settings settings.now.list tt) }
{
    match settings.list.as_slice() {
        [] => Ok(()),
        [first, ..] => Err(unknown(settings.list.allocator(), first.0.as_str())),
    }
}

fn codec_of(value: &SettingValue) -> Option<Codec>
    ensures { result ≡ spec.codec_of value.now }
{
    match value {
        SettingValue::Text(name) => Codec::named(name.as_str()),
        SettingValue::Nested(plugin) => Codec::named(plugin.name.as_str()),
        SettingValue::Number(_) | SettingValue::Array(_) | SettingValue::Hash(_) => None,
    }
}
