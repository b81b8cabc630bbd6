// Settings that are one text, flag, path or template.
ghost use Rattle.std.specs.Prelude.{◌≡◌, IfOk};
ghost use Rattle.std.specs.Option.{option_copied};
ghost use Rattle.filter_settings.specs.Readers as spec;
ghost use Rattle.filter_settings.specs.Settings.{Gives, wanted};

use crate::faults::wanted;
use config_tree::{FromFault, SettingValue};
use event_text::{Template, path_in};
use event_tree::Path;
use plain_data::Text;
use std::alloc::{AllocError, Global};

/// A whole setting that is a text, as it is written: no number, and no template.
pub fn read_text(alloc: Global, name: &str, value: &SettingValue) -> Result<Text, FromFault>
    ensures { Gives result (wanted name.now (spec.text_of value.now)) }
{
    wanted(alloc, name, copied(text_of(value))?)
}

/// A text that may be an id: one of 1 to 255 bytes.
pub fn read_id(alloc: Global, name: &str, value: &SettingValue) -> Result<Text, FromFault>
    ensures { Gives result (wanted name.now (spec.id_of value.now)) }
{
    wanted(alloc, name, copied(id_of(value))?)
}

/// A flag: the text `true` or `false`.
pub fn read_flag(alloc: Global, name: &str, value: &SettingValue) -> Result<bool, FromFault>
    ensures { Gives result (wanted name.now (spec.flag_of value.now)) }
{
    wanted(alloc, name, flag_of(value))
}

/// A whole setting that is the path of a field.
pub fn read_path(alloc: Global, name: &str, value: &SettingValue) -> Result<Path, FromFault>
    ensures { Gives result (wanted name.now (spec.path_of value.now)) }
{
    wanted(alloc, name, path_of(alloc, value)?)
}

/// A whole setting that is a template.
pub fn read_template(alloc: Global, name: &str, value: &SettingValue) -> Result<Template, FromFault>
    ensures { Gives result (wanted name.now (spec.template_of value.now)) }
{
    wanted(alloc, name, template_of(alloc, value)?)
}

fn copied(text: Option<&Text>) -> Result<Option<Text>, AllocError>
    ensures { IfOk result (λ copy. copy ≡ option_copied text.entry) }
{
    match text {
        Some(text) => Ok(Some(text.copy()?)),
        None => Ok(None),
    }
}

fn text_of(value: &SettingValue) -> Option<&Text>
    ensures { option_copied result ≡ spec.text_of value.now }
{
    match value {
        SettingValue::Text(text) => Some(text),
        SettingValue::Number(_)
        | SettingValue::Nested(_)
        | SettingValue::Array(_)
        | SettingValue::Hash(_) => None,
    }
}

fn id_of(value: &SettingValue) -> Option<&Text>
    ensures { option_copied result ≡ spec.id_of value.now }
{
    let text = text_of(value)?;
    if is_id(text) { Some(text) } else { None }
}

fn is_id(text: &Text) -> bool
    ensures { result ≡ spec.is_id text.now }
{
    0 < text.len() && text.len() <= 255
}

fn flag_of(value: &SettingValue) -> Option<bool>
    ensures { result ≡ spec.flag_of value.now }
{
    let text = text_of(value)?;
    match text.as_str() {
        "true" => Some(true),
        "false" => Some(false),
        _ => None,
    }
}

fn path_of(alloc: Global, value: &SettingValue) -> Result<Option<Path>, AllocError>
    ensures { IfOk result (λ path. path ≡ spec.path_of value.now) }
{
    match text_of(value) {
        Some(text) => path_in(alloc, text.as_str()),
        None => Ok(None),
    }
}

fn template_of(alloc: Global, value: &SettingValue) -> Result<Option<Template>, AllocError>
    ensures { IfOk result (λ template. template ≡ spec.template_of value.now) }
{
    match text_of(value) {
        Some(text) => Ok(Some(Template::read(alloc, text.as_str())?)),
        None => Ok(None),
    }
}
