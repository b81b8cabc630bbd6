// Settings that are hashes of fields.
ghost use Rattle.std.specs.Prelude.{◌≡◌, IfOk, option_and_then};
ghost use Rattle.std.specs.Option.{option_copied};
ghost use Rattle.event_text.specs.Options.{each_in};
ghost use Rattle.filter_settings.specs.Readers as spec;
ghost use Rattle.filter_settings.specs.Settings.{Gives, wanted};

use crate::conversion::Conversion;
use crate::faults::wanted;
use crate::items::ListItem;
use config_tree::{FromFault, SettingValue};
use event_text::{Template, path_in};
use event_tree::{Names, Path};
use plain_data::{Items, Text};
use std::alloc::{AllocError, Global};

/// A hash of fields with a text each, in the order of the text.
pub fn read_field_texts(
    alloc: Global,
    name: &str,
    value: &SettingValue,
) -> Result<Items<(Path, Text)>, FromFault>
    ensures { Gives result (wanted name.now (spec.field_texts_of value.now)) }
{
    read_fields(alloc, name, value)
}

/// A hash of fields with a list of texts each, in the order of the text.
pub fn read_field_lists(
    alloc: Global,
    name: &str,
    value: &SettingValue,
) -> Result<Items<(Path, Names)>, FromFault>
    ensures { Gives result (wanted name.now (spec.field_lists_of value.now)) }
{
    read_fields(alloc, name, value)
}

/// A hash of fields with the path of another each, in the order of the text.
pub fn read_field_paths(
    alloc: Global,
    name: &str,
    value: &SettingValue,
) -> Result<Items<(Path, Path)>, FromFault>
    ensures { Gives result (wanted name.now (spec.field_paths_of value.now)) }
{
    read_fields(alloc, name, value)
}

/// A hash of fields with a template each, in the order of the text.
pub fn read_field_templates(
    alloc: Global,
    name: &str,
    value: &SettingValue,
) -> Result<Items<(Path, Template)>, FromFault>
    ensures { Gives result (wanted name.now (spec.field_templates_of value.now)) }
{
    read_fields(alloc, name, value)
}

/// A hash of fields with the kind each is converted to, in the order of the text.
pub fn read_field_conversions(
    alloc: Global,
    name: &str,
    value: &SettingValue,
) -> Result<Items<(Path, Conversion)>, FromFault>
    ensures { Gives result (wanted name.now (spec.field_conversions_of value.now)) }
{
    read_fields(alloc, name, value)
}

// A hash of fields, whose values are all read alike.
fn read_fields<T: ListItem>(
    alloc: Global,
    name: &str,
    value: &SettingValue,
) -> Result<Items<(Path, T)>, FromFault>
    ensures { Gives result (wanted name.now
        (option_and_then (each_in (spec.at_field T.said)) (spec.hash_of value.now))) }
{
    match hash_of(value) {
        Some(entries) => wanted(alloc, name, fields_of(alloc, entries)?),
        None => wanted(alloc, name, None),
    }
}

/// The entries of a hash; `None` of another value.
pub fn hash_of(value: &SettingValue) -> Option<&[(Text, SettingValue)]>
    ensures { option_copied result ≡ spec.hash_of value.now }
{
    match value {
        SettingValue::Hash(entries) => Some(entries.as_slice()),
        SettingValue::Text(_)
        | SettingValue::Number(_)
        | SettingValue::Nested(_)
        | SettingValue::Array(_) => None,
    }
}

#[tactic(auto, using(crate::proofs::Steps::each))]
fn fields_of<T: ListItem>(
    alloc: Global,
    entries: &[(Text, SettingValue)],
) -> Result<Option<Items<(Path, T)>>, AllocError>
    ensures { IfOk result (λ found. found ≡ each_in (spec.at_field T.said) entries.now) }
{
    let mut found = Items::new(alloc);
    for entry in entries {
        let Some(field) = field_of(alloc, entry.0.as_str(), &entry.1)? else {
            return Ok(None);
        };
        found.push(field)?;
    }
    Ok(Some(found))
}

fn field_of<T: ListItem>(
    alloc: Global,
    key: &str,
    value: &SettingValue,
) -> Result<Option<(Path, T)>, AllocError>
    ensures { IfOk result (λ field. field ≡ spec.at_field T.said (key.now, value.now)) }
{
    let Some(path) = path_in(alloc, key)? else {
        return Ok(None);
    };
    match T::read(alloc, value)? {
        Some(item) => Ok(Some((path, item))),
        None => Ok(None),
    }
}
