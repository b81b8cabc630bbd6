// Settings that are lists of texts, paths or templates.
ghost use Rattle.std.specs.Prelude.{◌≡◌, IfOk, option_and_then};
ghost use Rattle.std.specs.Option.{option_copied};
ghost use Rattle.event_text.specs.Options.{each_in};
ghost use Rattle.filter_settings.specs.Readers as spec;
ghost use Rattle.filter_settings.specs.Settings.{Gives, wanted};

use crate::faults::wanted;
use crate::items::ListItem;
use config_tree::{FromFault, SettingValue};
use event_text::Template;
use event_tree::{Names, Path};
use plain_data::Items;
use std::alloc::{AllocError, Global};
use std::slice;

/// A list of texts.
pub fn read_texts(alloc: Global, name: &str, value: &SettingValue) -> Result<Names, FromFault>
    ensures { Gives result (wanted name.now (spec.texts_of value.now)) }
{
    read_items(alloc, name, value)
}

/// A list of paths of fields.
pub fn read_paths(alloc: Global, name: &str, value: &SettingValue) -> Result<Items<Path>, FromFault>
    ensures { Gives result (wanted name.now (spec.paths_of value.now)) }
{
    read_items(alloc, name, value)
}

/// A list of templates.
pub fn read_templates(
    alloc: Global,
    name: &str,
    value: &SettingValue,
) -> Result<Items<Template>, FromFault>
    ensures { Gives result (wanted name.now (spec.templates_of value.now)) }
{
    read_items(alloc, name, value)
}

// A list, each of whose items is read alike.
fn read_items<T: ListItem>(
    alloc: Global,
    name: &str,
    value: &SettingValue,
) -> Result<Items<T>, FromFault>
    ensures { Gives result (wanted name.now
        (option_and_then (each_in T.said) (spec.list_of value.now))) }
{
    wanted(alloc, name, list_items(alloc, value)?)
}

/// The items of a list; `None` of another value, or where one of them is of another kind.
pub(crate) fn list_items<T: ListItem>(
    alloc: Global,
    value: &SettingValue,
) -> Result<Option<Items<T>>, AllocError>
    ensures { IfOk result (λ found. found
        ≡ option_and_then (each_in T.said) (spec.list_of value.now)) }
{
    match list_of(value) {
        Some(values) => items_of(alloc, values),
        None => Ok(None),
    }
}

// A list: an array, and a single text or number as a list of one.
fn list_of(value: &SettingValue) -> Option<&[SettingValue]>
    ensures { option_copied result ≡ spec.list_of value.now }
{
    match value {
        SettingValue::Array(values) => Some(values.as_slice()),
        SettingValue::Text(_) | SettingValue::Number(_) => Some(slice::from_ref(value)),
        SettingValue::Nested(_) | SettingValue::Hash(_) => None,
    }
}

#[tactic(auto, using(crate::proofs::Steps::each))]
fn items_of<T: ListItem>(
    alloc: Global,
    values: &[SettingValue],
) -> Result<Option<Items<T>>, AllocError>
    ensures { IfOk result (λ found. found ≡ each_in T.said values.now) }
{
    let mut found = Items::new(alloc);
    for value in values {
        let Some(item) = T::read(alloc, value)? else {
            return Ok(None);
        };
        found.push(item)?;
    }
    Ok(Some(found))
}
