//! Values while they are read, and how settings that stand twice are joined.

ghost use Rattle.std.specs.Prelude.{◌≡◌, IfOk, OnOk};
ghost use Rattle.config_tree.specs.Joining as joining;
ghost use Rattle.config_parse.specs.Tables.{value_of, values_of, held_at, JoinsTo, IsSameElsewhere, HasSetting};

use config_tree::{Plugin, SettingValue};
use event_tree::Number;
use indexmap::IndexMap;
use plain_data::{Items, Text};
use std::alloc::{AllocError, Global};

/// Names, or keys, with their values.
pub type Entries = Items<(Text, SettingValue)>;

/// A hash while it is read: each key is found at once, and the keys stay in the order of the text.
pub type ReadHash = IndexMap<Text, SettingValue>;

/// The settings of a plugin while they are read.
pub type ReadSettings = IndexMap<Text, ReadValue>;

/// A value as it is read. A setting's may be joined with a later one.
#[derive(Drop)]
pub enum ReadValue {
    Text(Text),
    Number(Number),
    Nested(Plugin),
    Array(Items<SettingValue>),
    Hash(ReadHash),
}

/// The entries of a hash, once it is read.
fn entries_of(alloc: Global, table: ReadHash) -> Result<Entries, AllocError>
    ensures { IfOk result (λ entries. entries ≡ table.entries) }
{
    let mut entries = Items::with_capacity(alloc, table.len())?;
    for entry in table {
        entries.push(entry)?;
    }
    Ok(entries)
}

/// A value, once it is read and joined.
pub fn finished(alloc: Global, value: ReadValue) -> Result<SettingValue, AllocError>
    ensures { IfOk result (λ made. made ≡ value_of value) }
{
    match value {
        ReadValue::Text(text) => Ok(SettingValue::Text(text)),
        ReadValue::Number(number) => Ok(SettingValue::Number(number)),
        ReadValue::Nested(plugin) => Ok(SettingValue::Nested(plugin)),
        ReadValue::Array(members) => Ok(SettingValue::Array(members)),
        ReadValue::Hash(table) => Ok(SettingValue::Hash(entries_of(alloc, table)?)),
    }
}

/// The settings of a plugin, once they are read.
pub fn finished_settings(alloc: Global, settings: ReadSettings) -> Result<Entries, AllocError>
    ensures { IfOk result (λ entries. entries ≡ values_of settings.entries) }
{
    let mut entries = Items::with_capacity(alloc, settings.len())?;
    for (name, value) in settings {
        entries.push((name, finished(alloc, value)?))?;
    }
    Ok(entries)
}

/// Puts an entry in the place of the one with this key, or at the end.
pub fn put_entry(table: &mut ReadHash, key: Text, value: SettingValue) -> Result<(), AllocError>
    ensures { OnOk result (table.new.entries ≡ joining.with_entry key value table.old.entries) }
{
    table.insert(key, value)?;
    Ok(())
}

/// Two hashes as one: of a key that both have, the later value in the place of the first.
fn with_entries(table: ReadHash, later: ReadHash) -> Result<ReadHash, AllocError>
    ensures { IfOk result (λ made. made.entries ≡ joining.with_entries table.entries
        later.entries) }
{
    let mut table = table;
    for (key, value) in later {
        put_entry(&mut table, key, value)?;
    }
    Ok(table)
}

/// A value of a setting with the earlier one, where there is one: two arrays as one, two hashes as one, and else the later.
fn joined(earlier: Option<ReadValue>, later: ReadValue) -> Result<ReadValue, AllocError>
    ensures { IfOk result (JoinsTo earlier later) }
{
    match (earlier, later) {
        (Some(ReadValue::Array(members)), ReadValue::Array(more)) => {
            let mut members = members;
            members.append(more)?;
            Ok(ReadValue::Array(members))
        }
        (Some(ReadValue::Hash(table)), ReadValue::Hash(more)) => {
            Ok(ReadValue::Hash(with_entries(table, more)?))
        }
        (_, later) => Ok(later),
    }
}

/// The value that stands at the name, taken out; none where none stands there. Something else takes its place.
fn taken(
    alloc: Global,
    settings: &mut ReadSettings,
    name: &Text,
) -> Result<Option<ReadValue>, AllocError>
    ensures earlier { IfOk result (λ earlier. earlier ≡ held_at name.now settings.old.entries) }
    ensures rest { OnOk result (IsSameElsewhere name.now settings.old.entries
        settings.new.entries) }
{
    if settings.contains_key(name) {
        Ok(settings.insert(name.copy()?, ReadValue::Array(Items::new(alloc)))?)
    } else {
        Ok(None)
    }
}

/// Puts a setting in the place of the one with this name, joined with it, or at the end.
pub fn put_setting(
    alloc: Global,
    settings: &mut ReadSettings,
    name: Text,
    value: ReadValue,
) -> Result<(), AllocError>
    ensures { OnOk result (HasSetting name value settings.old.entries settings.new.entries) }
{
    let earlier = taken(alloc, settings, &name)?;
    settings.insert(name, joined(earlier, value)?)?;
    Ok(())
}
