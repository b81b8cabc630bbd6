//! Readers of settings: each takes the value at a name as one kind, or says that it is of another.

ghost use Rattle.std.specs.Prelude.{◌≡◌};
ghost use Rattle.std.specs.Option.{option_copied};
ghost use Rattle.config_tree.specs.Readers.{value_at, flag_of, AsText, AsFlag, AsNumber, AsList, AsHash, IsWrongKind, AnswersAt};

use crate::fault::{FromFault, SettingFault};
use crate::tree::{SettingValue, Settings};
use event_tree::Number;
use plain_data::Text;
use std::slice;

/// Each reader is `None` exactly where the name doesn't stand, and `Bad(WrongKind(name))` exactly where it stands with a
/// value of another kind. That refusal has the name, and `Memory` comes in its place where memory runs out. Nothing else
/// takes memory. The names are searched one by one.
impl Settings {
    /// The value at a name, the first where several settings have it.
    pub fn get(&self, name: &str) -> Option<&SettingValue>
        ensures { option_copied result ≡ value_at name.now self.now.list }
    {
        for entry in self.list.as_slice() {
            if entry.0.as_str() == name {
                return Some(&entry.1);
            }
        }
        None
    }

    /// A text.
    pub fn text(&self, name: &str) -> Result<Option<&Text>, FromFault>
        ensures { AnswersAt AsText option_copied name.now self.now.list result }
    {
        match self.get(name) {
            None => Ok(None),
            Some(SettingValue::Text(text)) => Ok(Some(text)),
            Some(_) => Err(self.wrong_kind(name)),
        }
    }

    /// A flag: the text `true` or `false`.
    pub fn flag(&self, name: &str) -> Result<Option<bool>, FromFault>
        ensures { AnswersAt AsFlag (λ found. found) name.now self.now.list result }
    {
        match self.get(name) {
            None => Ok(None),
            Some(SettingValue::Text(text)) => match flag_in(text.as_str()) {
                Some(flag) => Ok(Some(flag)),
                None => Err(self.wrong_kind(name)),
            },
            Some(_) => Err(self.wrong_kind(name)),
        }
    }

    /// A number: a number, or a text that `Number::read` reads.
    pub fn number(&self, name: &str) -> Result<Option<Number>, FromFault>
        ensures { AnswersAt AsNumber (λ found. found) name.now self.now.list result }
    {
        match self.get(name) {
            None => Ok(None),
            Some(SettingValue::Number(number)) => Ok(Some(*number)),
            Some(SettingValue::Text(text)) => match Number::read(text.as_str()) {
                Some(number) => Ok(Some(number)),
                None => Err(self.wrong_kind(name)),
            },
            Some(_) => Err(self.wrong_kind(name)),
        }
    }

    /// A list: an array, and a single text or number as a list of one.
    pub fn list(&self, name: &str) -> Result<Option<&[SettingValue]>, FromFault>
        ensures { AnswersAt AsList option_copied name.now self.now.list result }
    {
        match self.get(name) {
            None => Ok(None),
            Some(SettingValue::Array(values)) => Ok(Some(values.as_slice())),
            Some(value) => match value {
                SettingValue::Text(_) | SettingValue::Number(_) => Ok(Some(slice::from_ref(value))),
                _ => Err(self.wrong_kind(name)),
            },
        }
    }

    /// A hash: its keys with their values, in the order of the text.
    pub fn hash(&self, name: &str) -> Result<Option<&[(Text, SettingValue)]>, FromFault>
        ensures { AnswersAt AsHash option_copied name.now self.now.list result }
    {
        match self.get(name) {
            None => Ok(None),
            Some(SettingValue::Hash(entries)) => Ok(Some(entries.as_slice())),
            Some(_) => Err(self.wrong_kind(name)),
        }
    }

    // That the value at a name is of another kind.
    fn wrong_kind(&self, name: &str) -> FromFault
        ensures { IsWrongKind name.now result }
    {
        match Text::of(self.list.allocator(), name) {
            Ok(name) => FromFault::Bad(SettingFault::WrongKind(name)),
            Err(_) => FromFault::Memory,
        }
    }
}

fn flag_in(text: &str) -> Option<bool>
    ensures { result ≡ flag_of text.now }
{
    match text {
        "true" => Some(true),
        "false" => Some(false),
        _ => None,
    }
}
