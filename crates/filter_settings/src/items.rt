// What an item of a list, or a value of a hash, is read as.
ghost use Rattle.std.specs.Prelude.{◌≡◌, IfOk};
ghost use Rattle.filter_settings.specs.Readers as spec;

use crate::conversion::Conversion;
use crate::lists::list_items;
use config_tree::SettingValue;
use event_text::{Template, path_in, value_text};
use event_tree::{Names, Path, Value};
use plain_data::Text;
use std::alloc::{AllocError, Global};

/// What stands in lists and hashes of settings.
pub(crate) trait ListItem: Drop {
    ghost use Rattle.std.specs.Prelude.{Option, ◌≡◌, IfOk};
    ghost use Rattle.config_tree.specs.declared.tree.SettingValue.{SettingValue};

    ghost said: { SettingValue → Option Self };

    /// What a value says; `None` of one of another kind.
    fn read(alloc: Global, value: &SettingValue) -> Result<Option<Self>, AllocError>
        ensures { IfOk result (λ found. found ≡ said value.now) };
}

impl ListItem for Text {
    ghost use Rattle.filter_settings.specs.Readers.{text_item};

    ghost said = { text_item };

    fn read(alloc: Global, value: &SettingValue) -> Result<Option<Text>, AllocError> {
        text_item(alloc, value)
    }
}

impl ListItem for Path {
    ghost use Rattle.filter_settings.specs.Readers.{path_item};

    ghost said = { path_item };

    fn read(alloc: Global, value: &SettingValue) -> Result<Option<Path>, AllocError> {
        match text_item(alloc, value)? {
            Some(text) => path_in(alloc, text.as_str()),
            None => Ok(None),
        }
    }
}

impl ListItem for Template {
    ghost use Rattle.filter_settings.specs.Readers.{template_item};

    ghost said = { template_item };

    fn read(alloc: Global, value: &SettingValue) -> Result<Option<Template>, AllocError> {
        match text_item(alloc, value)? {
            Some(text) => Ok(Some(Template::read(alloc, text.as_str())?)),
            None => Ok(None),
        }
    }
}

impl ListItem for Names {
    ghost use Rattle.filter_settings.specs.Readers.{texts_of};

    ghost said = { texts_of };

    fn read(alloc: Global, value: &SettingValue) -> Result<Option<Names>, AllocError> {
        list_items(alloc, value)
    }
}

impl ListItem for Conversion {
    ghost use Rattle.filter_settings.specs.Readers.{conversion_item};

    ghost said = { conversion_item };

    fn read(alloc: Global, value: &SettingValue) -> Result<Option<Conversion>, AllocError> {
        match text_item(alloc, value)? {
            Some(text) => Ok(conversion_of(text.as_str())),
            None => Ok(None),
        }
    }
}

/// A text, or a number as its decimal text; `None` of another value.
pub fn text_item(alloc: Global, item: &SettingValue) -> Result<Option<Text>, AllocError>
    ensures { IfOk result (λ text. text ≡ spec.text_item item.now) }
{
    match item {
        SettingValue::Text(text) => Ok(Some(text.copy()?)),
        SettingValue::Number(number) => Ok(Some(value_text(alloc, &Value::Num(*number))?)),
        SettingValue::Nested(_) | SettingValue::Array(_) | SettingValue::Hash(_) => Ok(None),
    }
}

fn conversion_of(text: &str) -> Option<Conversion>
    ensures { result ≡ spec.conversion_of text.now }
{
    match text {
        "integer" => Some(Conversion::Integer),
        "float" => Some(Conversion::Float),
        "string" => Some(Conversion::Text),
        "boolean" => Some(Conversion::Boolean),
        _ => None,
    }
}
