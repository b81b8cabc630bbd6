// The readers of settings on the settings of a text.
use crate::show::{add_array, add_hash, add_number, add_text};
use config_parse::parse;
use config_tree::{FromFault, Plugin, SettingFault, SettingValue, Settings};
use plain_data::{Items, Text};
use std::alloc::{AllocError, Global};
use table_rows::first_word;

/// The settings of the last input of a configuration's text, and behind them a second one of the name `word`.
pub fn settings_of(alloc: Global, text: &str) -> Result<Settings, AllocError> {
    let mut settings = match parse(alloc, text) {
        Ok(mut config) => last_settings(alloc, &mut config.inputs),
        Err(_) => none(alloc),
    };
    let line = SettingValue::Text(Text::of(alloc, "line")?);
    add(&mut settings.list, "word", line)?;
    Ok(settings)
}

fn none(alloc: Global) -> Settings {
    Settings {
        list: Items::new(alloc),
    }
}

fn last_settings(alloc: Global, inputs: &mut Items<Plugin>) -> Settings {
    match inputs.pop() {
        Some(plugin) => plugin.settings,
        None => none(alloc),
    }
}

fn add(
    list: &mut Items<(Text, SettingValue)>,
    name: &str,
    value: SettingValue,
) -> Result<(), AllocError> {
    let name = Text::of(list.allocator(), name)?;
    list.push((name, value))
}

/// What a reader answers at a name.
pub fn answer(alloc: Global, settings: &Settings, case: &str) -> Result<String, AllocError> {
    let mut shown = String::new(alloc);
    let (reader, name) = first_word(case);
    match add_answer(&mut shown, settings, reader, name) {
        Ok(()) => Ok(shown),
        Err(fault) => format!(in alloc; "{fault}"),
    }
}

fn add_answer(
    to: &mut String,
    settings: &Settings,
    reader: &str,
    name: &str,
) -> Result<(), FromFault> {
    match reader {
        "text" => add_text_of(to, settings, name),
        "flag" => add_flag_of(to, settings, name),
        "number" => add_number_of(to, settings, name),
        "list" => add_list_of(to, settings, name),
        _ => add_hash_of(to, settings, name),
    }
}

fn add_text_of(to: &mut String, settings: &Settings, name: &str) -> Result<(), FromFault> {
    let found = settings.text(name)?;
    Ok(match found {
        Some(text) => add_text(to, text),
        None => to.push_str("none"),
    }?)
}

fn add_flag_of(to: &mut String, settings: &Settings, name: &str) -> Result<(), FromFault> {
    let found = settings.flag(name)?;
    Ok(match found {
        Some(flag) => write!(to, "{flag}"),
        None => to.push_str("none"),
    }?)
}

fn add_number_of(to: &mut String, settings: &Settings, name: &str) -> Result<(), FromFault> {
    let found = settings.number(name)?;
    Ok(match found {
        Some(number) => add_number(to, &number),
        None => to.push_str("none"),
    }?)
}

fn add_list_of(to: &mut String, settings: &Settings, name: &str) -> Result<(), FromFault> {
    let found = settings.list(name)?;
    Ok(match found {
        Some(values) => add_array(to, values),
        None => to.push_str("none"),
    }?)
}

fn add_hash_of(to: &mut String, settings: &Settings, name: &str) -> Result<(), FromFault> {
    let found = settings.hash(name)?;
    Ok(match found {
        Some(entries) => add_hash(to, entries),
        None => to.push_str("none"),
    }?)
}

/// What a refusal of this kind says, of a setting of this name.
pub fn refusal(alloc: Global, case: &str) -> Result<String, AllocError> {
    let (kind, name) = first_word(case);
    let name = Text::of(alloc, name)?;
    let fault = match kind {
        "missing" => SettingFault::Missing(name),
        "unknown" => SettingFault::Unknown(name),
        _ => SettingFault::BadPattern(name),
    };
    format!(in alloc; "{}", FromFault::Bad(fault))
}
