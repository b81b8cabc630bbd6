//! Values and settings.

ghost use Rattle.std.specs.Prelude.{◌≡◌, ◌++◌, ◌∷◌, [], IfOk, OnOk};
ghost use Rattle.config_print.specs.Prints.{Prints, Lays};
ghost use Rattle.config_print.specs.Printed as spec;

use crate::conditions::add_comma;
use crate::tokens::{add_nested_name, add_number, add_plugin_name, add_setting_name, add_string};
use config_tree::{Plugin, SettingValue};
use plain_data::Text;
use std::alloc::AllocError;

/// What stands in front of what goes on a line of its own.
#[derive(Clone, Copy)]
pub enum Indent {
    /// One blank: all stands on one line.
    OneLine,
    /// A newline, and two blanks for each of so many levels.
    Level(usize),
}

/// The margin of what is one level deeper.
pub(crate) fn deeper(margin: Indent) -> Result<Indent, AllocError>
    ensures { IfOk result (λ made. made ≡ spec.deeper margin) }
{
    match margin {
        Indent::OneLine => Ok(Indent::OneLine),
        Indent::Level(levels) => match levels.checked_add(1) {
            Some(more) => Ok(Indent::Level(more)),
            None => Err(AllocError),
        },
    }
}

fn add_indentation(to: &mut String, levels: usize) -> Result<(), AllocError>
    ensures { OnOk result (Prints to.old to.new (spec.indentation levels)) }
{
    for level in 0..levels {
        to.push_str("  ")?;
    }
    Ok(())
}

pub(crate) fn add_gap(to: &mut String, margin: Indent) -> Result<(), AllocError>
    ensures { OnOk result (Prints to.old to.new (spec.gap margin)) }
{
    match margin {
        Indent::OneLine => to.push_str(" "),
        Indent::Level(levels) => {
            to.push_str("\n")?;
            add_indentation(to, levels)
        }
    }
}

/// The end of what stands in braces.
pub(crate) fn add_close_brace(to: &mut String, margin: Indent) -> Result<(), AllocError>
    ensures { OnOk result (Prints to.old to.new (spec.gap margin ++ 125 ∷ [])) }
{
    add_gap(to, margin)?;
    to.push_str("}")
}

/// An array behind a blank.
#[cycle(values)]
fn add_members(to: &mut String, list: &[SettingValue]) -> Result<(), AllocError>
    ensures { OnOk result (Lays to.old to.new (spec.members_in_line list.now)) }
{
    to.push_str(" [")?;
    let mut later = false;
    for member in list {
        add_comma(to, later)?;
        add_value(to, member, Indent::OneLine)?;
        later = true;
    }
    to.push_str(" ]")
}

#[cycle(values)]
fn add_pair(
    to: &mut String,
    value: &SettingValue,
    key: &str,
    margin: Indent,
) -> Result<(), AllocError>
    ensures { OnOk result (Lays to.old to.new (spec.pair_line margin (key.now, value.now))) }
{
    add_gap(to, margin)?;
    add_string(to, key)?;
    to.push_str(" =>")?;
    add_value(to, value, margin)
}

/// A hash behind a blank.
#[cycle(values)]
fn add_pairs(
    to: &mut String,
    list: &[(Text, SettingValue)],
    margin: Indent,
) -> Result<(), AllocError>
    ensures { OnOk result (Lays to.old to.new (spec.pairs list.now margin)) }
{
    to.push_str(" {")?;
    let inner = deeper(margin)?;
    for pair in list {
        add_pair(to, &pair.1, pair.0.as_str(), inner)?;
    }
    add_close_brace(to, margin)
}

#[cycle(values)]
fn add_setting(
    to: &mut String,
    value: &SettingValue,
    name: &str,
    margin: Indent,
) -> Result<(), AllocError>
    ensures { OnOk result (Lays to.old to.new (spec.setting_line margin (name.now, value.now))) }
{
    add_gap(to, margin)?;
    add_setting_name(to, name)?;
    to.push_str(" =>")?;
    add_value(to, value, margin)
}

/// The settings of a plugin behind a blank.
#[cycle(values)]
fn add_settings(
    to: &mut String,
    list: &[(Text, SettingValue)],
    margin: Indent,
) -> Result<(), AllocError>
    ensures { OnOk result (Lays to.old to.new (spec.settings list.now margin)) }
{
    to.push_str(" {")?;
    let inner = deeper(margin)?;
    for setting in list {
        add_setting(to, &setting.1, setting.0.as_str(), inner)?;
    }
    add_close_brace(to, margin)
}

/// A value behind a blank.
#[tactic(auto, using(crate::proofs::Equations::values))]
#[cycle(values)]
fn add_value(to: &mut String, value: &SettingValue, margin: Indent) -> Result<(), AllocError>
    ensures { OnOk result (Lays to.old to.new (spec.value value.now margin)) }
{
    match value {
        SettingValue::Text(text) => {
            to.push_str(" ")?;
            add_string(to, text.as_str())
        }
        SettingValue::Number(number) => {
            to.push_str(" ")?;
            add_number(to, number)
        }
        SettingValue::Nested(plugin) => {
            to.push_str(" ")?;
            add_nested_name(to, plugin.name.as_str())?;
            add_settings(to, plugin.settings.list.as_slice(), margin)
        }
        SettingValue::Array(members) => add_members(to, members.as_slice()),
        SettingValue::Hash(pairs) => add_pairs(to, pairs.as_slice(), margin),
    }
}

/// A plugin that is a statement, on a line of its own.
pub(crate) fn add_plugin(to: &mut String, plugin: &Plugin, margin: Indent) -> Result<(), AllocError>
    ensures { OnOk result (Lays to.old to.new (spec.plugin plugin.now margin)) }
{
    add_gap(to, margin)?;
    add_plugin_name(to, plugin.name.as_str())?;
    add_settings(to, plugin.settings.list.as_slice(), margin)
}
