//! A short text for a tree.
//!
//! A plugin is `name{setting=value;..}`, a text `'..'`, a number `#mantissa/scale`, an array `[..,..]`, a hash
//! `<key=value,..>`. A branch is `?(condition){..}` for each arm, `(){..}` for an `else`. A condition is its
//! sign with what it joins, as `&(x,y)`. A field is its parts, as `.a.b`, with `@` in front of those in `meta`.

use config_tree::{
    Arm, Comparison, Condition, Config, Conjunction, Disjunction, Literal, MatchPattern, Matching,
    Operand, Plugin, SettingValue, Statement,
};
use event_tree::{Number, Path};
use plain_data::Text;
use std::alloc::AllocError;

pub fn add_text(to: &mut String, text: &Text) -> Result<(), AllocError> {
    to.push('\'')?;
    to.push_str(text.as_str())?;
    to.push('\'')
}

pub fn add_number(to: &mut String, number: &Number) -> Result<(), AllocError> {
    write!(to, "#{}/{}", number.mantissa(), number.scale())
}

#[cycle(values)]
pub fn add_value(to: &mut String, value: &SettingValue) -> Result<(), AllocError> {
    match value {
        SettingValue::Text(found) => add_text(to, found),
        SettingValue::Number(found) => add_number(to, found),
        SettingValue::Nested(found) => add_plugin(to, found),
        SettingValue::Array(found) => add_array(to, found.as_slice()),
        SettingValue::Hash(found) => add_hash(to, found.as_slice()),
    }
}

#[cycle(values)]
pub fn add_array(to: &mut String, found: &[SettingValue]) -> Result<(), AllocError> {
    to.push('[')?;
    let mut later = false;
    for member in found {
        if later {
            to.push(',')?;
        }
        add_value(to, member)?;
        later = true;
    }
    to.push(']')
}

#[cycle(values)]
pub fn add_hash(to: &mut String, found: &[(Text, SettingValue)]) -> Result<(), AllocError> {
    to.push('<')?;
    add_entries(to, found, ',')?;
    to.push('>')
}

#[cycle(values)]
fn add_entries(
    to: &mut String,
    found: &[(Text, SettingValue)],
    separator: char,
) -> Result<(), AllocError> {
    let mut later = false;
    for entry in found {
        if later {
            to.push(separator)?;
        }
        to.push_str(entry.0.as_str())?;
        to.push('=')?;
        add_value(to, &entry.1)?;
        later = true;
    }
    Ok(())
}

#[cycle(values)]
fn add_plugin(to: &mut String, found: &Plugin) -> Result<(), AllocError> {
    to.push_str(found.name.as_str())?;
    to.push('{')?;
    add_entries(to, found.settings.list.as_slice(), ';')?;
    to.push('}')
}

fn add_path(to: &mut String, found: &Path) -> Result<(), AllocError> {
    if found.is_meta() {
        to.push('@')?;
    }
    for part in found.parts() {
        to.push('.')?;
        to.push_str(part.as_str())?;
    }
    Ok(())
}

fn add_literals(to: &mut String, found: &[Literal]) -> Result<(), AllocError> {
    to.push('[')?;
    let mut between = "";
    for member in found {
        to.push_str(between)?;
        match member {
            Literal::Text(found) => add_text(to, found)?,
            Literal::Number(found) => add_number(to, found)?,
        }
        between = ",";
    }
    to.push(']')
}

fn add_operand(to: &mut String, found: &Operand) -> Result<(), AllocError> {
    match found {
        Operand::Field(found) => add_path(to, found),
        Operand::Text(found) => add_text(to, found),
        Operand::Number(found) => add_number(to, found),
        Operand::List(found) => add_literals(to, found.as_slice()),
    }
}

fn add_pattern(to: &mut String, found: &MatchPattern) -> Result<(), AllocError> {
    match found {
        MatchPattern::Regexp(found) => write!(to, "/{}/", found.as_str()),
        MatchPattern::Text(found) => add_text(to, found),
    }
}

fn conjunction_sign(joint: Conjunction) -> &'static str {
    match joint {
        Conjunction::And => "and",
        Conjunction::Nand => "nand",
    }
}

fn disjunction_sign(joint: Disjunction) -> &'static str {
    match joint {
        Disjunction::Or => "or",
        Disjunction::Xor => "xor",
    }
}

fn comparison_sign(comparison: Comparison) -> &'static str {
    match comparison {
        Comparison::Equal => "==",
        Comparison::Unequal => "!=",
        Comparison::Less => "<",
        Comparison::Greater => ">",
        Comparison::AtMost => "<=",
        Comparison::AtLeast => ">=",
    }
}

fn matching_sign(matching: Matching) -> &'static str {
    match matching {
        Matching::Matches => "=~",
        Matching::MatchesNot => "!~",
    }
}

/// A sign, and behind it the two operands that it joins.
fn add_comparison(
    to: &mut String,
    sign: &str,
    left: &Operand,
    right: &Operand,
) -> Result<(), AllocError> {
    to.push_str(sign)?;
    to.push('(')?;
    add_operand(to, left)?;
    to.push(',')?;
    add_operand(to, right)?;
    to.push(')')
}

fn add_matching(
    to: &mut String,
    sign: &str,
    left: &Operand,
    right: &MatchPattern,
) -> Result<(), AllocError> {
    to.push_str(sign)?;
    to.push('(')?;
    add_operand(to, left)?;
    to.push(',')?;
    add_pattern(to, right)?;
    to.push(')')
}

/// The signs of a row of joints, from the last one on.
fn add_conjunctions(to: &mut String, rest: &[(Conjunction, Condition)]) -> Result<(), AllocError> {
    for part in rest.iter().rev() {
        to.push_str(conjunction_sign(part.0))?;
        to.push('(')?;
    }
    Ok(())
}

fn add_disjunctions(to: &mut String, rest: &[(Disjunction, Condition)]) -> Result<(), AllocError> {
    for part in rest.iter().rev() {
        to.push_str(disjunction_sign(part.0))?;
        to.push('(')?;
    }
    Ok(())
}

/// A row of joints is shown as they associate, to the left: `a and b nand c` as `nand(and(a,b),c)`.
#[cycle(conditions)]
fn add_condition(to: &mut String, found: &Condition) -> Result<(), AllocError> {
    match found {
        Condition::Operand(only) => add_operand(to, only),
        Condition::Not(inner) => {
            to.push_str("!(")?;
            add_condition(to, inner.get())?;
            to.push(')')
        }
        Condition::Conjoined(first, rest) => {
            add_conjunctions(to, rest.as_slice())?;
            add_condition(to, first.get())?;
            add_conjoined(to, rest.as_slice())
        }
        Condition::Disjoined(first, rest) => {
            add_disjunctions(to, rest.as_slice())?;
            add_condition(to, first.get())?;
            add_disjoined(to, rest.as_slice())
        }
        Condition::Compared(by, left, right) => {
            add_comparison(to, comparison_sign(*by), left, right)
        }
        Condition::Matched(by, left, right) => add_matching(to, matching_sign(*by), left, right),
        Condition::In(left, right) => add_comparison(to, "in", left, right),
        Condition::NotIn(left, right) => add_comparison(to, "not in", left, right),
    }
}

#[cycle(conditions)]
fn add_conjoined(to: &mut String, rest: &[(Conjunction, Condition)]) -> Result<(), AllocError> {
    for part in rest {
        to.push(',')?;
        add_condition(to, &part.1)?;
        to.push(')')?;
    }
    Ok(())
}

#[cycle(conditions)]
fn add_disjoined(to: &mut String, rest: &[(Disjunction, Condition)]) -> Result<(), AllocError> {
    for part in rest {
        to.push(',')?;
        add_condition(to, &part.1)?;
        to.push(')')?;
    }
    Ok(())
}

#[cycle(statements)]
fn add_statements(to: &mut String, found: &[Statement]) -> Result<(), AllocError> {
    let mut later = false;
    for statement in found {
        if later {
            to.push(' ')?;
        }
        match statement {
            Statement::Plugin(found) => add_plugin(to, found)?,
            Statement::Branch(found) => add_arms(to, found.as_slice())?,
        }
        later = true;
    }
    Ok(())
}

#[cycle(statements)]
fn add_arms(to: &mut String, found: &[Arm]) -> Result<(), AllocError> {
    to.push('?')?;
    for arm in found {
        to.push('(')?;
        if let Some(condition) = &arm.condition {
            add_condition(to, condition)?;
        }
        to.push_str("){")?;
        add_statements(to, arm.block.as_slice())?;
        to.push('}')?;
    }
    Ok(())
}

fn add_plugins(to: &mut String, found: &[Plugin]) -> Result<(), AllocError> {
    let mut between = "";
    for plugin in found {
        to.push_str(between)?;
        add_plugin(to, plugin)?;
        between = " ";
    }
    Ok(())
}

/// The inputs, filters and outputs, with `|` between them.
pub fn add_config(to: &mut String, found: &Config) -> Result<(), AllocError> {
    add_plugins(to, found.inputs.as_slice())?;
    to.push('|')?;
    add_statements(to, found.filters.as_slice())?;
    to.push('|')?;
    add_statements(to, found.outputs.as_slice())
}
