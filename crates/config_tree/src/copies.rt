//! Configurations made again. Each function walks what it is given once, by a loop along each list; calls nest with its
//! levels, of which a configuration that was read has at most 64.

ghost use Rattle.std.specs.Prelude.{◌≡◌, IfOk};
ghost use Rattle.config_tree.specs.declared.tree.Condition.TheVariants as condition;

use crate::operators::{Conjunction, Disjunction, Matching};
use crate::tree::{
    Arm, Condition, Config, Literal, MatchPattern, Operand, Plugin, SettingValue, Settings,
    Statement,
};
use plain_data::{Boxed, Items, Text};
use std::alloc::{AllocError, Global};

impl Config {
    /// The same configuration again, in memory of the same allocators. It takes time in proportion to the size of the
    /// configuration.
    pub fn copy(&self) -> Result<Config, AllocError>
        ensures { IfOk result (λ copy. copy ≡ self.now) }
    {
        Ok(Config {
            inputs: copy_plugins(self.inputs.allocator(), self.inputs.as_slice())?,
            filters: copy_statements(self.filters.allocator(), self.filters.as_slice())?,
            outputs: copy_statements(self.outputs.allocator(), self.outputs.as_slice())?,
        })
    }
}

impl Clone for Config {
    ghost is_clone = { λ config copy. copy ≡ config };

    fn clone(&self) -> Result<Self, AllocError> {
        self.copy()
    }
}

fn copy_plugins(alloc: Global, plugins: &[Plugin]) -> Result<Items<Plugin>, AllocError>
    ensures { IfOk result (λ copies. copies ≡ plugins.now) }
{
    let mut copies = Items::with_capacity(alloc, plugins.len())?;
    for plugin in plugins {
        copies.push(copy_plugin(plugin)?)?;
    }
    Ok(copies)
}

#[cycle(copy_settings)]
fn copy_plugin(plugin: &Plugin) -> Result<Plugin, AllocError>
    ensures { IfOk result (λ copy. copy ≡ plugin.now) }
{
    Ok(Plugin {
        name: plugin.name.copy()?,
        settings: copy_settings(&plugin.settings)?,
    })
}

#[cycle(copy_settings)]
fn copy_settings(settings: &Settings) -> Result<Settings, AllocError>
    ensures { IfOk result (λ copy. copy ≡ settings.now) }
{
    Ok(Settings {
        list: copy_entries(settings.list.allocator(), settings.list.as_slice())?,
    })
}

#[cycle(copy_settings)]
fn copy_value(value: &SettingValue) -> Result<SettingValue, AllocError>
    ensures { IfOk result (λ copy. copy ≡ value.now) }
{
    match value {
        SettingValue::Text(text) => Ok(SettingValue::Text(text.copy()?)),
        SettingValue::Number(number) => Ok(SettingValue::Number(*number)),
        SettingValue::Nested(plugin) => Ok(SettingValue::Nested(copy_plugin(plugin)?)),
        SettingValue::Array(values) => Ok(SettingValue::Array(copy_values(
            values.allocator(),
            values.as_slice(),
        )?)),
        SettingValue::Hash(entries) => Ok(SettingValue::Hash(copy_entries(
            entries.allocator(),
            entries.as_slice(),
        )?)),
    }
}

#[cycle(copy_settings)]
fn copy_values(alloc: Global, values: &[SettingValue]) -> Result<Items<SettingValue>, AllocError>
    ensures { IfOk result (λ copies. copies ≡ values.now) }
{
    let mut copies = Items::with_capacity(alloc, values.len())?;
    for value in values {
        copies.push(copy_value(value)?)?;
    }
    Ok(copies)
}

#[cycle(copy_settings)]
fn copy_entries(
    alloc: Global,
    entries: &[(Text, SettingValue)],
) -> Result<Items<(Text, SettingValue)>, AllocError>
    ensures { IfOk result (λ copies. copies ≡ entries.now) }
{
    let mut copies = Items::with_capacity(alloc, entries.len())?;
    for entry in entries {
        copies.push((entry.0.copy()?, copy_value(&entry.1)?))?;
    }
    Ok(copies)
}

#[cycle(copy_statements)]
fn copy_statement(statement: &Statement) -> Result<Statement, AllocError>
    ensures { IfOk result (λ copy. copy ≡ statement.now) }
{
    match statement {
        Statement::Plugin(plugin) => Ok(Statement::Plugin(copy_plugin(plugin)?)),
        Statement::Branch(arms) => Ok(Statement::Branch(copy_arms(
            arms.allocator(),
            arms.as_slice(),
        )?)),
    }
}

/// The statements of a section again, with all that stands in them.
#[cycle(copy_statements)]
pub fn copy_statements(
    alloc: Global,
    statements: &[Statement],
) -> Result<Items<Statement>, AllocError>
    ensures { IfOk result (λ copies. copies ≡ statements.now) }
{
    let mut copies = Items::with_capacity(alloc, statements.len())?;
    for statement in statements {
        copies.push(copy_statement(statement)?)?;
    }
    Ok(copies)
}

#[cycle(copy_statements)]
fn copy_arm(arm: &Arm) -> Result<Arm, AllocError>
    ensures { IfOk result (λ copy. copy ≡ arm.now) }
{
    let alloc = arm.block.allocator();
    let block = copy_statements(alloc, arm.block.as_slice())?;
    Ok(Arm {
        condition: copy_test(alloc, &arm.condition)?,
        block,
    })
}

#[cycle(copy_statements)]
fn copy_arms(alloc: Global, arms: &[Arm]) -> Result<Items<Arm>, AllocError>
    ensures { IfOk result (λ copies. copies ≡ arms.now) }
{
    let mut copies = Items::with_capacity(alloc, arms.len())?;
    for arm in arms {
        copies.push(copy_arm(arm)?)?;
    }
    Ok(copies)
}

// The condition of an arm, where it has one.
fn copy_test(alloc: Global, test: &Option<Condition>) -> Result<Option<Condition>, AllocError>
    ensures { IfOk result (λ copy. copy ≡ test.now) }
{
    match test {
        Some(condition) => Ok(Some(copy_condition(alloc, condition)?)),
        None => Ok(None),
    }
}

#[cycle(copy_conditions)]
fn copy_condition(alloc: Global, condition: &Condition) -> Result<Condition, AllocError>
    ensures { IfOk result (λ copy. copy ≡ condition.now) }
{
    match condition {
        Condition::Operand(x) => Ok(Condition::Operand(copy_operand(x)?)),
        Condition::Not(x) => Ok(Condition::Not(copy_boxed(alloc, x)?)),
        Condition::Conjoined(x, row) => Ok(Condition::Conjoined(
            copy_boxed(alloc, x)?,
            copy_conjoined(alloc, row.as_slice())?,
        )),
        Condition::Disjoined(x, row) => Ok(Condition::Disjoined(
            copy_boxed(alloc, x)?,
            copy_disjoined(alloc, row.as_slice())?,
        )),
        Condition::Compared(by, x, y) => {
            let (x, y) = copy_operands(x, y)?;
            Ok(Condition::Compared(*by, x, y))
        }
        Condition::Matched(by, x, y) => copy_match(*by, x, y),
        Condition::In(x, y) => {
            let (x, y) = copy_operands(x, y)?;
            Ok(Condition::In(x, y))
        }
        Condition::NotIn(x, y) => {
            let (x, y) = copy_operands(x, y)?;
            Ok(Condition::NotIn(x, y))
        }
    }
}

#[cycle(copy_conditions)]
fn copy_boxed(alloc: Global, condition: &Boxed<Condition>) -> Result<Boxed<Condition>, AllocError>
    ensures { IfOk result (λ copy. copy ≡ condition.now) }
{
    Boxed::new(alloc, copy_condition(alloc, condition.get())?)
}

// What follows the first condition of a row of `and` and `nand`.
#[cycle(copy_conditions)]
fn copy_conjoined(
    alloc: Global,
    row: &[(Conjunction, Condition)],
) -> Result<Items<(Conjunction, Condition)>, AllocError>
    ensures { IfOk result (λ copies. copies ≡ row.now) }
{
    let mut copies = Items::with_capacity(alloc, row.len())?;
    for part in row {
        copies.push((part.0, copy_condition(alloc, &part.1)?))?;
    }
    Ok(copies)
}

// What follows the first condition of a row of `or` and `xor`.
#[cycle(copy_conditions)]
fn copy_disjoined(
    alloc: Global,
    row: &[(Disjunction, Condition)],
) -> Result<Items<(Disjunction, Condition)>, AllocError>
    ensures { IfOk result (λ copies. copies ≡ row.now) }
{
    let mut copies = Items::with_capacity(alloc, row.len())?;
    for part in row {
        copies.push((part.0, copy_condition(alloc, &part.1)?))?;
    }
    Ok(copies)
}

fn copy_operand(operand: &Operand) -> Result<Operand, AllocError>
    ensures { IfOk result (λ copy. copy ≡ operand.now) }
{
    match operand {
        Operand::Field(path) => Ok(Operand::Field(path.copy()?)),
        Operand::Text(text) => Ok(Operand::Text(text.copy()?)),
        Operand::Number(number) => Ok(Operand::Number(*number)),
        Operand::List(literals) => Ok(Operand::List(copy_literals(
            literals.allocator(),
            literals.as_slice(),
        )?)),
    }
}

fn copy_operands(left: &Operand, right: &Operand) -> Result<(Operand, Operand), AllocError>
    ensures { IfOk result (λ copies. copies ≡ (left.now, right.now)) }
{
    let left = copy_operand(left)?;
    Ok((left, copy_operand(right)?))
}

fn copy_match(
    by: Matching,
    operand: &Operand,
    pattern: &MatchPattern,
) -> Result<Condition, AllocError>
    ensures { IfOk result (λ copy. copy ≡ condition.Matched by operand.now pattern.now) }
{
    let operand = copy_operand(operand)?;
    Ok(Condition::Matched(by, operand, copy_pattern(pattern)?))
}

fn copy_literals(alloc: Global, literals: &[Literal]) -> Result<Items<Literal>, AllocError>
    ensures { IfOk result (λ copies. copies ≡ literals.now) }
{
    let mut copies = Items::with_capacity(alloc, literals.len())?;
    for literal in literals {
        copies.push(copy_literal(literal)?)?;
    }
    Ok(copies)
}

fn copy_literal(literal: &Literal) -> Result<Literal, AllocError>
    ensures { IfOk result (λ copy. copy ≡ literal.now) }
{
    match literal {
        Literal::Text(text) => Ok(Literal::Text(text.copy()?)),
        Literal::Number(number) => Ok(Literal::Number(*number)),
    }
}

fn copy_pattern(pattern: &MatchPattern) -> Result<MatchPattern, AllocError>
    ensures { IfOk result (λ copy. copy ≡ pattern.now) }
{
    match pattern {
        MatchPattern::Regexp(text) => Ok(MatchPattern::Regexp(text.copy()?)),
        MatchPattern::Text(text) => Ok(MatchPattern::Text(text.copy()?)),
    }
}
