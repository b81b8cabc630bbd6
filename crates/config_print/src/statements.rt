//! Plugins and branches, and the sections that have them.

ghost use Rattle.std.specs.Prelude.{◌≡◌, OnOk};
ghost use Rattle.config_lex.specs.Spelling.{section_text};
ghost use Rattle.config_print.specs.Prints.{Prints, Lays};
ghost use Rattle.config_print.specs.Printed as spec;

use crate::conditions::{ConditionContext, add_condition};
use crate::values::{Indent, add_close_brace, add_gap, add_plugin, deeper};
use config_lex::Section;
use config_tree::{Arm, Condition, Plugin, Statement};
use std::alloc::AllocError;

/// The condition of an arm, behind its `if` and what stands in front of that.
fn add_test(to: &mut String, front: Indent, condition: &Option<Condition>) -> Result<(), AllocError>
    ensures { OnOk result (Lays to.old to.new (spec.test front condition.now)) }
{
    match condition {
        None => Ok(()),
        Some(condition) => {
            add_gap(to, front)?;
            to.push_str("if")?;
            add_condition(to, condition, ConditionContext::Whole)
        }
    }
}

/// Statements in braces, behind a blank.
#[cycle(statements)]
fn add_block(to: &mut String, list: &[Statement], margin: Indent) -> Result<(), AllocError>
    ensures { OnOk result (Lays to.old to.new (spec.block list.now margin)) }
{
    to.push_str(" {")?;
    let inner = deeper(margin)?;
    for statement in list {
        add_statement(to, statement, inner)?;
    }
    add_close_brace(to, margin)
}

#[cycle(statements)]
fn add_arm(to: &mut String, arm: &Arm, front: Indent, margin: Indent) -> Result<(), AllocError>
    ensures { OnOk result (Lays to.old to.new (spec.arm arm.now front margin)) }
{
    add_test(to, front, &arm.condition)?;
    add_block(to, arm.block.as_slice(), margin)
}

/// What an arm of a branch stands behind.
fn add_else(to: &mut String, later: bool, margin: Indent) -> Result<(), AllocError>
    ensures { OnOk result (Lays to.old to.new (spec.behind_else later margin)) }
{
    if !later {
        return Ok(());
    }
    add_gap(to, margin)?;
    to.push_str("else")
}

/// What stands in front of the `if` of an arm.
fn arm_front(later: bool, margin: Indent) -> Indent
    ensures { result ≡ spec.arm_front later margin }
{
    if later { Indent::OneLine } else { margin }
}

#[cycle(statements)]
fn add_branch(to: &mut String, arms: &[Arm], margin: Indent) -> Result<(), AllocError>
    ensures { OnOk result (Lays to.old to.new (spec.arms margin arms.now)) }
{
    let mut later = false;
    for arm in arms {
        add_else(to, later, margin)?;
        add_arm(to, arm, arm_front(later, margin), margin)?;
        later = true;
    }
    Ok(())
}

#[tactic(auto, using(crate::proofs::Equations::statements))]
#[cycle(statements)]
fn add_statement(to: &mut String, statement: &Statement, margin: Indent) -> Result<(), AllocError>
    ensures { OnOk result (Lays to.old to.new (spec.statement statement.now margin)) }
{
    match statement {
        Statement::Plugin(plugin) => add_plugin(to, plugin, margin),
        Statement::Branch(arms) => add_branch(to, arms.as_slice(), margin),
    }
}

/// Plugins in braces, behind a blank.
fn add_plugins(to: &mut String, list: &[Plugin], margin: Indent) -> Result<(), AllocError>
    ensures { OnOk result (Lays to.old to.new (spec.plugin_block list.now margin)) }
{
    to.push_str(" {")?;
    let inner = deeper(margin)?;
    for plugin in list {
        add_plugin(to, plugin, inner)?;
    }
    add_close_brace(to, margin)
}

fn section_text(kind: Section) -> &'static str
    ensures { result.now ≡ section_text kind }
{
    match kind {
        Section::Input => "input",
        Section::Filter => "filter",
        Section::Output => "output",
    }
}

/// The section of the inputs, which are plugins alone.
pub(crate) fn add_inputs(to: &mut String, list: &[Plugin]) -> Result<(), AllocError>
    ensures { OnOk result (Prints to.old to.new (spec.inputs_text list.now)) }
{
    if list.is_empty() {
        return Ok(());
    }
    to.push_str("input")?;
    add_plugins(to, list, Indent::Level(0))?;
    to.push_str("\n")
}

pub(crate) fn add_section(
    to: &mut String,
    kind: Section,
    list: &[Statement],
) -> Result<(), AllocError>
    ensures { OnOk result (Prints to.old to.new (spec.statements_text kind list.now)) }
{
    if list.is_empty() {
        return Ok(());
    }
    to.push_str(section_text(kind))?;
    add_block(to, list, Indent::Level(0))?;
    to.push_str("\n")
}
