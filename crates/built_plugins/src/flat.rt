// The plugins and the conditions of statements, taken apart.

ghost use Rattle.std.specs.Prelude.{◌≡◌, IfOk, OnOk, map};
ghost use Rattle.event_flow.specs.Parts.{parts_of, part_of, arm_of, branch};
ghost use Rattle.built_plugins.specs.Flats as spec;

use config_tree::{Arm, Condition, Plugin, Statement};
use plain_data::Items;
use std::alloc::{AllocError, Global};

/// The plugins and the conditions of statements, each in the order of the text.
#[derive(Drop)]
pub struct Flat {
    pub plugins: Items<Plugin>,
    pub conditions: Items<Condition>,
}

impl Flat {
    /// Takes statements apart.
    pub fn of_statements(alloc: Global, statements: Items<Statement>) -> Result<Flat, AllocError>
        ensures { IfOk result (λ flat. flat ≡ spec.flat_of (parts_of statements)) }
    {
        let mut flat = Flat {
            plugins: Items::new(alloc),
            conditions: Items::new(alloc),
        };
        add_statements(statements, &mut flat)?;
        Ok(flat)
    }
}

#[cycle(flatten)]
fn add_statements(statements: Items<Statement>, to: &mut Flat) -> Result<(), AllocError>
    ensures { OnOk result (to.new ≡ spec.with_part to.old (parts_of statements)) }
{
    for statement in statements.into_vec() {
        add_statement(statement, to)?;
    }
    Ok(())
}

#[cycle(flatten)]
fn add_statement(statement: Statement, to: &mut Flat) -> Result<(), AllocError>
    ensures { OnOk result (to.new ≡ spec.with_part to.old (part_of statement)) }
{
    match statement {
        Statement::Plugin(plugin) => to.plugins.push(plugin),
        Statement::Branch(arms) => add_arms(arms, to),
    }
}

#[cycle(flatten)]
fn add_arms(arms: Items<Arm>, to: &mut Flat) -> Result<(), AllocError>
    ensures { OnOk result (to.new ≡ spec.with_part to.old (branch (map arm_of arms))) }
{
    for arm in arms.into_vec() {
        let Arm { condition, block } = arm;
        add_condition(condition, to)?;
        add_statements(block, to)?;
    }
    Ok(())
}

fn add_condition(condition: Option<Condition>, to: &mut Flat) -> Result<(), AllocError>
    ensures { OnOk result (to.new ≡ spec.with_condition to.old condition) }
{
    match condition {
        Some(condition) => to.conditions.push(condition),
        None => Ok(()),
    }
}
