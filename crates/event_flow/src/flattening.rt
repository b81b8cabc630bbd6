// Turning the statements of a configuration into a flat list of steps.
ghost use Rattle.std.specs.Prelude.{◌≡◌, ◌+◌, ◌++◌, ◌∷◌, [], IfOk, map};
ghost use Rattle.event_flow.specs.declared.step.FlowStep.TheVariants as step;
ghost use Rattle.event_flow.specs.Parts.{parts_of, branch, part_of, arm_of};
ghost use Rattle.event_flow.specs.Laying as spec;
ghost use Rattle.event_flow.specs.Laying.{IsLaid, AreStepsOf};

use crate::assembling::{assemble, more};
use crate::block::{Block, Flattened};
use crate::step::FlowStep;
use config_tree::{Arm, Condition, Config, Statement};
use plain_data::Items;
use std::alloc::{AllocError, Global};

/// The steps of a configuration: those of its filters, and behind them those of its outputs, whose
/// plugins and conditions are counted on from those of the filters.
pub fn flatten_config(alloc: Global, config: &Config) -> Result<Items<FlowStep>, AllocError>
    ensures { IfOk result (AreStepsOf config.now) }
{
    let filters = flatten(alloc, config.filters.as_slice(), 0, 0)?;
    let outputs = flatten(
        alloc,
        config.outputs.as_slice(),
        filters.plugin,
        filters.condition,
    )?;
    let Flattened { steps, .. } = joined(filters, outputs)?;
    Ok(steps)
}

/// The steps of statements, whose plugins and conditions have the numbers from these on. It takes
/// time in proportion to the statements, once for each level of branches.
#[cycle(flatten)]
pub fn flatten(
    alloc: Global,
    statements: &[Statement],
    plugin: u64,
    condition: u64,
) -> Result<Flattened, AllocError>
    ensures { IfOk result (IsLaid (parts_of statements.now) plugin condition) }
{
    let mut laid = Flattened {
        steps: Items::new(alloc),
        plugin,
        condition,
    };
    for statement in statements {
        let next = flatten_statement(alloc, statement, laid.plugin, laid.condition)?;
        laid = joined(laid, next)?;
    }
    Ok(laid)
}

#[cycle(flatten)]
fn flatten_statement(
    alloc: Global,
    statement: &Statement,
    plugin: u64,
    condition: u64,
) -> Result<Flattened, AllocError>
    ensures { IfOk result (IsLaid (part_of statement.now) plugin condition) }
{
    match statement {
        Statement::Plugin(_) => flatten_plugin(alloc, plugin, condition),
        Statement::Branch(arms) => flatten_arms(alloc, arms.as_slice(), plugin, condition),
    }
}

fn flatten_plugin(alloc: Global, plugin: u64, condition: u64) -> Result<Flattened, AllocError>
    ensures { IfOk result (λ laid. (laid.steps ≡ step.Plugin plugin ∷ [])
        × (laid.plugin ≡ plugin + 1) × (laid.condition ≡ condition)) }
{
    let next = more(plugin, 1)?;
    let mut steps = Items::new(alloc);
    steps.push(FlowStep::Plugin(plugin))?;
    Ok(Flattened {
        steps,
        plugin: next,
        condition,
    })
}

// The steps of the second stand behind those of the first.
fn joined(first: Flattened, second: Flattened) -> Result<Flattened, AllocError>
    ensures { IfOk result (λ laid. (laid.steps ≡ first.steps ++ second.steps)
        × (laid.plugin ≡ second.plugin) × (laid.condition ≡ second.condition)) }
{
    let Flattened { mut steps, .. } = first;
    let Flattened {
        steps: later,
        plugin,
        condition,
    } = second;
    steps.append(later)?;
    Ok(Flattened {
        steps,
        plugin,
        condition,
    })
}

#[cycle(flatten)]
fn flatten_arms(
    alloc: Global,
    arms: &[Arm],
    plugin: u64,
    condition: u64,
) -> Result<Flattened, AllocError>
    ensures { IfOk result (IsLaid (branch (map arm_of arms.now)) plugin condition) }
{
    let mut blocks = Items::new(alloc);
    let mut next_plugin = plugin;
    let mut next_condition = condition;
    for arm in arms {
        let number = number_of(&arm.condition, next_condition);
        let inner = behind(next_condition, number)?;
        let block = flatten(alloc, arm.block.as_slice(), next_plugin, inner)?;
        let Flattened {
            steps,
            plugin: later_plugin,
            condition: later_condition,
        } = block;
        next_plugin = later_plugin;
        next_condition = later_condition;
        blocks.push(Block {
            condition: number,
            steps,
        })?;
    }
    Ok(Flattened {
        steps: assemble(alloc, blocks)?,
        plugin: next_plugin,
        condition: next_condition,
    })
}

fn number_of(condition: &Option<Condition>, number: u64) -> Option<u64>
    ensures { result ≡ spec.number_of condition.now number }
{
    match condition {
        Some(_) => Some(number),
        None => None,
    }
}

// The number of the first condition in a block.
fn behind(condition: u64, number: Option<u64>) -> Result<u64, AllocError>
    ensures { IfOk result (λ next. next ≡ condition + spec.count number) }
{
    match number {
        Some(_) => more(condition, 1),
        None => more(condition, 0),
    }
}
