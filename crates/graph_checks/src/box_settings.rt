// Having boxes read the settings of their plugins.
ghost use Rattle.std.specs.Prelude.{◌≡◌, ◌≤◌, length};
ghost use Rattle.filter_settings.specs.Settings.{Gives};
ghost use Rattle.foreign_parts.specs.Stocks.{left_of, refusals_of};
ghost use Rattle.graph_checks.specs.Boxes as spec;
ghost use Rattle.graph_checks.specs.Boxes.{Keeps};

use built_plugins::BoxedFilter;
use config_tree::{FromFault, Plugin, SettingValue, Settings};
use filter_settings::{SetByName, read_id, read_settings};
use foreign_parts::{BoxKind, Boxes};
use std::alloc::Global;

/// What is read here of an output that is a box: its id, which is not kept. The box reads the others.
#[derive(Drop)]
pub(crate) struct BoxedOutput {}

impl SetByName for BoxedOutput {
    ghost use Rattle.graph_checks.specs.Boxes.{boxed_output_set};

    ghost setting = { boxed_output_set };

    fn set(&mut self, alloc: Global, name: &str, value: &SettingValue) -> Result<(), FromFault> {
        if name == "id" {
            let _ = read_id(alloc, name, value)?;
        }
        Ok(())
    }
}

// Reads those settings that every plugin of a kind has.
fn read_shared(kind: BoxKind, settings: &Settings) -> Result<(), FromFault>
    ensures { Gives result (spec.shared_of kind settings.now.list) }
{
    match kind {
        BoxKind::Filter => {
            let _ = BoxedFilter::from_settings(settings)?;
        }
        BoxKind::Output => {
            let _ = read_settings(settings, BoxedOutput {})?;
        }
    }
    Ok(())
}

/// Reads the settings of a plugin that is a box: first those that every plugin has, and then each box reads
/// them that it is to have. `before` plugins of its name stand in front of it.
pub(crate) fn read_box<B: Boxes>(
    boxes: &mut B,
    kind: BoxKind,
    each: u64,
    before: u64,
    plugin: &Plugin,
) -> Result<(), FromFault>
    ensures read { Gives result (spec.box_read kind (B.stand boxes.old kind) each before
        plugin.now.name plugin.now.settings.list) }
    ensures keeps { Keeps B.stand B.links boxes.old boxes.new }
{
    read_shared(kind, &plugin.settings)?;
    let left = boxes.left(kind, plugin.name.as_str()) as u64;
    let taken = before.checked_mul(each).ok_or(FromFault::Memory)?;
    let next = left.saturating_sub(taken);
    ask_below(boxes, kind, next, each, plugin)
}

// Has the boxes of a name below a place read settings, the last first, if so many are wanted.
fn ask_below<B: Boxes>(
    boxes: &mut B,
    kind: BoxKind,
    next: u64,
    wanted: u64,
    plugin: &Plugin,
) -> Result<(), FromFault>
    requires { next ≤ length (left_of plugin.now.name (B.stand boxes.old kind).stocks) }
    ensures read { Gives result (spec.unless_refused (spec.refused_below
        (refusals_of plugin.now.name (B.stand boxes.old kind).refusals)
        plugin.now.settings.list next wanted)) }
    ensures keeps { Keeps B.stand B.links boxes.old boxes.new }
{
    let mut at = next;
    let mut left = wanted;
    while left > 0 {
        if at == 0 {
            return Ok(());
        }
        at -= 1;
        left -= 1;
        boxes.ask(kind, plugin.name.as_str(), at as usize, &plugin.settings)?;
    }
    Ok(())
}
