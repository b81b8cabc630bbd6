// The checks of a section's statements, in the order of the text.
ghost use Rattle.graph_checks.specs.Answers.{Gives, Leaves};
ghost use Rattle.graph_checks.specs.Boxes.{Keeps};
ghost use Rattle.graph_checks.specs.Plugins as spec;
ghost use Rattle.graph_checks.specs.Points.{points_of, points_in, points_of_arms};

use crate::conditions::test_patterns;
use crate::counts::Counts;
use crate::fault::GraphFault;
use crate::plugins::{section_name, setting_fault};
use crate::seen_texts::SeenTexts;
use crate::want::Want;
use built_plugins::condition_id;
use config_tree::{Arm, Condition, Statement};
use foreign_parts::{BoxKind, Boxes};
use plain_data::Items;
use std::alloc::{AllocError, Global};

/// What was met so far of a section.
#[derive(Drop)]
pub(crate) struct Walk {
    /// How many boxes each of its plugins wants that is one.
    pub each: u64,
    /// How many plugins, and how many conditions, were met.
    pub plugins: u64,
    pub conditions: u64,
    /// The names of its plugins that are boxes.
    pub boxes: Counts,
    /// These plugins, in the order of the text.
    pub wants: Items<Want>,
    /// The ids of all plugins, those of earlier sections among them.
    pub ids: SeenTexts,
    /// The paths of its outputs.
    pub paths: SeenTexts,
}

/// Tests the statements of a section, in which each box is wanted so often, behind those that had these ids.
#[tactic(auto, unfolding(crate::specs::Plugins::section_checked))]
pub(crate) fn check_section<B: Boxes>(
    alloc: Global,
    kind: BoxKind,
    each: u64,
    ids: SeenTexts,
    statements: &[Statement],
    boxes: &mut B,
) -> Result<Walk, GraphFault>
    ensures walk { Gives result (spec.section_checked kind (B.stand boxes.old kind) each
        statements.now ids) }
    ensures keeps { Keeps B.stand B.links boxes.old boxes.new }
{
    let mut walk = Walk {
        each,
        plugins: 0,
        conditions: 0,
        boxes: Counts::new(alloc),
        wants: Items::new(alloc),
        ids,
        paths: SeenTexts::new(alloc),
    };
    check_statements(alloc, kind, statements, &mut walk, boxes)?;
    Ok(walk)
}

#[cycle(walk)]
fn check_statements<B: Boxes>(
    alloc: Global,
    kind: BoxKind,
    statements: &[Statement],
    walk: &mut Walk,
    boxes: &mut B,
) -> Result<(), GraphFault>
    ensures walk { Leaves result (spec.points_checked kind (B.stand boxes.old kind)
        (points_of statements.now) walk.old) walk.new }
    ensures keeps { Keeps B.stand B.links boxes.old boxes.new }
{
    for statement in statements {
        check_statement(alloc, kind, statement, walk, boxes)?;
    }
    Ok(())
}

#[cycle(walk)]
fn check_statement<B: Boxes>(
    alloc: Global,
    kind: BoxKind,
    statement: &Statement,
    walk: &mut Walk,
    boxes: &mut B,
) -> Result<(), GraphFault>
    ensures walk { Leaves result (spec.points_checked kind (B.stand boxes.old kind)
        (points_in statement.now) walk.old) walk.new }
    ensures keeps { Keeps B.stand B.links boxes.old boxes.new }
{
    match statement {
        Statement::Plugin(plugin) => walk.check_plugin(alloc, kind, plugin, boxes),
        Statement::Branch(arms) => check_arms(alloc, kind, arms.as_slice(), walk, boxes),
    }
}

#[cycle(walk)]
fn check_arms<B: Boxes>(
    alloc: Global,
    kind: BoxKind,
    arms: &[Arm],
    walk: &mut Walk,
    boxes: &mut B,
) -> Result<(), GraphFault>
    ensures walk { Leaves result (spec.points_checked kind (B.stand boxes.old kind)
        (points_of_arms arms.now) walk.old) walk.new }
    ensures keeps { Keeps B.stand B.links boxes.old boxes.new }
{
    for arm in arms {
        walk.check_condition(alloc, kind, &arm.condition)?;
        check_statements(alloc, kind, arm.block.as_slice(), walk, boxes)?;
    }
    Ok(())
}

impl Walk {
    // Tests the condition of an arm, where it has one.
    fn check_condition(
        &mut self,
        alloc: Global,
        kind: BoxKind,
        condition: &Option<Condition>,
    ) -> Result<(), GraphFault>
        ensures { Leaves result (spec.arm_checked kind condition.now self.old) self.new }
    {
        let Some(condition) = condition else {
            return Ok(());
        };
        let number = self.conditions.checked_add(1).ok_or(AllocError)?;
        match test_patterns(alloc, condition) {
            Ok(()) => {
                self.conditions = number;
                Ok(())
            }
            Err(fault) => {
                let id = condition_id(alloc, section_name(kind), number)?;
                Err(setting_fault(id, fault))
            }
        }
    }
}
