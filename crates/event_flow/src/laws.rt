//! Laws of the definitions. Each is the contract of a function that does nothing: a caller learns
//! the law by the call.
#![tactic(auto)]

ghost use Rattle.std.specs.Prelude.{◌≡◌, ◌+◌, ℕ, List, ◌∷◌, length, map};
ghost use Rattle.config_tree.specs.declared.tree.Arm.{Arm};
ghost use Rattle.config_tree.specs.declared.tree.Plugin.{Plugin};
ghost use Rattle.config_tree.specs.declared.tree.Statement.{Statement};
ghost use Rattle.config_tree.specs.declared.tree.Statement.TheVariants as statement;
ghost use Rattle.event_flow.specs.Flows.{Goes};
ghost use Rattle.event_flow.specs.Parts.{Section, Part, one_plugin, branch, arm, part_of, arm_of, parts_of};

/// What a statement is: a plugin, or a branch of arms, each with its block in front of those behind
/// it.
pub fn statements_are_plugins_and_branches()
    ensures plugin { (p : Plugin) → part_of (statement.Plugin p) ≡ one_plugin p }
    ensures branch { (arms : List Arm)
        → part_of (statement.Branch arms) ≡ branch (map arm_of arms) }
    ensures arm { (a : Arm) (rest : Part)
        → arm_of a rest ≡ arm a.condition (parts_of a.block) rest }
{}

/// An event meets a statement, and what comes of it goes on with the statements behind, whose
/// plugins and conditions are counted on.
pub fn statements_follow_one_another()
    ensures { (s : Statement) (ss : List Statement) (section : Section) (n t : ℕ) (goes : Goes)
        → (parts_of (s ∷ ss)).flow section n t goes
        ≡ (part_of s).flow section n t ((parts_of ss).flow section
        (n + length (part_of s).plugins) (t + length (part_of s).conditions) goes) }
{}
