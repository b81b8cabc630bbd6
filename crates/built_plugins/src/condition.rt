// Conditions with their ids, and with their patterns compiled.

ghost use Rattle.std.specs.Prelude.{◌≡◌, IfOk, IfErr, Ok};
ghost use Rattle.condition_eval.specs.Made.{AreMadeOf};
ghost use Rattle.condition_eval.specs.Truths.{truth};
ghost use Rattle.filter_settings.specs.Settings.{Gives, Refuses};
ghost use Rattle.built_plugins.specs.Conditions as spec;

use condition_eval::{Truth, eval, patterns_of};
use config_tree::{Condition, FromFault};
use event_tree::Event;
use filter_settings::bad_pattern;
use pattern_box::{PatternFault, Patterns};
use plain_data::Text;
use std::alloc::{AllocError, Global};
use std::marker::Model;

/// The patterns of a condition. A text that is no pattern is `BadPattern` of `condition`.
pub fn read_patterns(alloc: Global, condition: &Condition) -> Result<Patterns, FromFault>
    ensures made { IfOk result (AreMadeOf condition.now) }
    ensures read { IfOk result (λ _. spec.patterns_read condition.now ≡ Ok tt) }
    ensures refused { IfErr result (λ fault. Refuses fault (spec.patterns_read condition.now)) }
{
    match patterns_of(alloc, condition) {
        Ok(patterns) => Ok(patterns),
        Err(PatternFault::BadPattern) => Err(bad_pattern(alloc, "condition")),
        Err(PatternFault::Memory) => Err(FromFault::Memory),
    }
}

/// A condition with its id.
pub struct NamedCondition {
    pub condition: Condition,
    pub id: Text,
}

// Written out, so that it is one call wherever an error is handed on while a condition is held.
impl Drop for NamedCondition {
    fn drop(self) {
        let NamedCondition {
            condition: _condition,
            id: _id,
        } = self;
    }
}

/// A condition with its patterns, compiled once. Contracts see what it says.
pub struct CompiledCondition {
    says: NamedCondition,
    patterns: Patterns,
}

// Written out, so that it is one call wherever an error is handed on while a condition is held.
impl Drop for CompiledCondition {
    fn drop(self) {
        let CompiledCondition {
            says: _says,
            patterns: _patterns,
        } = self;
    }
}

impl Model for CompiledCondition {
    ghost use Rattle.std.specs.Coded.{codes};
    ghost use Rattle.condition_eval.specs.Made.{AreMadeOf};
    ghost use Rattle.config_tree.specs.contracts.tree.Condition as tree;
    ghost use Rattle.built_plugins.specs.declared.condition.NamedCondition.{NamedCondition};

    ghost Value = { NamedCondition };

    ghost coded = { Prim.hlevel (codes, tree.the_row.coded) };

    ghost view = { λ compiled. compiled.says };

    ghost invariant = { λ compiled. AreMadeOf compiled.says.condition compiled.patterns };
}

impl CompiledCondition {
    /// Compiles the patterns. A text that is no pattern is `BadPattern` of `condition`.
    pub fn new(alloc: Global, says: NamedCondition) -> Result<CompiledCondition, FromFault>
        ensures { Gives result (spec.compiled says) }
    {
        match read_patterns(alloc, &says.condition) {
            Ok(patterns) => Ok(CompiledCondition { says, patterns }),
            Err(fault) => Err(fault),
        }
    }

    /// What it says of an event.
    pub fn test(&mut self, event: &Event) -> Result<Truth, AllocError>
        ensures truth { IfOk result (λ found. found ≡ truth self.old.condition event.now) }
        ensures same { self.new ≡ self.old }
    {
        eval(&self.says.condition, &mut self.patterns, event)
    }

    /// How many patterns it has.
    pub fn count_patterns(&self) -> usize
        ensures { result ≡ spec.condition_patterns self.now }
    {
        self.patterns.len()
    }

    /// Its id.
    pub fn id(&self) -> &Text
        ensures { result.now ≡ self.now.id }
    {
        &self.says.id
    }
}
