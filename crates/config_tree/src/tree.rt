//! What a configuration says.

use crate::operators::{Comparison, Conjunction, Disjunction, Matching};
use event_tree::{Number, Path};
use plain_data::{Boxed, Items, Text};

/// A configuration: the statements of its sections, those of one kind joined in the order of the text.
/// It holds no places, so blanks and comments make no difference to it.
pub struct Config {
    pub inputs: Items<Plugin>,
    pub filters: Items<Statement>,
    pub outputs: Items<Statement>,
}

/// What a filter or output section, or a block, is made of.
#[derive(Drop)]
#[cycle(statements)]
pub enum Statement {
    Plugin(Plugin),
    /// `if`, each `else if` and `else`, in the order of the text.
    Branch(Items<Arm>),
}

/// A plugin with its settings, as `grok { match => { "message" => "%{IP:ip}" } }`.
#[derive(Drop)]
#[cycle(settings)]
pub struct Plugin {
    pub name: Text,
    pub settings: Settings,
}

/// Settings in the order of the text, each with a name of its own.
#[derive(Drop)]
#[cycle(settings)]
pub struct Settings {
    pub list: Items<(Text, SettingValue)>,
}

/// The value of a setting.
#[derive(Drop)]
#[cycle(settings)]
pub enum SettingValue {
    /// A string or a bareword.
    Text(Text),
    Number(Number),
    /// A plugin, as the codec in `codec => json { charset => "UTF-8" }`.
    Nested(Plugin),
    Array(Items<SettingValue>),
    /// Keys with their values in the order of the text. The key of a number is its spelling.
    Hash(Items<(Text, SettingValue)>),
}

/// One arm of a branch. The last alone may have no condition.
#[derive(Drop)]
#[cycle(statements)]
pub struct Arm {
    pub condition: Option<Condition>,
    pub block: Items<Statement>,
}

/// A condition. Parentheses leave no trace in it but the tree's form.
#[derive(Drop)]
pub enum Condition {
    Operand(Operand),
    Not(Boxed<Condition>),
    /// Conditions with `and` or `nand` between them, from the left: the first, then each further one behind its joint.
    Conjoined(Boxed<Condition>, Items<(Conjunction, Condition)>),
    /// The same with `or` or `xor`.
    Disjoined(Boxed<Condition>, Items<(Disjunction, Condition)>),
    Compared(Comparison, Operand, Operand),
    Matched(Matching, Operand, MatchPattern),
    In(Operand, Operand),
    NotIn(Operand, Operand),
}

/// What a condition compares.
pub enum Operand {
    /// The field that a selector names.
    Field(Path),
    Text(Text),
    Number(Number),
    List(Items<Literal>),
}

/// A member of a list in a condition.
pub enum Literal {
    Text(Text),
    Number(Number),
}

/// The right side of `=~` and `!~`.
pub enum MatchPattern {
    /// Between two `/`.
    Regexp(Text),
    /// Between quotes.
    Text(Text),
}

// The drops of configurations and of what conditions are made of are written out, so that where one is dropped a proof
// sees one call for each of its parts, and not the drop of each of their variants.

impl Drop for Config {
    fn drop(self) {
        let Config {
            inputs: _inputs,
            filters: _filters,
            outputs: _outputs,
        } = self;
    }
}

impl Drop for Operand {
    fn drop(self) {
        match self {
            Operand::Field(_path) => {}
            Operand::Text(_text) => {}
            Operand::Number(_number) => {}
            Operand::List(_literals) => {}
        }
    }
}

impl Drop for Literal {
    fn drop(self) {
        match self {
            Literal::Text(_text) => {}
            Literal::Number(_number) => {}
        }
    }
}

impl Drop for MatchPattern {
    fn drop(self) {
        match self {
            MatchPattern::Regexp(_text) => {}
            MatchPattern::Text(_text) => {}
        }
    }
}
