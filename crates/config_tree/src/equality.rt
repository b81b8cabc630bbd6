//! Configurations compared. Each function walks up to the first difference, by a loop along each list; calls nest with the
//! levels of what is compared, and a configuration that was read has at most 64.

ghost use Rattle.std.specs.Prelude.{◌≡◌, ◌↔◌, IsTrue};

use crate::operators::{Conjunction, Disjunction};
use crate::tree::{
    Arm, Condition, Config, Literal, MatchPattern, Operand, Plugin, SettingValue, Statement,
};
use plain_data::Text;

impl Config {
    /// Whether two configurations are equal: the same statements with the same settings in the same order. It takes no
    /// memory.
    pub fn same(&self, other: &Config) -> bool
        ensures { IsTrue result ↔ (self.now ≡ other.now) }
    {
        same_plugins(self.inputs.as_slice(), other.inputs.as_slice())
            && same_statements(self.filters.as_slice(), other.filters.as_slice())
            && same_statements(self.outputs.as_slice(), other.outputs.as_slice())
    }
}

impl Plugin {
    /// Whether two plugins are equal: the same name with the same settings in the same order. It takes no memory.
    pub fn same(&self, other: &Plugin) -> bool
        ensures { IsTrue result ↔ (self.now ≡ other.now) }
    {
        same_plugin(self, other)
    }
}

fn same_plugins(left: &[Plugin], right: &[Plugin]) -> bool
    ensures { IsTrue result ↔ (left.now ≡ right.now) }
{
    if left.len() != right.len() {
        return false;
    }
    for i in 0..left.len() {
        if !same_plugin(&left[i], &right[i]) {
            return false;
        }
    }
    true
}

#[cycle(same_settings)]
fn same_plugin(left: &Plugin, right: &Plugin) -> bool
    ensures { IsTrue result ↔ (left.now ≡ right.now) }
{
    left.name == right.name
        && same_entries(
            left.settings.list.as_slice(),
            right.settings.list.as_slice(),
        )
}

#[cycle(same_settings)]
fn same_value(left: &SettingValue, right: &SettingValue) -> bool
    ensures { IsTrue result ↔ (left.now ≡ right.now) }
{
    match (left, right) {
        (SettingValue::Text(x), SettingValue::Text(y)) => x == y,
        (SettingValue::Number(x), SettingValue::Number(y)) => x == y,
        (SettingValue::Nested(x), SettingValue::Nested(y)) => same_plugin(x, y),
        (SettingValue::Array(x), SettingValue::Array(y)) => same_values(x.as_slice(), y.as_slice()),
        (SettingValue::Hash(x), SettingValue::Hash(y)) => same_entries(x.as_slice(), y.as_slice()),
        _ => false,
    }
}

#[cycle(same_settings)]
fn same_values(left: &[SettingValue], right: &[SettingValue]) -> bool
    ensures { IsTrue result ↔ (left.now ≡ right.now) }
{
    if left.len() != right.len() {
        return false;
    }
    for i in 0..left.len() {
        if !same_value(&left[i], &right[i]) {
            return false;
        }
    }
    true
}

#[cycle(same_settings)]
fn same_entries(left: &[(Text, SettingValue)], right: &[(Text, SettingValue)]) -> bool
    ensures { IsTrue result ↔ (left.now ≡ right.now) }
{
    if left.len() != right.len() {
        return false;
    }
    for i in 0..left.len() {
        if left[i].0 != right[i].0 || !same_value(&left[i].1, &right[i].1) {
            return false;
        }
    }
    true
}

#[cycle(same_statements)]
fn same_statement(left: &Statement, right: &Statement) -> bool
    ensures { IsTrue result ↔ (left.now ≡ right.now) }
{
    match (left, right) {
        (Statement::Plugin(x), Statement::Plugin(y)) => same_plugin(x, y),
        (Statement::Branch(x), Statement::Branch(y)) => same_arms(x.as_slice(), y.as_slice()),
        _ => false,
    }
}

#[cycle(same_statements)]
fn same_statements(left: &[Statement], right: &[Statement]) -> bool
    ensures { IsTrue result ↔ (left.now ≡ right.now) }
{
    if left.len() != right.len() {
        return false;
    }
    for i in 0..left.len() {
        if !same_statement(&left[i], &right[i]) {
            return false;
        }
    }
    true
}

#[cycle(same_statements)]
fn same_arm(left: &Arm, right: &Arm) -> bool
    ensures { IsTrue result ↔ (left.now ≡ right.now) }
{
    same_test(&left.condition, &right.condition)
        && same_statements(left.block.as_slice(), right.block.as_slice())
}

#[cycle(same_statements)]
fn same_arms(left: &[Arm], right: &[Arm]) -> bool
    ensures { IsTrue result ↔ (left.now ≡ right.now) }
{
    if left.len() != right.len() {
        return false;
    }
    for i in 0..left.len() {
        if !same_arm(&left[i], &right[i]) {
            return false;
        }
    }
    true
}

// Whether two arms have the same condition, or none both.
fn same_test(left: &Option<Condition>, right: &Option<Condition>) -> bool
    ensures { IsTrue result ↔ (left.now ≡ right.now) }
{
    match (left, right) {
        (Some(x), Some(y)) => same_condition(x, y),
        (None, None) => true,
        _ => false,
    }
}

#[cycle(same_conditions)]
fn same_condition(left: &Condition, right: &Condition) -> bool
    ensures { IsTrue result ↔ (left.now ≡ right.now) }
{
    match (left, right) {
        (Condition::Operand(x), Condition::Operand(y)) => same_operand(x, y),
        (Condition::Not(x), Condition::Not(y)) => same_condition(x.get(), y.get()),
        (Condition::Conjoined(x, a), Condition::Conjoined(y, b)) => {
            same_condition(x.get(), y.get()) && same_conjoined(a.as_slice(), b.as_slice())
        }
        (Condition::Disjoined(x, a), Condition::Disjoined(y, b)) => {
            same_condition(x.get(), y.get()) && same_disjoined(a.as_slice(), b.as_slice())
        }
        (Condition::Compared(j, x, a), Condition::Compared(k, y, b)) => {
            j == k && same_operand(x, y) && same_operand(a, b)
        }
        (Condition::Matched(j, x, a), Condition::Matched(k, y, b)) => {
            j == k && same_operand(x, y) && same_pattern(a, b)
        }
        (Condition::In(x, a), Condition::In(y, b))
        | (Condition::NotIn(x, a), Condition::NotIn(y, b)) => {
            same_operand(x, y) && same_operand(a, b)
        }
        _ => false,
    }
}

// What follows the first conditions of two rows of `and` and `nand`.
#[cycle(same_conditions)]
fn same_conjoined(left: &[(Conjunction, Condition)], right: &[(Conjunction, Condition)]) -> bool
    ensures { IsTrue result ↔ (left.now ≡ right.now) }
{
    if left.len() != right.len() {
        return false;
    }
    for i in 0..left.len() {
        if left[i].0 != right[i].0 || !same_condition(&left[i].1, &right[i].1) {
            return false;
        }
    }
    true
}

// What follows the first conditions of two rows of `or` and `xor`.
#[cycle(same_conditions)]
fn same_disjoined(left: &[(Disjunction, Condition)], right: &[(Disjunction, Condition)]) -> bool
    ensures { IsTrue result ↔ (left.now ≡ right.now) }
{
    if left.len() != right.len() {
        return false;
    }
    for i in 0..left.len() {
        if left[i].0 != right[i].0 || !same_condition(&left[i].1, &right[i].1) {
            return false;
        }
    }
    true
}

fn same_operand(left: &Operand, right: &Operand) -> bool
    ensures { IsTrue result ↔ (left.now ≡ right.now) }
{
    match (left, right) {
        (Operand::Field(x), Operand::Field(y)) => x.same(y),
        (Operand::Text(x), Operand::Text(y)) => x == y,
        (Operand::Number(x), Operand::Number(y)) => x == y,
        (Operand::List(x), Operand::List(y)) => same_literals(x.as_slice(), y.as_slice()),
        _ => false,
    }
}

fn same_literals(left: &[Literal], right: &[Literal]) -> bool
    ensures { IsTrue result ↔ (left.now ≡ right.now) }
{
    if left.len() != right.len() {
        return false;
    }
    for i in 0..left.len() {
        if !same_literal(&left[i], &right[i]) {
            return false;
        }
    }
    true
}

fn same_literal(left: &Literal, right: &Literal) -> bool
    ensures { IsTrue result ↔ (left.now ≡ right.now) }
{
    match (left, right) {
        (Literal::Text(x), Literal::Text(y)) => x == y,
        (Literal::Number(x), Literal::Number(y)) => x == y,
        _ => false,
    }
}

fn same_pattern(left: &MatchPattern, right: &MatchPattern) -> bool
    ensures { IsTrue result ↔ (left.now ≡ right.now) }
{
    match (left, right) {
        (MatchPattern::Regexp(x), MatchPattern::Regexp(y))
        | (MatchPattern::Text(x), MatchPattern::Text(y)) => x == y,
        _ => false,
    }
}
