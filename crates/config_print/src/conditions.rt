//! Conditions.

ghost use Rattle.std.specs.Prelude.{◌≡◌, ◌∷◌, OnOk};
ghost use Rattle.config_lex.specs.declared.token.Word.TheVariants as w;
ghost use Rattle.config_print.specs.Prints.{Prints, Lays};
ghost use Rattle.config_print.specs.Conditions as spec;
ghost use Rattle.config_print.specs.declared.conditions.ConditionContext.TheVariants as at;

use crate::tokens::{
    add_number, add_regexp, add_selector, add_string, comparison_text, conjunction_text,
    disjunction_text, matching_text,
};
use config_tree::{Condition, Conjunction, Disjunction, Literal, MatchPattern, Operand};
use std::alloc::AllocError;

/// Where a condition stands in another one.
#[derive(Clone, Copy)]
pub enum ConditionContext {
    /// Behind `if`, in parentheses, or the first of those with `or` or `xor` between: no condition wants parentheses.
    Whole,
    /// Behind `or` or `xor`, or the first of those with `and` or `nand` between: `or` and `xor` want them.
    Joined,
    /// Behind `and`, `nand` or `!`: `and` and `nand` want them too.
    Unary,
}

fn parts_or(place: ConditionContext) -> bool
    ensures { result ≡ spec.parts_or place }
{
    match place {
        ConditionContext::Whole => false,
        ConditionContext::Joined | ConditionContext::Unary => true,
    }
}

fn parts_and(place: ConditionContext) -> bool
    ensures { result ≡ spec.parts_and place }
{
    match place {
        ConditionContext::Whole | ConditionContext::Joined => false,
        ConditionContext::Unary => true,
    }
}

/// What stands between two members of a list.
pub(crate) fn add_comma(to: &mut String, later: bool) -> Result<(), AllocError>
    ensures { OnOk result (Lays to.old to.new (spec.comma later)) }
{
    if later { to.push_str(" ,") } else { Ok(()) }
}

fn add_literal(to: &mut String, literal: &Literal) -> Result<(), AllocError>
    ensures { OnOk result (Lays to.old to.new (spec.literal literal.now)) }
{
    to.push_str(" ")?;
    match literal {
        Literal::Text(text) => add_string(to, text.as_str()),
        Literal::Number(number) => add_number(to, number),
    }
}

fn add_literals(to: &mut String, literals: &[Literal]) -> Result<(), AllocError>
    ensures { OnOk result (Lays to.old to.new (spec.literals literals.now)) }
{
    let mut later = false;
    for literal in literals {
        add_comma(to, later)?;
        add_literal(to, literal)?;
        later = true;
    }
    to.push_str(" ]")
}

fn add_operand(to: &mut String, operand: &Operand) -> Result<(), AllocError>
    ensures { OnOk result (Lays to.old to.new (spec.operand operand.now)) }
{
    to.push_str(" ")?;
    match operand {
        Operand::Field(path) => add_selector(to, path),
        Operand::Text(text) => add_string(to, text.as_str()),
        Operand::Number(number) => add_number(to, number),
        Operand::List(literals) => {
            to.push_str("[")?;
            add_literals(to, literals.as_slice())
        }
    }
}

fn add_pattern(to: &mut String, pattern: &MatchPattern) -> Result<(), AllocError>
    ensures { OnOk result (Lays to.old to.new (spec.pattern pattern.now)) }
{
    to.push_str(" ")?;
    match pattern {
        MatchPattern::Regexp(text) => add_regexp(to, text.as_str()),
        MatchPattern::Text(text) => add_string(to, text.as_str()),
    }
}

/// A joint or another operator.
fn add_sign(to: &mut String, sign: &str) -> Result<(), AllocError>
    ensures { OnOk result (Prints to.old to.new (32 ∷ sign.now)) }
{
    to.push_str(" ")?;
    to.push_str(sign)
}

fn add_compared(
    to: &mut String,
    left: &Operand,
    sign: &str,
    right: &Operand,
) -> Result<(), AllocError>
    ensures { OnOk result (Prints to.old to.new (spec.compared_text left.now sign.now right.now)) }
{
    add_operand(to, left)?;
    add_sign(to, sign)?;
    add_operand(to, right)
}

fn add_matched(
    to: &mut String,
    left: &Operand,
    sign: &str,
    right: &MatchPattern,
) -> Result<(), AllocError>
    ensures { OnOk result (Prints to.old to.new (spec.matched_text left.now sign.now right.now)) }
{
    add_operand(to, left)?;
    add_sign(to, sign)?;
    add_pattern(to, right)
}

fn add_open(to: &mut String, parens: bool) -> Result<(), AllocError>
    ensures { OnOk result (Lays to.old to.new (spec.opened parens)) }
{
    if parens { to.push_str(" (") } else { Ok(()) }
}

fn add_close(to: &mut String, parens: bool) -> Result<(), AllocError>
    ensures { OnOk result (Lays to.old to.new (spec.closed parens)) }
{
    if parens { to.push_str(" )") } else { Ok(()) }
}

/// Conditions behind others of a row, each behind its `and` or `nand`.
#[cycle(conditions)]
fn add_conjuncts(to: &mut String, rest: &[(Conjunction, Condition)]) -> Result<(), AllocError>
    ensures { OnOk result (Lays to.old to.new (spec.row w.Conjunction at.Unary rest.now)) }
{
    for part in rest {
        add_sign(to, conjunction_text(part.0))?;
        add_condition(to, &part.1, ConditionContext::Unary)?;
    }
    Ok(())
}

/// The same with `or` or `xor`.
#[cycle(conditions)]
fn add_disjuncts(to: &mut String, rest: &[(Disjunction, Condition)]) -> Result<(), AllocError>
    ensures { OnOk result (Lays to.old to.new (spec.row w.Disjunction at.Joined rest.now)) }
{
    for part in rest {
        add_sign(to, disjunction_text(part.0))?;
        add_condition(to, &part.1, ConditionContext::Joined)?;
    }
    Ok(())
}

/// A condition, which stands at this place.
#[tactic(auto, using(crate::proofs::Equations::conditions))]
#[cycle(conditions)]
pub(crate) fn add_condition(
    to: &mut String,
    condition: &Condition,
    place: ConditionContext,
) -> Result<(), AllocError>
    ensures { OnOk result (Lays to.old to.new (spec.condition condition.now place)) }
{
    match condition {
        Condition::Operand(only) => add_operand(to, only),
        Condition::Not(inner) => {
            to.push_str(" !")?;
            add_condition(to, inner.get(), ConditionContext::Unary)
        }
        Condition::Conjoined(first, rest) => {
            let parens = parts_and(place);
            add_open(to, parens)?;
            add_condition(to, first.get(), ConditionContext::Joined)?;
            add_conjuncts(to, rest.as_slice())?;
            add_close(to, parens)
        }
        Condition::Disjoined(first, rest) => {
            let parens = parts_or(place);
            add_open(to, parens)?;
            add_condition(to, first.get(), ConditionContext::Whole)?;
            add_disjuncts(to, rest.as_slice())?;
            add_close(to, parens)
        }
        Condition::Compared(comparison, left, right) => {
            add_compared(to, left, comparison_text(*comparison), right)
        }
        Condition::Matched(matching, left, right) => {
            add_matched(to, left, matching_text(*matching), right)
        }
        Condition::In(left, right) => add_compared(to, left, "in", right),
        Condition::NotIn(left, right) => add_compared(to, left, "not in", right),
    }
}
