// Evaluating a condition over an event.
ghost use Rattle.std.specs.Prelude.{◌≡◌, ◌+◌, ◌<◌, ◌^◌, ◌++◌, ◌∷◌, [], length, drop, IfOk, IsOk};
ghost use Rattle.pattern_box.specs.Patterns.{IsReadFrom, IsSamePattern};
ghost use Rattle.condition_eval.specs.Truths as spec;
ghost use Rattle.condition_eval.specs.Made.{AreMadeOf, BeginWith, texts, texts_behind, pattern_text, meanings};
ghost use Rattle.condition_eval.specs.Sides.{value_of};
ghost use Rattle.condition_eval.specs.Values.{operand_value};

use crate::operators::{alone, compared, within};
use crate::side::{Side, kind, side_of};
use crate::truth::{Reason, Truth};
use config_tree::{Condition, Conjunction, Disjunction, MatchPattern, Matching, Operand};
use event_tree::Event;
use pattern_box::{Pattern, Patterns};
use std::alloc::AllocError;

/// What a condition says of an event. The patterns are those that `patterns_of` made of it, and
/// stay so.
///
/// A missing field counts as null. `and` and `nand` evaluate their right side after Yes, `or` after
/// No, and `xor` after both. The first Wrong that is met is the result. An error is want of memory,
/// and comes of no condition without patterns.
pub fn eval(
    condition: &Condition,
    patterns: &mut Patterns,
    event: &Event,
) -> Result<Truth, AllocError>
    requires { AreMadeOf condition.now patterns.old }
    ensures truth { IfOk result (λ found. found ≡ spec.truth condition.now event.now) }
    ensures without_patterns { texts condition.now ≡ [] → IsOk result }
    ensures same { meanings patterns.new ≡ meanings patterns.old }
    ensures made { AreMadeOf condition.now patterns.new }
{
    Ok(walk(condition, patterns.as_mut_slice(), 0, event)?.truth)
}

/// What a part of a condition says, and the place of the first pattern behind its own.
#[derive(Drop)]
pub(crate) struct Evaluated {
    truth: Truth,
    next: usize,
}

impl Evaluated {
    fn negated(self) -> Evaluated
        ensures truth { result.truth ≡ spec.negated self.truth }
        ensures next { result.next ≡ self.next }
    {
        Evaluated {
            truth: self.truth.negated(),
            next: self.next,
        }
    }
}

// The patterns of the condition begin at the place `at`.
#[tactic(auto, unfolding(crate::specs::Truths::truth, crate::specs::Made::texts), using(config_tree::proofs::Folds::condition_folds))]
#[cycle(walk)]
fn walk(
    condition: &Condition,
    patterns: &mut [Pattern],
    at: usize,
    event: &Event,
) -> Result<Evaluated, AllocError>
    requires { BeginWith (texts condition.now) (drop at patterns.old) }
    ensures truth { IfOk result (λ passed. passed.truth ≡ spec.truth condition.now event.now) }
    ensures next { IfOk result (λ passed. passed.next ≡ at + length (texts condition.now)) }
    ensures without_patterns { texts condition.now ≡ [] → IsOk result }
    ensures same { meanings patterns.new ≡ meanings patterns.old }
{
    match condition {
        Condition::Operand(operand) => Ok(here(alone(operand, event), at)),
        Condition::Not(part) => Ok(walk(part.get(), patterns, at, event)?.negated()),
        Condition::Conjoined(first, rest) => {
            let first = walk(first.get(), patterns, at, event)?;
            conjoined(first, rest.as_slice(), patterns, event)
        }
        Condition::Disjoined(first, rest) => {
            let first = walk(first.get(), patterns, at, event)?;
            disjoined(first, rest.as_slice(), patterns, event)
        }
        Condition::Compared(by, left, right) => Ok(here(compared(*by, left, right, event), at)),
        Condition::Matched(by, left, written) => search(*by, left, written, patterns, at, event),
        Condition::In(left, right) => Ok(here(within(left, right, event), at)),
        Condition::NotIn(left, right) => Ok(here(within(left, right, event), at).negated()),
    }
}

// What follows the first condition of a row of `and` and `nand`.
#[cycle(walk)]
fn conjoined(
    first: Evaluated,
    rest: &[(Conjunction, Condition)],
    patterns: &mut [Pattern],
    event: &Event,
) -> Result<Evaluated, AllocError>
    requires { BeginWith (texts_behind rest.now) (drop first.next patterns.old) }
    ensures truth { IfOk result (λ passed. passed.truth
        ≡ spec.conjoined_row first.truth event.now rest.now) }
    ensures next { IfOk result (λ passed. passed.next
        ≡ first.next + length (texts_behind rest.now)) }
    ensures without_patterns { texts_behind rest.now ≡ [] → IsOk result }
    ensures same { meanings patterns.new ≡ meanings patterns.old }
{
    let mut left = first;
    for part in rest {
        left = conjoin(part.0, left, &part.1, patterns, event)?;
    }
    Ok(left)
}

// What follows the first condition of a row of `or` and `xor`.
#[cycle(walk)]
fn disjoined(
    first: Evaluated,
    rest: &[(Disjunction, Condition)],
    patterns: &mut [Pattern],
    event: &Event,
) -> Result<Evaluated, AllocError>
    requires { BeginWith (texts_behind rest.now) (drop first.next patterns.old) }
    ensures truth { IfOk result (λ passed. passed.truth
        ≡ spec.disjoined_row first.truth event.now rest.now) }
    ensures next { IfOk result (λ passed. passed.next
        ≡ first.next + length (texts_behind rest.now)) }
    ensures without_patterns { texts_behind rest.now ≡ [] → IsOk result }
    ensures same { meanings patterns.new ≡ meanings patterns.old }
{
    let mut left = first;
    for part in rest {
        left = disjoin(part.0, left, &part.1, patterns, event)?;
    }
    Ok(left)
}

// `and` and `nand` evaluate their right side after Yes.
#[cycle(walk)]
fn conjoin(
    joint: Conjunction,
    left: Evaluated,
    right: &Condition,
    patterns: &mut [Pattern],
    event: &Event,
) -> Result<Evaluated, AllocError>
    requires { BeginWith (texts right.now) (drop left.next patterns.old) }
    ensures truth { IfOk result (λ passed. passed.truth
        ≡ spec.by_conjunction joint left.truth (spec.truth right.now event.now)) }
    ensures next { IfOk result (λ passed. passed.next ≡ left.next + length (texts right.now)) }
    ensures without_patterns { texts right.now ≡ [] → IsOk result }
    ensures same { meanings patterns.new ≡ meanings patterns.old }
{
    let joined = match left.truth {
        Truth::Yes => walk(right, patterns, left.next, event)?,
        truth => here(truth, past(right, left.next)),
    };
    match joint {
        Conjunction::And => Ok(joined),
        Conjunction::Nand => Ok(joined.negated()),
    }
}

// `or` evaluates its right side after No, and `xor` after both.
#[cycle(walk)]
fn disjoin(
    joint: Disjunction,
    left: Evaluated,
    right: &Condition,
    patterns: &mut [Pattern],
    event: &Event,
) -> Result<Evaluated, AllocError>
    requires { BeginWith (texts right.now) (drop left.next patterns.old) }
    ensures truth { IfOk result (λ passed. passed.truth
        ≡ spec.by_disjunction joint left.truth (spec.truth right.now event.now)) }
    ensures next { IfOk result (λ passed. passed.next ≡ left.next + length (texts right.now)) }
    ensures without_patterns { texts right.now ≡ [] → IsOk result }
    ensures same { meanings patterns.new ≡ meanings patterns.old }
{
    match (joint, left.truth) {
        (_, Truth::No) => walk(right, patterns, left.next, event),
        (Disjunction::Xor, Truth::Yes) => Ok(walk(right, patterns, left.next, event)?.negated()),
        (_, truth) => Ok(here(truth, past(right, left.next))),
    }
}

/// `=~` or `!~` with the pattern at the place `at`.
fn search(
    by: Matching,
    operand: &Operand,
    written: &MatchPattern,
    patterns: &mut [Pattern],
    at: usize,
    event: &Event,
) -> Result<Evaluated, AllocError>
    requires { BeginWith (pattern_text written.now ∷ []) (drop at patterns.old) }
    ensures truth { IfOk result (λ passed. passed.truth
        ≡ spec.matched by (spec.found_in (pattern_text written.now)) (operand_value event.now operand.now)) }
    ensures next { IfOk result (λ passed. passed.next ≡ at + 1) }
    ensures same { meanings patterns.new ≡ meanings patterns.old }
{
    let truth = matching(side_of(operand, event), written, &mut patterns[at])?;
    Ok(here(by_matching(by, truth), at + 1))
}

fn by_matching(by: Matching, truth: Truth) -> Truth
    ensures { result ≡ spec.by_matching by truth }
{
    match by {
        Matching::Matches => truth,
        Matching::MatchesNot => truth.negated(),
    }
}

/// Whether the pattern is found in a text. Null holds none, and other kinds are wrong.
#[tactic(auto, using(crate::proofs::Outs::outs))]
fn matching(
    side: Side<'_>,
    written: &MatchPattern,
    pattern: &mut Pattern,
) -> Result<Truth, AllocError>
    requires { IsReadFrom (pattern_text written.now) pattern.old }
    ensures truth { IfOk result (λ truth. truth
        ≡ spec.matching (spec.found_in (pattern_text written.now)) (value_of side.entry)) }
    ensures same { IsSamePattern pattern.old pattern.new }
{
    match side {
        Side::Null => Ok(Truth::No),
        Side::Text(text) => Ok(Truth::of(is_found(written, pattern, text.as_str())?)),
        other => Ok(Truth::Wrong(Reason::Match(kind(other)))),
    }
}

fn is_found(written: &MatchPattern, pattern: &mut Pattern, text: &str) -> Result<bool, AllocError>
    requires { IsReadFrom (pattern_text written.now) pattern.old }
    ensures found { IfOk result (λ found. found ≡ spec.is_found written.now text.now) }
    ensures same { IsSamePattern pattern.old pattern.new }
{
    Ok(pattern.spans(text)?.is_some())
}

// The place behind the patterns of the condition, which begin at the place `at`.
#[tactic(auto, using(crate::proofs::TextsOf::counts))]
#[cycle(past)]
fn past(condition: &Condition, at: usize) -> usize
    requires { at + length (texts condition.now) < 2 ^ 64 }
    ensures { result ≡ at + length (texts condition.now) }
{
    match condition {
        Condition::Not(part) => past(part.get(), at),
        Condition::Conjoined(first, rest) => past_conjoined(rest.as_slice(), past(first.get(), at)),
        Condition::Disjoined(first, rest) => past_disjoined(rest.as_slice(), past(first.get(), at)),
        Condition::Matched(_, _, _) => at + 1,
        Condition::Operand(_)
        | Condition::Compared(_, _, _)
        | Condition::In(_, _)
        | Condition::NotIn(_, _) => at,
    }
}

// The same for what follows the first condition of a row of `and` and `nand`.
#[cycle(past)]
fn past_conjoined(rest: &[(Conjunction, Condition)], at: usize) -> usize
    requires { at + length (texts_behind rest.now) < 2 ^ 64 }
    ensures { result ≡ at + length (texts_behind rest.now) }
{
    let mut next = at;
    for part in rest {
        next = past(&part.1, next);
    }
    next
}

// The same for what follows the first condition of a row of `or` and `xor`.
#[cycle(past)]
fn past_disjoined(rest: &[(Disjunction, Condition)], at: usize) -> usize
    requires { at + length (texts_behind rest.now) < 2 ^ 64 }
    ensures { result ≡ at + length (texts_behind rest.now) }
{
    let mut next = at;
    for part in rest {
        next = past(&part.1, next);
    }
    next
}

fn here(truth: Truth, next: usize) -> Evaluated
    ensures truth { result.truth ≡ truth }
    ensures next { result.next ≡ next }
{
    Evaluated { truth, next }
}
