//! The operators whose sides are operands, each by the rule of its own.

ghost use Rattle.std.specs.Prelude.{◌≡◌};
ghost use Rattle.condition_eval.specs.Truths as spec;
ghost use Rattle.condition_eval.specs.Values.{between, operand_value};

use crate::compare::{ValueOrder, are_equal, is_in, order_of};
use crate::side::{Side, side_of};
use crate::truth::{Reason, Truth};
use config_tree::{Comparison, Operand};
use event_tree::Event;
use std::cmp::Ordering;

/// An operand alone: Yes unless it is null or false.
#[tactic(auto, using(crate::proofs::Outs::outs))]
pub(crate) fn alone(operand: &Operand, event: &Event) -> Truth
    ensures { result ≡ spec.alone (operand_value event.now operand.now) }
{
    match side_of(operand, event) {
        Side::Null | Side::Bool(false) => Truth::No,
        _ => Truth::Yes,
    }
}

#[tactic(auto, using(crate::proofs::EqualityLemmas::is_the_test))]
fn equal(left: &Operand, right: &Operand, event: &Event) -> Truth
    ensures { result ≡ between spec.equal event.now left.now right.now }
{
    Truth::of(are_equal(side_of(left, event), side_of(right, event)))
}

/// Whether a comparison accepts an order.
fn accepts(comparison: Comparison, order: Ordering) -> bool
    ensures { result ≡ spec.accepts comparison order }
{
    match comparison {
        Comparison::Equal => order.is_eq(),
        Comparison::Unequal => order.is_ne(),
        Comparison::Less => order.is_lt(),
        Comparison::Greater => order.is_gt(),
        Comparison::AtMost => order.is_le(),
        Comparison::AtLeast => order.is_ge(),
    }
}

fn ordered(comparison: Comparison, left: &Operand, right: &Operand, event: &Event) -> Truth
    ensures { result ≡ between (spec.by_order comparison) event.now left.now right.now }
{
    match order_of(side_of(left, event), side_of(right, event)) {
        ValueOrder::Null => Truth::No,
        ValueOrder::Is(order) => Truth::of(accepts(comparison, order)),
        ValueOrder::Wrong(left, right) => Truth::Wrong(Reason::Order(left, right)),
    }
}

pub(crate) fn compared(
    comparison: Comparison,
    left: &Operand,
    right: &Operand,
    event: &Event,
) -> Truth
    ensures { result ≡ between (spec.compared comparison) event.now left.now right.now }
{
    match comparison {
        Comparison::Equal => equal(left, right, event),
        Comparison::Unequal => equal(left, right, event).negated(),
        by_order => ordered(by_order, left, right, event),
    }
}

pub(crate) fn within(left: &Operand, right: &Operand, event: &Event) -> Truth
    ensures { result ≡ between spec.within event.now left.now right.now }
{
    Truth::of(is_in(side_of(left, event), side_of(right, event)))
}
