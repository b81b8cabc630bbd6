// Order and equality of two values.
ghost use Rattle.std.specs.Prelude.{◌≡◌, ◌↔◌, IsTrue};
ghost use Rattle.event_tree.specs.declared.value.Value.{out-Value};
ghost use Rattle.condition_eval.specs.Values as spec;
ghost use Rattle.condition_eval.specs.Sides as sides;

use crate::number::number_order;
use crate::side::{Element, Elements, Side, kind, side_of_element};
use crate::truth::{Kind, Reason, Truth};
use config_tree::Literal;
use event_tree::{Instant, Number, Text, Value};
use std::cmp::Ordering;

/// How two values stand to one another.
#[derive(Clone, Copy)]
pub(crate) enum ValueOrder {
    /// One of them is null.
    Null,
    Is(Ordering),
    /// Values of these kinds have no order.
    Wrong(Kind, Kind),
}

/// The order of two numbers, of two texts by their bytes, or of two times.
#[tactic(auto, using(crate::proofs::Outs::outs))]
pub(crate) fn order_of(left: Side<'_>, right: Side<'_>) -> ValueOrder
    ensures { result ≡ spec.order_of (sides.value_of left.entry) (sides.value_of right.entry) }
{
    match left {
        Side::Null => ValueOrder::Null,
        Side::Bool(_) => unordered(Kind::Boolean, right),
        Side::Number(number) => after_number(number, right),
        Side::Text(text) => after_text(text, right),
        Side::Time(moment) => after_time(moment, right),
        Side::List(_) => unordered(Kind::List, right),
        Side::Object(_) => unordered(Kind::Object, right),
    }
}

#[tactic(auto, using(crate::proofs::Outs::outs))]
fn after_number(left: &Number, right: Side<'_>) -> ValueOrder
    ensures { result ≡ spec.after_number left.now (out-Value (sides.value_of right.entry)) }
{
    match right {
        Side::Number(right) => ValueOrder::Is(number_order(*left, *right)),
        other => unordered(Kind::Number, other),
    }
}

#[tactic(auto, using(crate::proofs::Outs::outs))]
fn after_text(left: &Text, right: Side<'_>) -> ValueOrder
    ensures { result ≡ spec.after_text left.now (out-Value (sides.value_of right.entry)) }
{
    match right {
        Side::Text(right) => ValueOrder::Is(left.cmp(right)),
        other => unordered(Kind::Text, other),
    }
}

#[tactic(auto, using(crate::proofs::Outs::outs))]
fn after_time(left: &Instant, right: Side<'_>) -> ValueOrder
    ensures { result ≡ spec.after_time left.now (out-Value (sides.value_of right.entry)) }
{
    match right {
        Side::Time(right) => ValueOrder::Is(left.nanos().cmp(&right.nanos())),
        other => unordered(Kind::Time, other),
    }
}

/// What has no order with a value of this kind, unless it is null.
#[tactic(auto, using(crate::proofs::Outs::outs))]
fn unordered(left: Kind, right: Side<'_>) -> ValueOrder
    ensures { result ≡ spec.unordered left (out-Value (sides.value_of right.entry)) }
{
    match right {
        Side::Null => ValueOrder::Null,
        other => ValueOrder::Wrong(left, kind(other)),
    }
}

/// `==`: whether two values are equal.
pub(crate) fn are_equal(left: Side<'_>, right: Side<'_>) -> bool
    ensures { IsTrue result ↔ (sides.value_of left.entry ≡ sides.value_of right.entry) }
{
    match (left, right) {
        (Side::Null, Side::Null) => true,
        (Side::Bool(a), Side::Bool(b)) => a == b,
        (Side::Number(a), Side::Number(b)) => a == b,
        (Side::Text(a), Side::Text(b)) => a == b,
        (Side::Time(a), Side::Time(b)) => a == b,
        (Side::List(a), Side::List(b)) => are_equal_elements(a, b),
        (Side::Object(a), Side::Object(b)) => are_equal_members(a.members(), b.members()),
        _ => false,
    }
}

fn are_equal_elements(left: Elements<'_>, right: Elements<'_>) -> bool
    ensures { IsTrue result ↔ (sides.values_of left.entry ≡ sides.values_of right.entry) }
{
    if left.len() != right.len() {
        return false;
    }
    for i in 0..left.len() {
        if !are_same(left.at(i), right.at(i)) {
            return false;
        }
    }
    true
}

fn are_same(left: Element<'_>, right: Element<'_>) -> bool
    ensures { IsTrue result ↔ sides.AreSameElements left.entry right.entry }
{
    match (left, right) {
        (Element::Value(a), Element::Value(b)) => a.same(b),
        (Element::Value(a), Element::Literal(b)) => is_literal(a, b),
        (Element::Literal(a), Element::Value(b)) => is_literal(b, a),
        (Element::Literal(a), Element::Literal(b)) => is_same_literal(a, b),
    }
}

fn are_equal_members(left: &[(Text, Value)], right: &[(Text, Value)]) -> bool
    ensures { IsTrue result ↔ (left.now ≡ right.now) }
{
    if left.len() != right.len() {
        return false;
    }
    for i in 0..left.len() {
        let one = &left[i];
        let other = &right[i];
        if one.0 != other.0 || !one.1.same(&other.1) {
            return false;
        }
    }
    true
}

fn is_literal(value: &Value, literal: &Literal) -> bool
    ensures { IsTrue result ↔ (value.now ≡ spec.literal_value literal.now) }
{
    match (value, literal) {
        (Value::Text(a), Literal::Text(b)) => a == b,
        (Value::Num(a), Literal::Number(b)) => a == b,
        _ => false,
    }
}

fn is_same_literal(left: &Literal, right: &Literal) -> bool
    ensures { IsTrue result ↔ (spec.literal_value left.now ≡ spec.literal_value right.now) }
{
    match (left, right) {
        (Literal::Text(a), Literal::Text(b)) => a == b,
        (Literal::Number(a), Literal::Number(b)) => a == b,
        _ => false,
    }
}

/// `in`: whether an item of the list on the right equals the left side, or the text on the right
/// holds the one on the left.
#[tactic(auto, using(crate::proofs::Outs::outs))]
pub(crate) fn is_in(left: Side<'_>, right: Side<'_>) -> bool
    ensures { result ≡ spec.is_in (sides.value_of left.entry) (sides.value_of right.entry) }
{
    match (left, right) {
        (left, Side::List(elements)) => is_among(left, elements),
        (Side::Text(part), Side::Text(text)) => holds(text.as_str(), part.as_str()),
        _ => false,
    }
}

fn is_among(left: Side<'_>, elements: Elements<'_>) -> bool
    ensures { result ≡ sides.is_among left.entry elements.entry }
{
    for i in 0..elements.len() {
        if are_equal(left, side_of_element(elements.at(i))) {
            return true;
        }
    }
    false
}

fn holds(text: &str, part: &str) -> bool
    ensures { result ≡ spec.holds part.now text.now }
{
    text.contains(part)
}
