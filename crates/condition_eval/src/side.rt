// The operands of a comparison, borrowed from the event or the condition.
ghost use Rattle.std.specs.Prelude.{◌≡◌, ◌<◌, length, Some};
ghost use Rattle.condition_eval.specs.Values as spec;
ghost use Rattle.condition_eval.specs.Sides as sides;

use crate::truth::Kind;
use config_tree::{Literal, Operand};
use event_tree::{Event, Fields, Instant, Number, Value};
use plain_data::Text;

/// What stands on one side of a comparison, where the event or the condition holds it.
#[derive(Clone, Copy)]
pub(crate) enum Side<'a> {
    Null,
    Bool(bool),
    Number(&'a Number),
    Text(&'a Text),
    Time(&'a Instant),
    List(Elements<'a>),
    Object(&'a Fields<Value>),
}

/// The elements of a list.
#[derive(Clone, Copy)]
pub(crate) enum Elements<'a> {
    /// Those of a list of the event.
    Values(&'a [Value]),
    /// Those of a list that the condition writes.
    Literals(&'a [Literal]),
}

/// An element of a list.
#[derive(Clone, Copy)]
pub(crate) enum Element<'a> {
    Value(&'a Value),
    Literal(&'a Literal),
}

impl<'a> Elements<'a> {
    pub(crate) fn len(self) -> usize
        ensures { result ≡ length (sides.values_of self.entry) }
    {
        match self {
            Elements::Values(values) => values.len(),
            Elements::Literals(literals) => literals.len(),
        }
    }

    pub(crate) fn at(self, index: usize) -> Element<'a>
        requires { index < length (sides.values_of self) }
        ensures { sides.IsElement self.entry index result }
    {
        match self {
            Elements::Values(values) => Element::Value(&values[index]),
            Elements::Literals(literals) => Element::Literal(&literals[index]),
        }
    }
}

/// What an operand is in an event: null where the field is missing.
pub(crate) fn side_of<'a>(operand: &'a Operand, event: &'a Event) -> Side<'a>
    ensures { sides.value_of result ≡ spec.operand_value event.now operand.now }
{
    match operand {
        Operand::Field(path) => match event.get(path) {
            Some(value) => side_of_value(value),
            None => Side::Null,
        },
        Operand::Text(text) => Side::Text(text),
        Operand::Number(number) => Side::Number(number),
        Operand::List(list) => Side::List(Elements::Literals(list.as_slice())),
    }
}

fn side_of_value(value: &Value) -> Side<'_>
    ensures { sides.value_of result ≡ value.now }
{
    match value {
        Value::Null => Side::Null,
        Value::Bool(truth) => Side::Bool(*truth),
        Value::Num(number) => Side::Number(number),
        Value::Text(text) => Side::Text(text),
        Value::Time(moment) => Side::Time(moment),
        Value::List(items) => Side::List(Elements::Values(items.as_slice())),
        Value::Object(fields) => Side::Object(fields),
    }
}

fn side_of_literal(literal: &Literal) -> Side<'_>
    ensures { sides.value_of result ≡ spec.literal_value literal.now }
{
    match literal {
        Literal::Text(text) => Side::Text(text),
        Literal::Number(number) => Side::Number(number),
    }
}

pub(crate) fn side_of_element(element: Element<'_>) -> Side<'_>
    ensures { sides.value_of result ≡ sides.element_value element.entry }
{
    match element {
        Element::Value(value) => side_of_value(value),
        Element::Literal(literal) => side_of_literal(literal),
    }
}

/// The kind of a side.
#[tactic(auto, using(crate::proofs::Outs::outs))]
pub(crate) fn kind(side: Side<'_>) -> Kind
    ensures { result ≡ spec.kind_of (sides.value_of side.entry) }
{
    match side {
        Side::Null => Kind::Null,
        Side::Bool(_) => Kind::Boolean,
        Side::Number(_) => Kind::Number,
        Side::Text(_) => Kind::Text,
        Side::Time(_) => Kind::Time,
        Side::List(_) => Kind::List,
        Side::Object(_) => Kind::Object,
    }
}
