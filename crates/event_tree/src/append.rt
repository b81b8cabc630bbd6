// Adding a value at the end of the list at the end of the parts.
ghost use Rattle.std.specs.Prelude.{◌∷◌, []};
ghost use Rattle.event_tree.specs.Outcomes.{AppendAt};
ghost use Rattle.event_tree.specs.declared.value.Value.TheVariants as v;

use crate::fault::PutFault;
use crate::place::place_in;
use crate::value::Value;
use plain_data::{Fields, Items, Text};

/// Adds a value at the end of the list at the end of the parts.
#[cycle(append)]
pub(crate) fn append_in(target: &mut Value, parts: &[Text], value: Value) -> Result<(), PutFault>
    ensures { AppendAt result parts.now value target.old target.new }
{
    let Some((part, rest)) = parts.split_first() else {
        return append_to(target, value);
    };
    match target {
        Value::Object(fields) => append_field(fields, part, rest, value),
        Value::List(items) => append_item(items, part, rest, value),
        _ => Err(PutFault::ThroughScalar),
    }
}

fn append_to(target: &mut Value, value: Value) -> Result<(), PutFault>
    ensures { AppendAt result [] value target.old target.new }
{
    match target {
        Value::List(items) => match items.push(value) {
            Ok(()) => Ok(()),
            Err(_) => Err(PutFault::Memory),
        },
        _ => Err(PutFault::ThroughScalar),
    }
}

#[cycle(append)]
fn append_field(
    fields: &mut Fields<Value>,
    part: &Text,
    rest: &[Text],
    value: Value,
) -> Result<(), PutFault>
    ensures { AppendAt result (part.now ∷ rest.now) value (v.Object fields.old)
        (v.Object fields.new) }
{
    match fields.get_mut(part.as_str()) {
        Some(inner) => append_in(inner, rest, value),
        None => Err(PutFault::ThroughScalar),
    }
}

#[cycle(append)]
fn append_item(
    items: &mut Items<Value>,
    part: &Text,
    rest: &[Text],
    value: Value,
) -> Result<(), PutFault>
    ensures { AppendAt result (part.now ∷ rest.now) value (v.List items.old) (v.List items.new) }
{
    let Some(index) = place_in(part.as_str(), items.len()) else {
        return Err(PutFault::ThroughScalar);
    };
    match items.get_mut(index) {
        Some(inner) => append_in(inner, rest, value),
        None => Err(PutFault::ThroughScalar),
    }
}
