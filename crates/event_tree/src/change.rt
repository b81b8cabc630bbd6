// Reading and changing the value at the end of the parts of a path.
ghost use Rattle.std.specs.Prelude.{◌≡◌, [], ◌∷◌, ◌++◌, None, OnOk, OnErr, IfOk};
ghost use Rattle.std.specs.Option.{option_copied};
ghost use Rattle.plain_data.specs.Members.{get_member};
ghost use Rattle.event_tree.specs.Paths.{at, wrap, insert_wrap, step as one_step};
ghost use Rattle.event_tree.specs.Outcomes.{PutAt};
ghost use Rattle.event_tree.specs.declared.value.Value.TheVariants as v;

use crate::fault::PutFault;
use crate::place::place_in;
use crate::value::Value;
use plain_data::{Fields, Items, Text};
use std::alloc::{AllocError, Global};

/// What stands at the end of the parts.
pub(crate) fn get_in<'v>(target: &'v Value, parts: &[Text]) -> Option<&'v Value>
    ensures { option_copied result ≡ at parts.now target.now }
{
    let Some((part, rest)) = parts.split_first() else {
        return Some(target);
    };
    let inner = step(target, part.as_str())?;
    get_in(inner, rest)
}

fn step<'v>(target: &'v Value, part: &str) -> Option<&'v Value>
    ensures { option_copied result ≡ one_step part.now target.now }
{
    match target {
        Value::Object(fields) => fields.get(part),
        Value::List(items) => items.get(place_in(part, items.len())?),
        _ => None,
    }
}

/// The value inside new objects, one for each part.
fn wrapped(alloc: Global, parts: &[Text], value: Value) -> Result<Value, AllocError>
    ensures { IfOk result (λ made. made ≡ wrap parts.now value) }
{
    let Some((part, rest)) = parts.split_first() else {
        return Ok(value);
    };
    let inner = wrapped(alloc, rest, value)?;
    let mut fields = Fields::new(alloc);
    fields.push(part.copy()?, inner)?;
    Ok(Value::Object(fields))
}

fn insert_wrapped(
    alloc: Global,
    fields: &mut Fields<Value>,
    part: &Text,
    rest: &[Text],
    value: Value,
) -> Result<(), AllocError>
    requires { get_member part.now fields.old ≡ None }
    ensures ok { OnOk result (fields.new ≡ insert_wrap part.now rest.now value fields.old) }
    ensures err { OnErr result (fields.new ≡ fields.old) }
{
    let made = wrapped(alloc, rest, value)?;
    let _ = fields.insert(part.copy()?, made)?;
    Ok(())
}

fn push_wrapped(
    alloc: Global,
    items: &mut Items<Value>,
    rest: &[Text],
    value: Value,
) -> Result<(), AllocError>
    ensures ok { OnOk result (items.new ≡ items.old ++ wrap rest.now value ∷ []) }
    ensures err { OnErr result (items.new ≡ items.old) }
{
    let made = wrapped(alloc, rest, value)?;
    items.push(made)
}

/// Puts a value at the end of the parts, and makes missing objects on the way.
#[cycle(put)]
pub(crate) fn put_in(
    alloc: Global,
    target: &mut Value,
    parts: &[Text],
    value: Value,
) -> Result<(), PutFault>
    ensures { PutAt result parts.now value target.old target.new }
{
    let Some((part, rest)) = parts.split_first() else {
        *target = value;
        return Ok(());
    };
    match target {
        Value::Object(fields) => put_field(alloc, fields, part, rest, value),
        Value::List(items) => put_item(alloc, items, part, rest, value),
        _ => Err(PutFault::ThroughScalar),
    }
}

#[cycle(put)]
fn put_field(
    alloc: Global,
    fields: &mut Fields<Value>,
    part: &Text,
    rest: &[Text],
    value: Value,
) -> Result<(), PutFault>
    ensures { PutAt result (part.now ∷ rest.now) value (v.Object fields.old) (v.Object fields.new) }
{
    if let Some(inner) = fields.get_mut(part.as_str()) {
        return put_in(alloc, inner, rest, value);
    }
    match insert_wrapped(alloc, fields, part, rest, value) {
        Ok(()) => Ok(()),
        Err(_) => Err(PutFault::Memory),
    }
}

#[cycle(put)]
fn put_item(
    alloc: Global,
    items: &mut Items<Value>,
    part: &Text,
    rest: &[Text],
    value: Value,
) -> Result<(), PutFault>
    ensures { PutAt result (part.now ∷ rest.now) value (v.List items.old) (v.List items.new) }
{
    let Some(index) = place_in(part.as_str(), items.len()) else {
        return Err(PutFault::ThroughScalar);
    };
    if let Some(inner) = items.get_mut(index) {
        return put_in(alloc, inner, rest, value);
    }
    match push_wrapped(alloc, items, rest, value) {
        Ok(()) => Ok(()),
        Err(_) => Err(PutFault::Memory),
    }
}
