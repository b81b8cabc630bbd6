// Taking away the value at the end of the parts of a path.
ghost use Rattle.std.specs.Prelude.{◌∷◌};
ghost use Rattle.event_tree.specs.Outcomes.{Cuts, CutsBytes};
ghost use Rattle.event_tree.specs.declared.value.Value.TheVariants as v;

use crate::place::place_in;
use crate::value::Value;
use plain_data::{Fields, Items, Text};

/// A value that was taken away, and the bytes that the encoding had for its key.
#[derive(Drop)]
pub(crate) struct Cut {
    pub(crate) value: Value,
    pub(crate) key_size: u64,
}

#[cycle(take)]
pub(crate) fn take_in(target: &mut Value, parts: &[Text]) -> Option<Cut>
    ensures taken { Cuts result parts.now target.old target.new }
    ensures shorter { CutsBytes result target.old target.new }
{
    let (part, rest) = parts.split_first()?;
    match target {
        Value::Object(fields) => take_field(fields, part, rest),
        Value::List(items) => take_item(items, part, rest),
        _ => None,
    }
}

#[cycle(take)]
fn take_field(fields: &mut Fields<Value>, part: &Text, rest: &[Text]) -> Option<Cut>
    ensures taken { Cuts result (part.now ∷ rest.now) (v.Object fields.old) (v.Object fields.new) }
    ensures shorter { CutsBytes result (v.Object fields.old) (v.Object fields.new) }
{
    if rest.is_empty() {
        return match fields.remove(part.as_str()) {
            Some(value) => Some(Cut {
                value,
                key_size: 4 + part.len() as u64,
            }),
            None => None,
        };
    }
    if let Some(inner) = fields.get_mut(part.as_str()) {
        return take_in(inner, rest);
    }
    None
}

#[cycle(take)]
fn take_item(items: &mut Items<Value>, part: &Text, rest: &[Text]) -> Option<Cut>
    ensures taken { Cuts result (part.now ∷ rest.now) (v.List items.old) (v.List items.new) }
    ensures shorter { CutsBytes result (v.List items.old) (v.List items.new) }
{
    let Some(index) = place_in(part.as_str(), items.len()) else {
        return None;
    };
    if index >= items.len() {
        return None;
    }
    if rest.is_empty() {
        let value = items.remove(index);
        return Some(Cut { value, key_size: 0 });
    }
    if let Some(inner) = items.get_mut(index) {
        return take_in(inner, rest);
    }
    None
}
