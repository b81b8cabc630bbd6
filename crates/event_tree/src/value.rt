// The values of an event, and copying and comparing them.
ghost use Rattle.std.specs.Prelude.{◌≡◌, ◌↔◌, [], IfOk, IsTrue};
ghost use Rattle.plain_data.specs.Members.{Rises};

use crate::number::Number;
use plain_data::{Fields, Instant, Items, Text};
use std::alloc::AllocError;

/// A value of an event.
///
/// Contracts see it as plain data: a text is the list of its UTF-8 bytes, a time its nanoseconds
/// from 1970, a list the list of its values, and an object the list of its members, (key, value),
/// with keys that rise strictly in byte order.
#[derive(Drop)]
pub enum Value {
    /// Nothing, as JSON's `null`.
    Null,
    /// A truth value.
    Bool(bool),
    /// A decimal number.
    Num(Number),
    /// A text in UTF-8.
    Text(Text),
    /// An instant.
    Time(Instant),
    /// Values in order.
    List(Items<Value>),
    /// Values by key.
    Object(Fields<Value>),
}

impl Value {
    /// The same value again, in memory of the same allocators. It takes time in proportion to the
    /// size of the value.
    pub fn copy(&self) -> Result<Value, AllocError>
        ensures { IfOk result (λ copy. copy ≡ self.now) }
    {
        copy_value(self)
    }

    /// Whether two values are equal: texts by their bytes, numbers and times by what they are,
    /// lists and objects part by part.
    pub fn same(&self, other: &Value) -> bool
        ensures { IsTrue result ↔ (self.now ≡ other.now) }
    {
        same_value(self, other)
    }
}

#[tactic(auto, using(crate::proofs::Depths::falls))]
#[cycle(copy)]
fn copy_value(value: &Value) -> Result<Value, AllocError>
    ensures { IfOk result (λ copy. copy ≡ value.now) }
{
    match value {
        Value::Null => Ok(Value::Null),
        Value::Bool(truth) => Ok(Value::Bool(*truth)),
        Value::Num(number) => Ok(Value::Num(*number)),
        Value::Text(text) => Ok(Value::Text(text.copy()?)),
        Value::Time(moment) => Ok(Value::Time(*moment)),
        Value::List(items) => {
            let copies = Items::with_capacity(items.allocator(), items.len())?;
            Ok(Value::List(copy_items(copies, items.as_slice())?))
        }
        Value::Object(fields) => {
            let copies = Fields::with_capacity(fields.allocator(), fields.len())?;
            Ok(Value::Object(copy_members(copies, fields.members())?))
        }
    }
}

#[tactic(auto, using(crate::proofs::Depths::falls))]
#[cycle(copy)]
fn copy_items(empty: Items<Value>, items: &[Value]) -> Result<Items<Value>, AllocError>
    requires { empty ≡ [] }
    ensures { IfOk result (λ copies. copies ≡ items.now) }
{
    let mut copies = empty;
    for item in items {
        copies.push(copy_value(item)?)?;
    }
    Ok(copies)
}

#[tactic(auto, using(crate::proofs::Depths::falls))]
#[cycle(copy)]
fn copy_members(
    empty: Fields<Value>,
    members: &[(Text, Value)],
) -> Result<Fields<Value>, AllocError>
    requires empty { empty ≡ [] }
    requires rises { Rises members.now }
    ensures { IfOk result (λ copies. copies ≡ members.now) }
{
    let mut copies = empty;
    for member in members {
        copies.push(member.0.copy()?, copy_value(&member.1)?)?;
    }
    Ok(copies)
}

#[tactic(auto, using(crate::proofs::Depths::falls))]
#[cycle(same)]
fn same_value(left: &Value, right: &Value) -> bool
    ensures { IsTrue result ↔ (left.now ≡ right.now) }
{
    match (left, right) {
        (Value::Null, Value::Null) => true,
        (Value::Bool(a), Value::Bool(b)) => a == b,
        (Value::Num(a), Value::Num(b)) => a == b,
        (Value::Text(a), Value::Text(b)) => a == b,
        (Value::Time(a), Value::Time(b)) => a == b,
        (Value::List(a), Value::List(b)) => same_items(a.as_slice(), b.as_slice()),
        (Value::Object(a), Value::Object(b)) => same_members(a.members(), b.members()),
        _ => false,
    }
}

#[tactic(auto, using(crate::proofs::Depths::falls))]
#[cycle(same)]
fn same_items(left: &[Value], right: &[Value]) -> bool
    ensures { IsTrue result ↔ (left.now ≡ right.now) }
{
    if left.len() != right.len() {
        return false;
    }
    for i in 0..left.len() {
        if !same_value(&left[i], &right[i]) {
            return false;
        }
    }
    true
}

#[tactic(auto, using(crate::proofs::Depths::falls))]
#[cycle(same)]
fn same_members(left: &[(Text, Value)], right: &[(Text, Value)]) -> bool
    ensures { IsTrue result ↔ (left.now ≡ right.now) }
{
    if left.len() != right.len() {
        return false;
    }
    for i in 0..left.len() {
        let one = &left[i];
        let other = &right[i];
        if one.0 != other.0 || !same_value(&one.1, &other.1) {
            return false;
        }
    }
    true
}
