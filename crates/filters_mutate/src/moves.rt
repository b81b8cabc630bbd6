// The operations that bring the value of one field to another.
ghost use Rattle.std.specs.Prelude.{◌≡◌, ◌++◌, IfOk, OnOk};
ghost use Rattle.filter_settings.specs.Trying.{tried, all_tried};
ghost use Rattle.plain_data.specs.Members.{insert_member};
ghost use Rattle.filters_mutate.specs.Operations as spec;
ghost use Rattle.filters_mutate.specs.declared.moves.Move.TheVariants as moves;

use event_text::values;
use event_tree::{Event, Fields, Items, Path, PutFault, Text, Value};
use filter_settings::{Change, add_copies, change_at, put_at};
use std::alloc::{AllocError, Global};

/// How a value is brought to another field.
#[derive(Clone, Copy)]
pub enum Move {
    /// It moves from the first field to the second.
    Rename,
    /// The second field's value is added to the first's.
    Merge,
    /// A copy of the first field's value is set at the second.
    Copy,
}

#[tactic(auto, using(filter_settings::proofs::Steps::trying))]
pub(crate) fn move_all(
    alloc: Global,
    how: Move,
    fields: &[(Path, Path)],
    event: &mut Event,
) -> Result<bool, AllocError>
    ensures { IfOk result (λ fine. tried fine event.new ≡ all_tried (spec.moved how) fields.now
        event.old) }
{
    for field in fields {
        if !move_one(alloc, how, field, event)? {
            return Ok(false);
        }
    }
    Ok(true)
}

fn move_one(
    alloc: Global,
    how: Move,
    field: &(Path, Path),
    event: &mut Event,
) -> Result<bool, AllocError>
    ensures { IfOk result (λ fine. tried fine event.new ≡ spec.moved how field.now event.old) }
{
    match how {
        Move::Rename => rename(&field.0, &field.1, event),
        Move::Merge => merge(alloc, &field.0, &field.1, event),
        Move::Copy => copy(&field.0, &field.1, event),
    }
}

fn rename(from: &Path, to: &Path, event: &mut Event) -> Result<bool, AllocError>
    ensures { IfOk result (λ fine. tried fine event.new ≡ spec.moved moves.Rename (from.now, to.now)
        event.old) }
{
    match event.rename(from, to) {
        Ok(_) => Ok(true),
        Err(PutFault::Memory) => Err(AllocError),
        Err(PutFault::ThroughScalar) => Ok(false),
        Err(PutFault::Deep) => Ok(false),
        Err(PutFault::Large) => Ok(false),
    }
}

fn copy(from: &Path, to: &Path, event: &mut Event) -> Result<bool, AllocError>
    ensures { IfOk result (λ fine. tried fine event.new ≡ spec.moved moves.Copy (from.now, to.now)
        event.old) }
{
    let copy = match event.get(from) {
        Some(value) => value.copy()?,
        None => return Ok(true),
    };
    put_at(event, to, copy)
}

fn merge(alloc: Global, into: &Path, from: &Path, event: &mut Event) -> Result<bool, AllocError>
    ensures { IfOk result (λ fine. tried fine event.new ≡ spec.moved moves.Merge
        (into.now, from.now) event.old) }
{
    let Some(value) = event.get(into) else {
        return Ok(true);
    };
    let Some(added) = event.get(from) else {
        return Ok(true);
    };
    let change = merged(alloc, value, added)?;
    change_at(event, into, change)
}

fn merged(alloc: Global, value: &Value, added: &Value) -> Result<Change, AllocError>
    ensures { IfOk result (λ change. change ≡ spec.merged value.now added.now) }
{
    match (value, added) {
        (Value::Object(fields), Value::Object(more)) => {
            let members = with_members(fields, more.members())?;
            Ok(Change::Set(Value::Object(members)))
        }
        (Value::Object(_), Value::List(_)) | (Value::List(_), Value::Object(_)) => Ok(Change::Fail),
        _ => {
            let items = joined(alloc, values(value), values(added))?;
            Ok(Change::Set(Value::List(items)))
        }
    }
}

// Copies of the fields, and then those of others in place of what has the same keys.
fn with_members(fields: &Fields<Value>, more: &[(Text, Value)]) -> Result<Fields<Value>, AllocError>
    ensures { IfOk result (λ all. all ≡ spec.with_members fields.now more.now) }
{
    let mut all = copied(fields)?;
    for member in more {
        insert_copy(&mut all, &member.0, &member.1)?;
    }
    Ok(all)
}

fn insert_copy(to: &mut Fields<Value>, key: &Text, value: &Value) -> Result<(), AllocError>
    ensures { OnOk result (to.new ≡ insert_member key.now value.now to.old) }
{
    let key = key.copy()?;
    let value = value.copy()?;
    to.insert(key, value)?;
    Ok(())
}

fn copied(fields: &Fields<Value>) -> Result<Fields<Value>, AllocError>
    ensures { IfOk result (λ copies. copies ≡ fields.now) }
{
    let mut copies = Fields::with_capacity(fields.allocator(), fields.len())?;
    for member in fields.members() {
        copies.push(member.0.copy()?, member.1.copy()?)?;
    }
    Ok(copies)
}

// Copies of the values of both.
fn joined(alloc: Global, values: &[Value], added: &[Value]) -> Result<Items<Value>, AllocError>
    ensures { IfOk result (λ all. all ≡ values.now ++ added.now) }
{
    let count = values.len().saturating_add(added.len());
    let mut all = Items::with_capacity(alloc, count)?;
    add_copies(&mut all, values)?;
    add_copies(&mut all, added)?;
    Ok(all)
}
