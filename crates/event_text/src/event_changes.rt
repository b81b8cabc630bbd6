// Changes that filters make to an event: putting a value, and adding and removing tags.
ghost use Rattle.std.specs.Prelude.{◌≡◌, ◌∷◌, ◌++◌, [], IfOk, OnOk};
ghost use Rattle.std.specs.Option.{option_copied};
ghost use Rattle.event_tree.specs.declared.value.Value.TheVariants as v;
ghost use Rattle.event_text.specs.Options as spec;

use event_tree::{Event, Path, PutFault, Value};
use plain_data::{Items, Text};
use std::alloc::{AllocError, Global};
use std::slice;

/// Puts a value at a path. Where that is refused the event stays as it was.
pub fn try_put(event: &mut Event, path: &Path, value: Value) -> Result<(), AllocError>
    ensures { OnOk result (event.new ≡ spec.set_at path.now value event.old) }
{
    match event.put(path, value) {
        Ok(()) => Ok(()),
        Err(PutFault::Memory) => Err(AllocError),
        Err(PutFault::ThroughScalar) => Ok(()),
        Err(PutFault::Deep) => Ok(()),
        Err(PutFault::Large) => Ok(()),
    }
}

/// Adds a tag to `tags`, where it does not stand there already and the event can hold it. `tags` that
/// is no list becomes a list of the old value and the tag; a text stands for a list of itself.
pub fn add_tag(event: &mut Event, tag: Text) -> Result<(), AllocError>
    ensures { OnOk result (event.new ≡ spec.tagged tag event.old) }
{
    let path = tags_path(tag.allocator())?;
    let tags = values_of(event.get(&path));
    if has_text(tags, tag.as_str()) {
        return Ok(());
    }
    let more = with_text(tags, tag)?;
    try_put(event, &path, Value::List(more))
}

/// Removes a tag from `tags`, where that is a list.
pub fn remove_tag(event: &mut Event, tag: &Text) -> Result<(), AllocError>
    ensures { OnOk result (event.new ≡ spec.untagged tag.now event.old) }
{
    let path = tags_path(tag.allocator())?;
    let Some(Value::List(tags)) = event.get(&path) else {
        return Ok(());
    };
    if !has_text(tags.as_slice(), tag.as_str()) {
        return Ok(());
    }
    let others = without_text(tags, tag.as_str())?;
    try_put(event, &path, Value::List(others))
}

fn tags_path(alloc: Global) -> Result<Path, AllocError>
    ensures { IfOk result (λ path. path ≡ spec.tags) }
{
    let mut parts = Items::new(alloc);
    parts.push(Text::of(alloc, "tags")?)?;
    Ok(Path::of_parts(parts))
}

/// What a field becomes that gets one more value: the text, or a list of the old values and it.
pub(crate) fn text_and(text: Text, old: Option<&Value>) -> Result<Value, AllocError>
    ensures { IfOk result (λ value. value ≡ spec.value_and (v.Text text)
        (option_copied old.entry)) }
{
    match old {
        None => Ok(Value::Text(text)),
        Some(old) => Ok(Value::List(with_text(values(old), text)?)),
    }
}

// Copies of the values, and a text behind them.
fn with_text(values: &[Value], text: Text) -> Result<Items<Value>, AllocError>
    ensures { IfOk result (λ more. more ≡ values.now ++ v.Text text ∷ []) }
{
    let mut more = Items::with_capacity(text.allocator(), values.len().saturating_add(1))?;
    for value in values {
        more.push(value.copy()?)?;
    }
    more.push(Value::Text(text))?;
    Ok(more)
}

fn values_of(value: Option<&Value>) -> &[Value]
    ensures { result.now ≡ spec.values_of (option_copied value.entry) }
{
    match value {
        Some(value) => values(value),
        None => &[],
    }
}

/// The values that a value stands for: the items of a list, or it alone.
pub fn values(value: &Value) -> &[Value]
    ensures { result.now ≡ spec.values value.now }
{
    match value {
        Value::List(items) => items.as_slice(),
        Value::Null
        | Value::Bool(_)
        | Value::Num(_)
        | Value::Text(_)
        | Value::Time(_)
        | Value::Object(_) => slice::from_ref(value),
    }
}

#[tactic(auto, using(crate::proofs::Going::going))]
fn has_text(values: &[Value], text: &str) -> bool
    ensures { result ≡ spec.has_text text.now values.now }
{
    for value in values {
        if is_text(value, text) {
            return true;
        }
    }
    false
}

// Copies of the values that are not this text.
#[tactic(auto, using(crate::proofs::Going::going))]
fn without_text(values: &Items<Value>, text: &str) -> Result<Items<Value>, AllocError>
    ensures { IfOk result (λ others. others ≡ spec.others text.now values.now) }
{
    let mut others = Items::new(values.allocator());
    for value in values.as_slice() {
        if !is_text(value, text) {
            others.push(value.copy()?)?;
        }
    }
    Ok(others)
}

fn is_text(value: &Value, text: &str) -> bool
    ensures { result ≡ spec.is_text text.now value.now }
{
    match value {
        Value::Text(found) => found.as_str() == text,
        Value::Null
        | Value::Bool(_)
        | Value::Num(_)
        | Value::Time(_)
        | Value::List(_)
        | Value::Object(_) => false,
    }
}
