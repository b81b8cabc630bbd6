// The operations between a text and a list.
ghost use Rattle.std.specs.Prelude.{◌≡◌, ◌++◌, IfOk, OnOk, map, string_bytes};
ghost use Rattle.std.specs.Option.{option_copied};
ghost use Rattle.event_text.specs.Shown.{shown};
ghost use Rattle.event_tree.specs.Paths.{over};
ghost use Rattle.event_tree.specs.declared.value.Value.TheVariants as v;
ghost use Rattle.filter_settings.specs.declared.field_changes.Change.TheVariants as c;
ghost use Rattle.filter_settings.specs.Trying.{tried, all_tried};
ghost use Rattle.filters_mutate.specs.Operations as spec;
ghost use Rattle.filters_mutate.specs.Texts.{behind_separator, joined_by};

use event_text::value_text;
use event_tree::{Event, Items, Names, Path, Text, Value};
use filter_settings::{Change, change_at, split_text};
use std::alloc::{AllocError, Global};

/// From which to which.
#[derive(Clone, Copy)]
pub enum ListConversion {
    /// From a text to the list of its pieces.
    Split,
    /// From a list to the text of its items.
    Join,
}

#[tactic(auto, using(filter_settings::proofs::Steps::trying))]
pub(crate) fn list_all(
    alloc: Global,
    how: ListConversion,
    fields: &[(Path, Text)],
    event: &mut Event,
) -> Result<bool, AllocError>
    ensures { IfOk result (λ fine. tried fine event.new ≡ all_tried (spec.listed how) fields.now
        event.old) }
{
    for field in fields {
        if !list_one(alloc, how, field, event)? {
            return Ok(false);
        }
    }
    Ok(true)
}

fn list_one(
    alloc: Global,
    how: ListConversion,
    field: &(Path, Text),
    event: &mut Event,
) -> Result<bool, AllocError>
    ensures { IfOk result (λ fine. tried fine event.new ≡ spec.listed how field.now event.old) }
{
    let separator = field.1.as_str();
    let value = event.get(&field.0);
    let change = match how {
        ListConversion::Split => split(alloc, value, separator)?,
        ListConversion::Join => join(alloc, value, separator)?,
    };
    change_at(event, &field.0, change)
}

fn split(alloc: Global, value: Option<&Value>, separator: &str) -> Result<Change, AllocError>
    ensures { IfOk result (λ change. change ≡ over (spec.split_by separator.now) c.Keep
        (option_copied value.entry)) }
{
    match value {
        Some(Value::Text(text)) => {
            let pieces = split_text(alloc, text.as_str(), separator)?;
            Ok(Change::Set(Value::List(texts(pieces)?)))
        }
        _ => Ok(Change::Keep),
    }
}

// The texts as values.
fn texts(names: Names) -> Result<Items<Value>, AllocError>
    ensures { IfOk result (λ values. values ≡ map v.Text names) }
{
    let mut values = Items::with_capacity(names.allocator(), names.len())?;
    for text in names.into_vec() {
        values.push(Value::Text(text))?;
    }
    Ok(values)
}

fn join(alloc: Global, value: Option<&Value>, separator: &str) -> Result<Change, AllocError>
    ensures { IfOk result (λ change. change ≡ over (spec.join_by separator.now) c.Keep
        (option_copied value.entry)) }
{
    match value {
        Some(Value::List(items)) => {
            let text = joined(alloc, items.as_slice(), separator)?;
            Ok(Change::Set(Value::Text(text)))
        }
        _ => Ok(Change::Keep),
    }
}

// What the items are shown by, with the separator between them.
fn joined(alloc: Global, items: &[Value], separator: &str) -> Result<Text, AllocError>
    ensures { IfOk result (λ text. text ≡ joined_by separator.now (map shown items.now)) }
{
    let mut text = String::new(alloc);
    let mut later = false;
    for item in items {
        add_shown(&mut text, later, separator, item)?;
        later = true;
    }
    Ok(Text::from_string(text))
}

// What an item is shown by, with the separator in front of a later one.
fn add_shown(
    text: &mut String,
    later: bool,
    separator: &str,
    item: &Value,
) -> Result<(), AllocError>
    ensures { OnOk result (string_bytes text.new
        ≡ string_bytes text.old ++ behind_separator separator.now later (shown item.now)) }
{
    if later {
        text.push_str(separator)?;
    }
    let shown = value_text(*text.allocator(), item)?;
    text.push_str(shown.as_str())?;
    Ok(())
}
