// The operations that change a text in its place.
ghost use Rattle.std.specs.Prelude.{◌≡◌, ◌-◌, ◌<◌, ◌≤◌, true, length, drop, slice_index, slice_range, map, IfOk, string_bytes};
ghost use Rattle.std.specs.Option.{option_copied};
ghost use Rattle.event_tree.specs.Paths.{over};
ghost use Rattle.event_tree.specs.declared.value.Value.TheVariants as v;
ghost use Rattle.filter_settings.specs.declared.field_changes.Change.TheVariants as c;
ghost use Rattle.filter_settings.specs.Trying.{tried, all_tried};
ghost use Rattle.filters_mutate.specs.Operations as spec;
ghost use Rattle.filters_mutate.specs.Texts as texts;

use event_tree::{Event, Items, Path, Text, Value};
use filter_settings::{Change, change_at};
use std::alloc::{AllocError, Global};

/// A case of ASCII letters.
#[derive(Clone, Copy)]
pub enum Case {
    Upper,
    /// The first character in upper case, and the rest in lower case.
    Capital,
    Lower,
}

#[tactic(auto, using(filter_settings::proofs::Steps::trying))]
pub(crate) fn change_cases(
    alloc: Global,
    case: Case,
    fields: &[Path],
    event: &mut Event,
) -> Result<bool, AllocError>
    ensures { IfOk result (λ fine. tried fine event.new ≡ all_tried (spec.cased_at case) fields.now
        event.old) }
{
    for field in fields {
        if !change_case(alloc, case, field, event)? {
            return Ok(false);
        }
    }
    Ok(true)
}

fn change_case(
    alloc: Global,
    case: Case,
    field: &Path,
    event: &mut Event,
) -> Result<bool, AllocError>
    ensures { IfOk result (λ fine. tried fine event.new ≡ spec.cased_at case field.now event.old) }
{
    let change = cased(alloc, case, event.get(field))?;
    change_at(event, field, change)
}

fn cased(alloc: Global, case: Case, value: Option<&Value>) -> Result<Change, AllocError>
    ensures { IfOk result (λ change. change ≡ over (spec.cased case) c.Keep
        (option_copied value.entry)) }
{
    match value {
        Some(Value::Text(text)) => {
            let text = in_case(alloc, case, text.as_str())?;
            Ok(Change::Set(Value::Text(text)))
        }
        Some(Value::List(items)) => {
            let items = items_cased(alloc, case, items.as_slice())?;
            Ok(Change::Set(Value::List(items)))
        }
        _ => Ok(Change::Keep),
    }
}

#[tactic(auto, using(event_text::proofs::Going::going))]
fn items_cased(alloc: Global, case: Case, items: &[Value]) -> Result<Items<Value>, AllocError>
    ensures { IfOk result (λ all. all ≡ map (spec.item_cased case) items.now) }
{
    let mut all = Items::with_capacity(alloc, items.len())?;
    for item in items {
        all.push(item_cased(alloc, case, item)?)?;
    }
    Ok(all)
}

fn item_cased(alloc: Global, case: Case, item: &Value) -> Result<Value, AllocError>
    ensures { IfOk result (λ value. value ≡ spec.item_cased case item.now) }
{
    match item {
        Value::Text(text) => Ok(Value::Text(in_case(alloc, case, text.as_str())?)),
        _ => item.copy(),
    }
}

fn in_case(alloc: Global, case: Case, text: &str) -> Result<Text, AllocError>
    ensures { IfOk result (λ changed. changed ≡ texts.in_case case text.now) }
{
    let changed = match case {
        Case::Upper => text.to_ascii_uppercase(alloc)?,
        Case::Capital => capitalized(alloc, text)?,
        Case::Lower => text.to_ascii_lowercase(alloc)?,
    };
    Ok(Text::from_string(changed))
}

fn capitalized(alloc: Global, text: &str) -> Result<String, AllocError>
    ensures { IfOk result (λ changed. string_bytes changed ≡ texts.capitalized text.now) }
{
    let lowered = text.to_ascii_lowercase(alloc)?;
    let Some(first) = text.as_bytes().first() else {
        return Ok(lowered);
    };
    if !first.is_ascii_alphabetic() {
        return Ok(lowered);
    }
    let mut changed = String::with_capacity(alloc, text.len())?;
    changed.push(first.to_ascii_uppercase() as char)?;
    changed.push_str(&lowered[1..])?;
    Ok(changed)
}

#[tactic(auto, using(filter_settings::proofs::Steps::trying))]
pub(crate) fn strip_all(
    alloc: Global,
    fields: &[Path],
    event: &mut Event,
) -> Result<bool, AllocError>
    ensures { IfOk result (λ fine. tried fine event.new ≡ all_tried spec.stripped_at fields.now
        event.old) }
{
    for field in fields {
        if !strip_one(alloc, field, event)? {
            return Ok(false);
        }
    }
    Ok(true)
}

fn strip_one(alloc: Global, field: &Path, event: &mut Event) -> Result<bool, AllocError>
    ensures { IfOk result (λ fine. tried fine event.new ≡ spec.stripped_at field.now event.old) }
{
    let change = strip(alloc, event.get(field))?;
    change_at(event, field, change)
}

fn strip(alloc: Global, value: Option<&Value>) -> Result<Change, AllocError>
    ensures { IfOk result (λ change. change
        ≡ over (spec.text_to (λ s. v.Text (texts.stripped s))) c.Keep (option_copied value.entry)) }
{
    match value {
        Some(Value::Text(text)) => {
            let text = Text::of(alloc, stripped(text.as_str()))?;
            Ok(Change::Set(Value::Text(text)))
        }
        _ => Ok(Change::Keep),
    }
}

// The text without blanks, form feeds and vertical tabs at both ends.
fn stripped(text: &str) -> &str
    ensures { result.now ≡ texts.stripped text.now }
{
    let bytes = text.as_bytes();
    let start = front_end(bytes);
    let end = back_start(bytes, start);
    &text[start..end]
}

// How many of the bytes in front are cut off.
fn front_end(bytes: &[u8]) -> usize
    ensures within { result ≤ length bytes.now }
    ensures rest { drop result bytes.now ≡ texts.without_front bytes.now }
    ensures cut { 0 < result → texts.is_space (slice_index bytes.now (result - 1)) ≡ true }
{
    let mut start = 0;
    while start < bytes.len() && is_space(bytes[start]) {
        start += 1;
    }
    start
}

// Where the bytes at the end begin that are cut off, from `start` on.
fn back_start(bytes: &[u8], start: usize) -> usize
    requires { start ≤ length bytes.now }
    ensures after { start ≤ result }
    ensures within { result ≤ length bytes.now }
    ensures rest { slice_range bytes.now start result ≡ texts.without_end (drop start bytes.now) }
    ensures cut { result < length bytes.now → texts.is_space (slice_index bytes.now result) ≡ true }
{
    let mut end = bytes.len();
    while start < end && is_space(bytes[end - 1]) {
        end -= 1;
    }
    end
}

fn is_space(byte: u8) -> bool
    ensures { result ≡ texts.is_space byte }
{
    byte == b' ' || (b'\t' <= byte && byte <= b'\r')
}
