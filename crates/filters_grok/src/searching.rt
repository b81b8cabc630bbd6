// What patterns find in the value of a field, and how it is put into the event.
ghost use Rattle.std.specs.Prelude.{◌≡◌, ◌<◌, ◌∷◌, ◌++◌, [], length, slice_get, Some, IfOk, OnOk};
ghost use Rattle.std.specs.Option.{option_copied};
ghost use Rattle.filter_settings.specs.Trying.{tried, all_tried};
ghost use Rattle.filters_grok.specs.Searching as spec;
ghost use Rattle.grok_patterns.specs.declared.expansion.Expanded.{Expanded as Said};

use crate::grok_pattern::{GrokPattern, Put};
use event_text::values;
use event_tree::{Event, Items, Value};
use filter_settings::{add_copies, put_at};
use grok_patterns::Capture;
use std::alloc::{AllocError, Global};

/// How fields are searched.
#[derive(Clone, Copy)]
pub struct SearchOptions {
    /// The first match ends it.
    pub ends: bool,
    /// Captures of the empty text are kept.
    pub keep_empty: bool,
}

/// What was found in a field.
#[derive(Drop)]
pub struct Finds {
    /// Whether a pattern matched.
    pub matched: bool,
    /// What its captures found.
    pub puts: Items<Put>,
}

impl Finds {
    pub(crate) fn none(alloc: Global) -> Finds
        ensures { result ≡ spec.none }
    {
        Finds {
            matched: false,
            puts: Items::new(alloc),
        }
    }

    fn add(&mut self, puts: Items<Put>) -> Result<(), AllocError>
        ensures { OnOk result (self.new ≡ spec.with_puts self.old puts) }
    {
        self.matched = true;
        self.puts.append(puts)
    }
}

/// What the patterns find in the value of a field: in a text, or in each item of a list that is one.
pub(crate) fn search_value(
    alloc: Global,
    patterns: &mut Items<GrokPattern>,
    how: SearchOptions,
    value: &Value,
) -> Result<Finds, AllocError>
    ensures found { IfOk result (λ finds. finds ≡ spec.value_finds how patterns.old value.now) }
    ensures same { patterns.new ≡ patterns.old }
{
    let mut finds = Finds::none(alloc);
    search_values(alloc, patterns, how, values(value), &mut finds)?;
    Ok(finds)
}

#[tactic(auto, using(crate::proofs::Finding::finding))]
fn search_values(
    alloc: Global,
    patterns: &mut Items<GrokPattern>,
    how: SearchOptions,
    values: &[Value],
    finds: &mut Finds,
) -> Result<(), AllocError>
    ensures found { OnOk result (finds.new ≡ spec.both how finds.old
        (spec.values_finds how patterns.old values.now)) }
    ensures same { patterns.new ≡ patterns.old }
{
    for value in values {
        search_item(alloc, patterns, how, value, finds)?;
    }
    Ok(())
}

#[tactic(auto, using(crate::proofs::Finding::finding))]
fn search_item(
    alloc: Global,
    patterns: &mut Items<GrokPattern>,
    how: SearchOptions,
    value: &Value,
    finds: &mut Finds,
) -> Result<(), AllocError>
    ensures found { OnOk result (finds.new ≡ spec.both how finds.old
        (spec.item_finds how patterns.old value.now)) }
    ensures same { patterns.new ≡ patterns.old }
{
    if how.ends && finds.matched {
        return Ok(());
    }
    match value {
        Value::Text(text) => search_text(alloc, patterns, how, text.as_str(), finds),
        Value::Null
        | Value::Bool(_)
        | Value::Num(_)
        | Value::Time(_)
        | Value::List(_)
        | Value::Object(_) => Ok(()),
    }
}

fn search_text(
    alloc: Global,
    patterns: &mut Items<GrokPattern>,
    how: SearchOptions,
    text: &str,
    finds: &mut Finds,
) -> Result<(), AllocError>
    ensures found { OnOk result (finds.new ≡ spec.both how finds.old
        (spec.text_finds how 0 patterns.old text.now)) }
    ensures same { patterns.new ≡ patterns.old }
{
    for number in 0..patterns.len() {
        search_by(alloc, patterns, number, how, text, finds)?;
    }
    Ok(())
}

#[tactic(auto, using(crate::proofs::Finding::finding))]
fn search_by(
    alloc: Global,
    patterns: &mut Items<GrokPattern>,
    number: usize,
    how: SearchOptions,
    text: &str,
    finds: &mut Finds,
) -> Result<(), AllocError>
    requires { number < length patterns.old }
    ensures found { OnOk result ((p : Said) → slice_get patterns.old number ≡ Some p
        → finds.new ≡ spec.both how finds.old (spec.pattern_finds how number p text.now)) }
    ensures same { patterns.new ≡ patterns.old }
{
    if how.ends && finds.matched {
        return Ok(());
    }
    match patterns.get_mut(number) {
        Some(pattern) => find(alloc, pattern, number, how, text, finds),
        None => Ok(()),
    }
}

fn find(
    alloc: Global,
    pattern: &mut GrokPattern,
    number: usize,
    how: SearchOptions,
    text: &str,
    finds: &mut Finds,
) -> Result<(), AllocError>
    ensures found { OnOk result (finds.new ≡ spec.and_finds finds.old
        (spec.pattern_finds how number pattern.old text.now)) }
    ensures same { pattern.new ≡ pattern.old }
{
    match pattern.puts(alloc, how.keep_empty, number, text)? {
        Some(puts) => finds.add(puts),
        None => Ok(()),
    }
}

/// Puts what was found into the event, in its order. `false` where that is refused, and then what was
/// put before stays.
pub(crate) fn put_all(
    alloc: Global,
    patterns: &[GrokPattern],
    puts: Items<Put>,
    event: &mut Event,
) -> Result<bool, AllocError>
    ensures { IfOk result (λ fine. tried fine event.new ≡ all_tried (spec.put_in patterns.now) puts
        event.old) }
{
    for put in puts.into_vec() {
        if !put_in(alloc, patterns, put, event)? {
            return Ok(false);
        }
    }
    Ok(true)
}

fn put_in(
    alloc: Global,
    patterns: &[GrokPattern],
    put: Put,
    event: &mut Event,
) -> Result<bool, AllocError>
    ensures { IfOk result (λ fine. tried fine event.new ≡ spec.put_in patterns.now put event.old) }
{
    let Put {
        pattern,
        capture,
        value,
        joins,
    } = put;
    match patterns.get(pattern) {
        Some(pattern) => match pattern.captures().get(capture) {
            Some(capture) => put_capture(alloc, capture, value, joins, event),
            None => Ok(true),
        },
        None => Ok(true),
    }
}

fn put_capture(
    alloc: Global,
    capture: &Capture,
    value: Value,
    joins: bool,
    event: &mut Event,
) -> Result<bool, AllocError>
    ensures { IfOk result (λ fine. tried fine event.new ≡ spec.put_capture joins value capture.now
        event.old) }
{
    let value = if joins {
        value_and(alloc, value, event.get(&capture.path))?
    } else {
        value
    };
    put_at(event, &capture.path, value)
}

// The value, or a list of the old values and it where there are some.
fn value_and(alloc: Global, value: Value, old: Option<&Value>) -> Result<Value, AllocError>
    ensures { IfOk result (λ joined. joined ≡ spec.value_and value (option_copied old.entry)) }
{
    match old {
        None => Ok(value),
        Some(old) => Ok(Value::List(with_value(alloc, values(old), value)?)),
    }
}

// Copies of the values, and one behind them.
fn with_value(alloc: Global, old: &[Value], value: Value) -> Result<Items<Value>, AllocError>
    ensures { IfOk result (λ more. more ≡ old.now ++ value ∷ []) }
{
    let mut more = Items::new(alloc);
    add_copies(&mut more, old)?;
    more.push(value)?;
    Ok(more)
}
