// Converting values to integers, floats, texts and booleans.
ghost use Rattle.std.specs.Prelude.{◌≡◌, Some, IfOk};
ghost use Rattle.event_tree.specs.declared.value.Value.{out-Value};
ghost use Rattle.event_text.specs.Options.{each_in};
ghost use Rattle.filter_settings.specs.Convert as spec;

use crate::field_changes::Change;
use event_text::{number_of, value_text};
use event_tree::{Items, Number, Text, Value};
use std::alloc::{AllocError, Global};

/// A kind to which values are converted.
#[derive(Clone, Copy)]
pub enum Conversion {
    /// A number without its fraction. Numbers, texts that write one, and truth values can become it.
    Integer,
    /// A number, of the same values.
    Float,
    /// The text that a value is shown by.
    Text,
    /// A truth value. The texts and numbers that stand for one become it, and other values stay.
    Boolean,
}

/// What a value becomes of this kind; of a list, what each of its items becomes, and a failure where one
/// fails. A text writes a number as JSON does, once its commas are removed.
pub fn convert(alloc: Global, to: Conversion, value: &Value) -> Result<Change, AllocError>
    ensures { IfOk result (λ change. change ≡ spec.converted to value.now) }
{
    match value {
        Value::List(items) => convert_list(alloc, to, items.as_slice()),
        Value::Null
        | Value::Bool(_)
        | Value::Num(_)
        | Value::Text(_)
        | Value::Time(_)
        | Value::Object(_) => convert_one(alloc, to, value),
    }
}

fn convert_list(alloc: Global, to: Conversion, items: &[Value]) -> Result<Change, AllocError>
    ensures { IfOk result (λ change. change ≡ spec.set_list
        (each_in (spec.item_converted to) items.now)) }
{
    match convert_items(alloc, to, items)? {
        Some(items) => Ok(Change::Set(Value::List(items))),
        None => Ok(Change::Fail),
    }
}

#[tactic(auto, using(crate::proofs::Steps::each))]
fn convert_items(
    alloc: Global,
    to: Conversion,
    items: &[Value],
) -> Result<Option<Items<Value>>, AllocError>
    ensures { IfOk result (λ found. found ≡ each_in (spec.item_converted to) items.now) }
{
    let mut found = Items::with_capacity(alloc, items.len())?;
    for item in items {
        let Some(item) = convert_item(alloc, to, item)? else {
            return Ok(None);
        };
        found.push(item)?;
    }
    Ok(Some(found))
}

fn convert_item(alloc: Global, to: Conversion, item: &Value) -> Result<Option<Value>, AllocError>
    ensures { IfOk result (λ found. found ≡ spec.item_converted to item.now) }
{
    match convert_one(alloc, to, item)? {
        Change::Keep => Ok(Some(item.copy()?)),
        Change::Set(value) => Ok(Some(value)),
        Change::Fail => Ok(None),
    }
}

fn convert_one(alloc: Global, to: Conversion, value: &Value) -> Result<Change, AllocError>
    ensures { IfOk result (λ change. change ≡ spec.one_converted to value.now) }
{
    match to {
        Conversion::Integer => to_integer(alloc, value),
        Conversion::Float => to_float(alloc, value),
        Conversion::Text => Ok(Change::Set(Value::Text(value_text(alloc, value)?))),
        Conversion::Boolean => Ok(to_flag(value)),
    }
}

fn to_integer(alloc: Global, value: &Value) -> Result<Change, AllocError>
    ensures { IfOk result (λ change. change ≡ spec.to_integer (out-Value value.now)) }
{
    match value {
        Value::Num(number) => Ok(set_number(whole(*number))),
        Value::Text(text) => match number_in(alloc, text.as_str())? {
            Some(number) => Ok(set_number(whole(number))),
            None => Ok(Change::Fail),
        },
        Value::Bool(truth) => Ok(set_number(flag_number(*truth))),
        Value::Null | Value::Time(_) | Value::List(_) | Value::Object(_) => Ok(Change::Fail),
    }
}

fn to_float(alloc: Global, value: &Value) -> Result<Change, AllocError>
    ensures { IfOk result (λ change. change ≡ spec.to_float (out-Value value.now)) }
{
    match value {
        Value::Num(_) => Ok(Change::Keep),
        Value::Text(text) => Ok(set_number(number_in(alloc, text.as_str())?)),
        Value::Bool(truth) => Ok(set_number(flag_number(*truth))),
        Value::Null | Value::Time(_) | Value::List(_) | Value::Object(_) => Ok(Change::Fail),
    }
}

fn to_flag(value: &Value) -> Change
    ensures { result ≡ spec.to_flag (out-Value value.now) }
{
    match value {
        Value::Num(number) => set_flag(is_whole(*number, 1), is_whole(*number, 0)),
        Value::Text(text) => set_flag(is_true(text.as_str()), is_false(text.as_str())),
        Value::Null | Value::Bool(_) | Value::Time(_) | Value::List(_) | Value::Object(_) => {
            Change::Keep
        }
    }
}

fn set_number(number: Option<Number>) -> Change
    ensures { result ≡ spec.set_number number }
{
    match number {
        Some(number) => Change::Set(Value::Num(number)),
        None => Change::Fail,
    }
}

fn set_flag(holds: bool, fails: bool) -> Change
    ensures { result ≡ spec.set_flag holds fails }
{
    if holds {
        Change::Set(Value::Bool(true))
    } else if fails {
        Change::Set(Value::Bool(false))
    } else {
        Change::Keep
    }
}

fn is_true(text: &str) -> bool
    ensures { result ≡ spec.is_true text.now }
{
    match text {
        "true" | "t" | "yes" | "y" | "1" | "1.0" => true,
        _ => false,
    }
}

fn is_false(text: &str) -> bool
    ensures { result ≡ spec.is_false text.now }
{
    match text {
        "false" | "f" | "no" | "n" | "0" | "0.0" | "" => true,
        _ => false,
    }
}

fn is_whole(number: Number, digits: i64) -> bool
    ensures { result ≡ spec.is_whole digits number }
{
    number.scale() == 0 && number.mantissa() == digits
}

// 1 and 0, which are numbers.
fn flag_number(truth: bool) -> Option<Number>
    ensures { result ≡ Some (spec.flag_number truth) }
{
    Number::new(if truth { 1 } else { 0 }, 0)
}

// A number without its fraction, which is a number.
fn whole(number: Number) -> Option<Number>
    ensures { result ≡ Some (spec.whole number) }
{
    let mut digits = number.mantissa();
    let mut places = number.scale();
    while places > 0 {
        digits /= 10;
        places -= 1;
    }
    Number::new(digits, 0)
}

fn number_in(alloc: Global, text: &str) -> Result<Option<Number>, AllocError>
    ensures { IfOk result (λ number. number ≡ spec.number_in text.now) }
{
    let text = without_commas(alloc, text)?;
    Ok(number_of(text.as_str()))
}

fn without_commas(alloc: Global, text: &str) -> Result<Text, AllocError>
    ensures { IfOk result (λ left. left ≡ spec.without_commas text.now) }
{
    let mut left = String::new(alloc);
    let mut rest = text;
    while let Some((before, behind)) = rest.split_once(",") {
        left.push_str(before)?;
        rest = behind;
    }
    left.push_str(rest)?;
    Ok(Text::from_string(left))
}
