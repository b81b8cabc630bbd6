// Tests of texts, items and fields.
ghost use Rattle.std.specs.Prelude.{◌≤◌, length};

use plain_data::{Fields, Items, Text};
use std::alloc::{AllocError, Global};

fn fields_of(alloc: Global, members: &[(&str, u32)]) -> Result<Fields<u32>, AllocError> {
    let mut fields = Fields::new(alloc);
    for (key, value) in members {
        let _ = fields.insert(Text::of(alloc, key)?, *value)?;
    }
    Ok(fields)
}

fn has_members(fields: &Fields<u32>, members: &[(&str, u32)]) -> bool {
    for (left, right) in fields.members().iter().zip(members) {
        if left.0.as_str() != right.0 || left.1 != right.1 {
            return false;
        }
    }
    fields.len() == members.len()
}

// Texts, each with the next one by their bytes in UTF-8.
const SORTED: [(&str, &str); 9] = [
    ("", "B"),
    ("B", "a"),
    ("a", "a\0"),
    ("a\0", "ab"),
    ("ab", "b"),
    ("b", "z"),
    ("z", "é"),
    ("é", "日"),
    ("日", "𝄞"),
];

// Whether a text is below another, which is not equal to it and is to its clone.
fn is_below(alloc: Global, text: &str, other: &str) -> Result<bool, AllocError> {
    let text = Text::of(alloc, text)?;
    let other = Text::of(alloc, other)?;
    Ok(text < other && text != other && other.clone()? == other)
}

pub(crate) fn are_sorted(alloc: Global) -> Result<bool, AllocError> {
    for (text, other) in &SORTED {
        if !is_below(alloc, text, other)? {
            return Ok(false);
        }
    }
    Ok(true)
}

fn shown(alloc: Global, text: &Text) -> Result<String, AllocError> {
    format!(in alloc; "{text}|{text:?}|{text:>4}")
}

pub(crate) fn is_written(alloc: Global) -> Result<bool, AllocError> {
    let text = Text::from_string(String::from_str(alloc, "é\"")?).copy()?;
    let is_shown = shown(alloc, &text)?.as_str() == "é\"|\"é\\\"\"|  é\"";
    Ok(is_shown && text.len() == 3 && !text.is_empty() && text.into_string().as_str() == "é\"")
}

fn numbers(alloc: Global, numbers: &[i32]) -> Result<Items<i32>, AllocError> {
    Ok(Items::from_vec(Vec::from_slice(alloc, numbers)?))
}

fn grow(items: &mut Items<i32>) -> Result<(), AllocError>
    requires { 1 ≤ length items.old }
{
    items.insert(1, 9)?;
    items.push(4)
}

fn change(items: &mut Items<i32>) {
    if items.len() != 5 {
        return;
    }
    items.set(0, 7);
    if let Some(last) = items.get_mut(4) {
        *last = 8;
    }
    items.as_mut_slice().swap(0, 1);
}

fn are_changed(items: &Items<i32>) -> bool {
    items.as_slice() == [9, 7, 2, 3, 8].as_slice()
        && items.get(1) == Some(&7)
        && items.last() == Some(&8)
}

pub(crate) fn are_changed_in_place(alloc: Global) -> Result<bool, AllocError> {
    let mut items = numbers(alloc, &[1, 2, 3])?;
    if items.len() != 3 {
        return Ok(false);
    }
    grow(&mut items)?;
    change(&mut items);
    Ok(are_changed(&items))
}

// One number is removed, and one is popped.
fn take_two(items: &mut Items<i32>) -> bool {
    items.len() == 4 && items.remove(1) == 2 && items.pop() == Some(4)
}

// What is taken away from a list is not from its copy.
pub(crate) fn are_taken(alloc: Global) -> Result<bool, AllocError> {
    let mut items = Items::with_capacity(alloc, 2)?;
    items.append(numbers(alloc, &[1, 2, 3, 4])?)?;
    let copy = items.clone()?;
    let taken = take_two(&mut items);
    items.truncate(1);
    Ok(taken && are(&copy, &[1, 2, 3, 4]) && items.into_vec().as_slice() == [1].as_slice())
}

fn are(items: &Items<i32>, wanted: &[i32]) -> bool {
    items.as_slice() == wanted
}

pub(crate) fn are_ordered(alloc: Global) -> Result<bool, AllocError> {
    let mut fields = fields_of(alloc, &[("b", 1), ("é", 2), ("a", 3), ("b", 4)])?;
    Ok(has_members(&fields, &[("a", 3), ("b", 4), ("é", 2)]) && has_one_more(alloc, &mut fields)?)
}

// Pushes a member whose key is above those, and is not `é`.
fn has_one_more(alloc: Global, fields: &mut Fields<u32>) -> Result<bool, AllocError> {
    if fields.is_below("é") || !fields.is_below("日") {
        return Ok(false);
    }
    fields.push(Text::of(alloc, "日")?, 5)?;
    Ok(has_members(fields, &[("a", 3), ("b", 4), ("é", 2), ("日", 5)]))
}

fn is_read_and_written(fields: &mut Fields<u32>) -> bool {
    if let Some(value) = fields.get_mut("a") {
        *value = 3;
    }
    fields.get("a") == Some(&3) && fields.get("aa").is_none()
}

pub(crate) fn are_found_by_keys(alloc: Global) -> Result<bool, AllocError> {
    let mut fields = fields_of(alloc, &[("b", 1), ("a", 2)])?;
    Ok(is_read_and_written(&mut fields) && is_removed(&mut fields))
}

fn is_removed(fields: &mut Fields<u32>) -> bool {
    fields.remove("b") == Some(1) && !fields.contains_key("b")
}

pub(crate) fn are_copied(alloc: Global) -> Result<bool, AllocError> {
    let mut fields = fields_of(alloc, &[("b", 1), ("a", 2)])?;
    let copy = Fields::from_vec(fields.clone()?.into_vec());
    let is_same = copy == fields;
    fields.clear();
    Ok(is_same && fields.is_empty() && has_members(&copy, &[("a", 2), ("b", 1)]))
}
