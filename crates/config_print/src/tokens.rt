//! What one token is written as.

ghost use Rattle.std.specs.Prelude.{◌≡◌, ◌++◌, [], false, OnOk, codes, if◌then◌else◌};
ghost use Rattle.std.specs.List.{list_all};
ghost use Rattle.config_lex.specs.Bytes as bytes;
ghost use Rattle.event_json.specs.Json.{number_text};
ghost use Rattle.event_tree.specs.PathTexts.{bracketed};
ghost use Rattle.config_print.specs.Prints.{Prints};
ghost use Rattle.config_print.specs.Tokens as spec;
ghost use Rattle.config_lex.specs.Spelling as texts;
ghost use Rattle.config_lex.specs.declared.token.Token.TheVariants as t;
ghost use Rattle.config_lex.specs.declared.token.Word.TheVariants as w;
ghost use Rattle.config_lex.specs.Lexemes.{word_of};

use config_lex::{is_in_word, is_letter};
use config_tree::{Comparison, Conjunction, Disjunction, Matching};
use event_json::write_json;
use event_tree::{Number, Path, Value};
use plain_data::Text;
use std::alloc::AllocError;
use std::mem;

fn are_in_word(dashes: bool, text: &[u8]) -> bool
    ensures { result ≡ list_all (bytes.is_in_word dashes) text.now }
{
    for byte in text {
        if !is_in_word(dashes, *byte) {
            return false;
        }
    }
    true
}

/// Whether the text is a word, in which dashes may stand or not.
fn is_word(dashes: bool, text: &str) -> bool
    ensures { result ≡ spec.is_word dashes text.now }
{
    match text.as_bytes() {
        [] => false,
        [first, behind @ ..] => is_letter(*first) && are_in_word(dashes, behind),
    }
}

/// Whether a `"` stands in the text that no backslash precedes.
fn has_quote(text: &[u8]) -> bool
    ensures { result ≡ spec.has_quote false text.now }
{
    let mut escaped = false;
    for byte in text {
        if *byte == b'"' && !escaped {
            return true;
        }
        escaped = *byte == b'\\';
    }
    false
}

fn add_between(to: &mut String, quote: &str, text: &str) -> Result<(), AllocError>
    ensures { OnOk result (Prints to.old to.new (quote.now ++ (text.now ++ quote.now))) }
{
    to.push_str(quote)?;
    to.push_str(text)?;
    to.push_str(quote)
}

pub(crate) fn add_string(to: &mut String, text: &str) -> Result<(), AllocError>
    ensures { OnOk result (Prints to.old to.new (spec.string text.now)) }
{
    if has_quote(text.as_bytes()) {
        add_between(to, "'", text)
    } else {
        add_between(to, "\"", text)
    }
}

/// The name of a setting.
pub(crate) fn add_setting_name(to: &mut String, name: &str) -> Result<(), AllocError>
    ensures { OnOk result (Prints to.old to.new (spec.written (spec.name_token name.now))) }
{
    if is_word(true, name) {
        to.push_str(name)
    } else {
        add_string(to, name)
    }
}

/// The name of a plugin that is a value.
pub(crate) fn add_nested_name(to: &mut String, name: &str) -> Result<(), AllocError>
    ensures { OnOk result (Prints to.old to.new (spec.written (t.Word (word_of name.now)))) }
{
    if is_word(false, name) {
        to.push_str(name)
    } else {
        add_string(to, name)
    }
}

/// Whether the text is a word that a branch begins with.
fn is_branch_word(name: &str) -> bool
    ensures { result ≡ spec.is_branch_word name.now }
{
    name == "if" || name == "else"
}

/// The name of a plugin that is a statement.
pub(crate) fn add_plugin_name(to: &mut String, name: &str) -> Result<(), AllocError>
    ensures { OnOk result (Prints to.old to.new (spec.written (spec.plugin_token name.now))) }
{
    if is_branch_word(name) {
        add_string(to, name)
    } else {
        add_setting_name(to, name)
    }
}

#[tactic(auto, using(event_json::proofs::Jsons::jsons))]
pub(crate) fn add_number(to: &mut String, number: &Number) -> Result<(), AllocError>
    ensures { OnOk result (Prints to.old to.new (number_text number.now)) }
{
    let value = Value::Num(*number);
    let empty = String::new(*to.allocator());
    let mut bytes = mem::replace(to, empty).into_bytes();
    write_json(&value, &mut bytes)?;
    // SAFETY: proved; what stood there is UTF-8, and `write_json` keeps that.
    *to = unsafe { String::from_utf8_unchecked(bytes) };
    Ok(())
}

/// The text with a backslash before each `/`.
fn add_escaped(to: &mut String, text: &str) -> Result<(), AllocError>
    ensures { OnOk result (Prints to.old to.new (spec.escaped text.now)) }
{
    let bytes = text.as_bytes();
    let mut from = 0;
    for at in 0..bytes.len() {
        if bytes[at] == b'/' {
            to.push_str(&text[from..at])?;
            to.push_str("\\")?;
            from = at;
        }
    }
    to.push_str(&text[from..])
}

pub(crate) fn add_regexp(to: &mut String, text: &str) -> Result<(), AllocError>
    ensures { OnOk result (Prints to.old to.new (spec.regexp text.now)) }
{
    to.push_str("/")?;
    add_escaped(to, text)?;
    to.push_str("/")
}

fn add_parts(to: &mut String, parts: &[Text]) -> Result<(), AllocError>
    ensures { OnOk result (Prints to.old to.new (bracketed parts.now)) }
{
    for part in parts {
        to.push_str("[")?;
        to.push_str(part.as_str())?;
        to.push_str("]")?;
    }
    Ok(())
}

fn add_selector_front(to: &mut String, meta: bool) -> Result<(), AllocError>
    ensures { OnOk result (Prints to.old to.new (if meta then codes "[@metadata]" else [])) }
{
    if meta {
        to.push_str("[@metadata]")
    } else {
        Ok(())
    }
}

pub(crate) fn add_selector(to: &mut String, path: &Path) -> Result<(), AllocError>
    ensures { OnOk result (Prints to.old to.new (bracketed (spec.parts_of path.now))) }
{
    add_selector_front(to, path.is_meta())?;
    add_parts(to, path.parts())
}

pub(crate) fn conjunction_text(joint: Conjunction) -> &'static str
    ensures { result.now ≡ texts.conjunction_text joint }
{
    match joint {
        Conjunction::And => "and",
        Conjunction::Nand => "nand",
    }
}

pub(crate) fn disjunction_text(joint: Disjunction) -> &'static str
    ensures { result.now ≡ texts.disjunction_text joint }
{
    match joint {
        Disjunction::Or => "or",
        Disjunction::Xor => "xor",
    }
}

pub(crate) fn comparison_text(comparison: Comparison) -> &'static str
    ensures { result.now ≡ texts.comparison_text comparison }
{
    match comparison {
        Comparison::Equal => "==",
        Comparison::Unequal => "!=",
        Comparison::Less => "<",
        Comparison::Greater => ">",
        Comparison::AtMost => "<=",
        Comparison::AtLeast => ">=",
    }
}

pub(crate) fn matching_text(matching: Matching) -> &'static str
    ensures { result.now ≡ texts.matching_text matching }
{
    match matching {
        Matching::Matches => "=~",
        Matching::MatchesNot => "!~",
    }
}
