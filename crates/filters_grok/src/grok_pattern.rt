// What grok patterns find in texts.
ghost use Rattle.std.specs.Prelude.{◌≡◌, ◌<◌, [], length, option_map, true, IfOk, IfErr, IfSome};
ghost use Rattle.pattern_box.specs.Patterns.{IsRefusal, is_pattern};
ghost use Rattle.pattern_box.specs.Spans.{AreSpansIn};
ghost use Rattle.regex.specs.Search.{LiesWithin};
ghost use Rattle.regex.specs.Utf8.{CutsCleanly};
ghost use Rattle.filters_grok.specs.Matches as spec;

use event_text::number_of;
use event_tree::{Items, Number, Text, Value};
use filter_settings::is_same;
use grok_patterns::{Capture, Coercion, Expanded};
use pattern_box::{Pattern, PatternFault, Spans};
use std::alloc::{AllocError, Global};
use std::marker::Model;

/// What a capture found.
#[derive(Drop)]
pub struct Put {
    /// Which pattern of the field it is a capture of, and which of its captures.
    pub pattern: usize,
    pub capture: usize,
    pub value: Value,
    /// Whether it stands behind what is at its field, and not in the place of it.
    pub joins: bool,
}

/// A grok pattern, compiled once. Contracts see what it was expanded to.
pub struct GrokPattern {
    says: Expanded,
    pattern: Pattern,
}

// Written out, so that it is one call wherever an error is handed on while it is held.
impl Drop for GrokPattern {
    fn drop(self) {
        let GrokPattern {
            says: _says,
            pattern: _pattern,
        } = self;
    }
}

impl Model for GrokPattern {
    ghost use Rattle.pattern_box.specs.Patterns.{IsReadFrom};
    ghost use Rattle.grok_patterns.specs.declared.expansion.Expanded.{Expanded};

    ghost Value = { Expanded };

    ghost view = { λ pattern. pattern.says };

    ghost invariant = { λ pattern. IsReadFrom pattern.says.text pattern.pattern };
}

impl GrokPattern {
    /// The pattern that an expression is. A refusal is that of `Pattern::new`.
    pub fn new(alloc: Global, says: Expanded) -> Result<GrokPattern, PatternFault>
        ensures made { IfOk result (λ pattern. pattern ≡ says) }
        ensures pattern { IfOk result (λ pattern. is_pattern says.text ≡ true) }
        ensures refused { IfErr result (IsRefusal says.text) }
    {
        let pattern = Pattern::new(alloc, says.text.as_str())?;
        Ok(GrokPattern { says, pattern })
    }

    /// The captures, in their order.
    pub fn captures(&self) -> &[Capture]
        ensures { result.now ≡ self.now.captures }
    {
        self.says.captures.as_slice()
    }

    /// What the captures found at the first match in a text, or `None` where nothing matches. A group that
    /// took no part is none of it, nor is one that found the empty text, unless those are kept. A text
    /// that doesn't match takes no memory.
    pub fn puts(
        &mut self,
        alloc: Global,
        keep_empty: bool,
        number: usize,
        text: &str,
    ) -> Result<Option<Items<Put>>, AllocError>
        ensures found { IfOk result (λ puts. puts ≡ spec.puts_in keep_empty number self.old
            text.now) }
        ensures same { self.new ≡ self.old }
    {
        match self.spans(text)? {
            Some(spans) => Ok(Some(captured(
                alloc,
                keep_empty,
                number,
                text,
                spans.as_slice(),
                self.says.captures.as_slice(),
            )?)),
            None => Ok(None),
        }
    }

    // The spans of the first match, which are those that the text of the pattern finds.
    fn spans(&mut self, text: &str) -> Result<Option<Spans>, AllocError>
        ensures found { IfOk result (λ found. found ≡ spec.spans_in self.old.text text.now) }
        ensures inside { IfOk result (λ found. IfSome found (AreSpansIn text.now)) }
        ensures same { self.new ≡ self.old }
    {
        self.pattern.spans(text)
    }
}

fn captured(
    alloc: Global,
    keep_empty: bool,
    number: usize,
    text: &str,
    spans: &[Option<(usize, usize)>],
    captures: &[Capture],
) -> Result<Items<Put>, AllocError>
    requires { AreSpansIn text.now spans.now }
    ensures { IfOk result (λ puts. puts ≡ spec.captured keep_empty number text.now spans.now []
        captures.now) }
{
    let mut puts = Items::with_capacity(alloc, captures.len())?;
    for index in 0..captures.len() {
        let capture = &captures[index];
        if let Some(found) = kept_at(keep_empty, text, spans, capture) {
            let front = captures.split_at(index).0;
            let joins = !capture.overwrites || stands(keep_empty, text, spans, front, capture);
            puts.push(Put {
                pattern: number,
                capture: index,
                value: coerced(alloc, capture.coercion, found)?,
                joins,
            })?;
        }
    }
    Ok(puts)
}

// Whether one of the captures in front found something for the same field.
#[tactic(auto, using(event_text::proofs::Going::going))]
fn stands(
    keep_empty: bool,
    text: &str,
    spans: &[Option<(usize, usize)>],
    front: &[Capture],
    capture: &Capture,
) -> bool
    requires { AreSpansIn text.now spans.now }
    ensures { result ≡ spec.stands keep_empty text.now spans.now front.now capture.now }
{
    for other in front {
        if is_before(keep_empty, text, spans, capture, other) {
            return true;
        }
    }
    false
}

fn is_before(
    keep_empty: bool,
    text: &str,
    spans: &[Option<(usize, usize)>],
    capture: &Capture,
    other: &Capture,
) -> bool
    requires { AreSpansIn text.now spans.now }
    ensures { result ≡ spec.is_before keep_empty text.now spans.now capture.now other.now }
{
    is_same(&capture.path, &other.path) && kept_at(keep_empty, text, spans, other).is_some()
}

// What a capture found, where it found something.
fn kept_at<'t>(
    keep_empty: bool,
    text: &'t str,
    spans: &[Option<(usize, usize)>],
    capture: &Capture,
) -> Option<&'t str>
    requires { AreSpansIn text.now spans.now }
    ensures { option_map (λ found. found.now) result ≡ spec.kept_at keep_empty text.now spans.now
        capture.now }
{
    let (start, end) = span_at(text, spans, capture.group)?;
    let found = &text[start..end];
    if keep_empty || !found.is_empty() {
        Some(found)
    } else {
        None
    }
}

fn span_at(text: &str, spans: &[Option<(usize, usize)>], group: usize) -> Option<(usize, usize)>
    requires { AreSpansIn text.now spans.now }
    ensures value { result ≡ spec.span_at group spans.now }
    ensures inside { IfSome result (λ s. LiesWithin 0 (length text.now) s × CutsCleanly text.now
        s) }
{
    match spans.get(group) {
        Some(span) => *span,
        None => None,
    }
}

// What a text becomes: a number where it writes one, and a whole one where that is wanted.
fn coerced(alloc: Global, coercion: Coercion, text: &str) -> Result<Value, AllocError>
    ensures { IfOk result (λ value. value ≡ spec.coerced coercion text.now) }
{
    let number = match coercion {
        Coercion::Text => None,
        Coercion::Integer => whole_of(text),
        Coercion::Float => number_of(text),
    };
    match number {
        Some(number) => Ok(Value::Num(number)),
        None => Ok(Value::Text(Text::of(alloc, text)?)),
    }
}

fn whole_of(text: &str) -> Option<Number>
    ensures { result ≡ spec.whole_of text.now }
{
    let number = number_of(text)?;
    if number.scale() == 0 {
        Some(number)
    } else {
        None
    }
}
