// Tests of patterns: spans, replacements and limits.
use pattern_box::{Pattern, PatternFault, Patterns};
use std::alloc::{AllocError, Global};

type Span = Option<(usize, usize)>;

// The spans that Python's `re` gives, counted in bytes.
const SPANS: [(&str, &str, Option<&[Span]>); 8] = [
    ("a+", "baab", Some(&[Some((1, 3))])),
    ("x", "baab", None),
    ("", "é", Some(&[Some((0, 0))])),
    ("(a)|(b)", "b", Some(&[Some((0, 1)), None, Some((0, 1))])),
    ("(a*)b", "cb", Some(&[Some((1, 2)), Some((1, 1))])),
    ("é|(日)", "日é", Some(&[Some((0, 3)), Some((0, 3))])),
    (
        "(é+)(.)",
        "aéé日b",
        Some(&[Some((1, 8)), Some((1, 5)), Some((5, 8))]),
    ),
    (
        r"(?P<key>\w+)=(\d*)",
        " é1=",
        Some(&[Some((1, 5)), Some((1, 4)), Some((5, 5))]),
    ),
];

// What the crate `regex` of Rust gives: no empty match stands where the last match ended.
const REPLACED: [(&str, &str, &str, &str); 7] = [
    ("a+", "baab", "c", "bcb"),
    ("a+", "baacaab", "d", "bdcdb"),
    ("", "é日", "-", "-é-日-"),
    ("a*", "baac", "-", "-b-c-"),
    ("é", "aéé日é", "$1", "a$1$1日$1"),
    ("x", "abc", "y", "abc"),
    ("b$", "abb", "", "ab"),
];

// A part of a pattern, so many times each of two others around it, and what stands in front.
fn around(
    alloc: Global,
    front: &str,
    (open, part, close): (&str, &str, &str),
    count: usize,
) -> Result<String, AllocError> {
    let mut text = String::from_str(alloc, front)?;
    add_times(&mut text, open, count)?;
    text.push_str(part)?;
    add_times(&mut text, close, count)?;
    Ok(text)
}

fn add_times(text: &mut String, part: &str, count: usize) -> Result<(), AllocError> {
    for _ in 0..count {
        text.push_str(part)?;
    }
    Ok(())
}

fn sent<T: Send>(value: T) -> T {
    value
}

// A list of one pattern, which may go to another thread.
fn one_pattern(alloc: Global, text: &str) -> Result<Patterns, PatternFault> {
    let mut patterns = Patterns::new(alloc);
    patterns.push(sent(Pattern::new(alloc, text)?))?;
    Ok(patterns)
}

// Whether the first pattern of a list finds these spans.
fn finds(patterns: &mut Patterns, text: &str, wanted: Option<&[Span]>) -> Result<bool, AllocError> {
    let Some(pattern) = patterns.get_mut(0) else {
        return Ok(false);
    };
    match pattern.spans(text)? {
        Some(spans) => Ok(wanted == Some(spans.as_slice())),
        None => Ok(wanted.is_none()),
    }
}

// No pattern, where one was wanted, is as a match that was not found.
fn or_not(found: Result<bool, PatternFault>) -> Result<bool, AllocError> {
    match found {
        Ok(found) => Ok(found),
        Err(PatternFault::BadPattern) => Ok(false),
        Err(PatternFault::Memory) => Err(AllocError),
    }
}

pub(crate) fn spans_are_first(alloc: Global) -> Result<bool, AllocError> {
    or_not(are_found(alloc))
}

fn are_found(alloc: Global) -> Result<bool, PatternFault> {
    for (pattern, text, wanted) in &SPANS {
        if !finds(&mut one_pattern(alloc, pattern)?, text, *wanted)? {
            return Ok(false);
        }
    }
    Ok(true)
}

// Whether a pattern's matches in a text are replaced so.
fn is_replaced(
    alloc: Global,
    pattern: &str,
    text: &str,
    (with, wanted): (&str, &str),
) -> Result<bool, PatternFault> {
    let mut pattern = Pattern::new(alloc, pattern)?;
    Ok(pattern.replace_all(text, with)?.as_str() == wanted)
}

pub(crate) fn each_is_replaced(alloc: Global) -> Result<bool, AllocError> {
    or_not(are_replaced(alloc))
}

fn are_replaced(alloc: Global) -> Result<bool, PatternFault> {
    for (pattern, text, with, wanted) in &REPLACED {
        if !is_replaced(alloc, pattern, text, (*with, *wanted))? {
            return Ok(false);
        }
    }
    Ok(true)
}

// How the compiler of patterns ends with a text.
fn outcome(alloc: Global, text: &str) -> Option<PatternFault> {
    Pattern::new(alloc, text).err()
}

// What stands in front, the parts around the middle one, how often, and whether that is refused. Spaces are passed over by
// the flag `x`, so these patterns have five bytes and so many more, and so many levels.
const LONG: [(&str, (&str, &str, &str), usize, bool); 5] = [
    ("(", ("", "", ""), 0, true),
    ("(?x)a", ("", "", " "), 65_531, false),
    ("(?x)a", ("", "", " "), 65_532, true),
    ("", ("(", "a", ")"), 250, false),
    ("", ("(", "a", ")"), 251, true),
];

fn is_refused(alloc: Global, text: &str) -> bool {
    outcome(alloc, text) == Some(PatternFault::BadPattern)
}

pub(crate) fn are_refused(alloc: Global) -> Result<bool, AllocError> {
    for (front, parts, count, refused) in &LONG {
        let text = around(alloc, front, *parts, *count)?;
        if is_refused(alloc, &text) != *refused {
            return Ok(false);
        }
    }
    Ok(true)
}

// A count is written out in the compiled form: ten thousand states here, and then a million.
pub(crate) fn is_limited(alloc: Global) -> bool {
    outcome(alloc, "(a{100}){100}").is_none()
        && outcome(alloc, "(a{1000}){1000}") == Some(PatternFault::Memory)
}
