// What conditions say of events.
ghost use Rattle.std.specs.Prelude.{IfOk};
ghost use Rattle.condition_eval.specs.Truths.{truth};
ghost use Rattle.config_tests.specs.Outcomes.{IsOutcome};

use crate::cases::cases_of;
use condition_eval::{Truth, eval, patterns_of};
use config_parse::parse;
use config_tree::{Condition, Statement};
use event_json::{JsonFault, read_json};
use event_tree::{Event, Instant, Path, Value};
use pattern_box::PatternFault;
use std::alloc::{AllocError, Global};
use table_rows::first_word;

/// What comes of a condition's text.
#[derive(Drop)]
pub enum ConditionResult {
    /// It says this of the event.
    Said(Truth),
    /// It reads as no condition.
    Unread,
    /// One of its patterns is refused.
    BadPattern,
}

/// What the condition of this text says of the event, as a text.
pub fn answer(alloc: Global, event: &Event, text: &str) -> Result<String, AllocError> {
    match outcome_of(alloc, text, event)? {
        ConditionResult::Said(Truth::Yes) => String::from_str(alloc, "yes"),
        ConditionResult::Said(Truth::No) => String::from_str(alloc, "no"),
        ConditionResult::Said(Truth::Wrong(reason)) => format!(in alloc; "{reason}"),
        ConditionResult::Unread => String::from_str(alloc, "no condition"),
        ConditionResult::BadPattern => String::from_str(alloc, "bad pattern"),
    }
}

/// What the condition of this text says of the event.
fn outcome_of(alloc: Global, text: &str, event: &Event) -> Result<ConditionResult, AllocError> {
    let source = format!(in alloc; "filter {{ if {text} {{ }} }}")?;
    let Ok(config) = parse(alloc, source.as_str()) else {
        return Ok(ConditionResult::Unread);
    };
    match config.filters.get(0) {
        Some(Statement::Branch(arms)) => match arms.get(0) {
            Some(arm) => match &arm.condition {
                Some(condition) => said(alloc, condition, event),
                None => Ok(ConditionResult::Unread),
            },
            None => Ok(ConditionResult::Unread),
        },
        _ => Ok(ConditionResult::Unread),
    }
}

/// What the condition says, or that one of its patterns is refused.
fn said(alloc: Global, condition: &Condition, event: &Event) -> Result<ConditionResult, AllocError>
    ensures { IfOk result (IsOutcome (truth condition.now event.now)) }
{
    match patterns_of(alloc, condition) {
        Ok(patterns) => {
            let mut patterns = patterns;
            Ok(ConditionResult::Said(eval(condition, &mut patterns, event)?))
        }
        Err(PatternFault::BadPattern) => Ok(ConditionResult::BadPattern),
        Err(PatternFault::Memory) => Err(AllocError),
    }
}

/// The event of these lines, each a path and the value that is put there.
pub fn event_of(alloc: Global, lines: &str) -> Result<Event, AllocError> {
    let mut event = Event::new(alloc);
    for line in cases_of(alloc, lines)? {
        put(alloc, &mut event, line)?;
    }
    Ok(event)
}

fn put(alloc: Global, event: &mut Event, line: &str) -> Result<(), AllocError> {
    let (path, written) = first_word(line);
    if let Ok(path) = Path::read(alloc, path) {
        let _ = event.put(&path, value_of(alloc, written)?);
    }
    Ok(())
}

/// The value that is written so: by its JSON text, or by `time NANOSECONDS` behind 1970.
fn value_of(alloc: Global, written: &str) -> Result<Value, AllocError> {
    if let Some(nanos) = written.strip_prefix("time ") {
        let moment = Instant::from_nanos(i128::from(nanos.parse::<i64>().unwrap_or(0)));
        return Ok(moment.map_or(Value::Null, Value::Time));
    }
    match read_json(alloc, written.as_bytes()) {
        Ok(value) => Ok(value),
        Err(JsonFault::Memory) => Err(AllocError),
        Err(_) => Ok(Value::Null),
    }
}
