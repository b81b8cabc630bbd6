//! Evaluates a condition on an event of thirty fields (bench/conditions.sh).

ghost use Rattle.condition_eval.specs.Made.{AreMadeOf};

use condition_eval::{Truth, eval, patterns_of};
use config_parse::parse;
use config_tree::{Condition, Config, Statement};
use event_tree::{Event, Number, Path, Text, Value};
use pattern_box::Patterns;
use std::alloc::Global;

/// How many fields the event has.
const FIELDS: u8 = 30;

/// In how many of so many rounds a condition is Yes.
pub fn run(alloc: Global, words: &[String]) -> Option<u64> {
    let [text, rounds] = words else {
        return None;
    };
    let rounds = rounds.as_str().parse::<u32>().ok()?;
    evaluated(alloc, text.as_str(), rounds)
}

/// In how many rounds the condition of this text is Yes.
fn evaluated(alloc: Global, text: &str, rounds: u32) -> Option<u64> {
    let config = config(alloc, text)?;
    let condition = condition(&config)?;
    let mut patterns = patterns_of(alloc, condition).ok()?;
    let event = event(alloc)?;
    rounds_that_hold(condition, &mut patterns, &event, rounds)
}

fn config(alloc: Global, text: &str) -> Option<Config> {
    let source = format!(in alloc; "filter {{ if {text} {{ }} }}").ok()?;
    parse(alloc, source.as_str()).ok()
}

/// The condition of the one branch.
fn condition(config: &Config) -> Option<&Condition> {
    if let Some(Statement::Branch(arms)) = config.filters.get(0) {
        if let Some(arm) = arms.get(0) {
            if let Some(condition) = &arm.condition {
                return Some(condition);
            }
        }
    }
    None
}

/// Fields `field00` to `field29`, texts and numbers in turn.
fn event(alloc: Global) -> Option<Event> {
    let mut event = Event::new(alloc);
    for i in 0..FIELDS {
        let path = path(alloc, i)?;
        event.put(&path, value(alloc, i)?).ok()?;
    }
    Some(event)
}

fn path(alloc: Global, i: u8) -> Option<Path> {
    let name = format!(in alloc; "field{i:02}").ok()?;
    Path::read(alloc, name.as_str()).ok()
}

fn value(alloc: Global, i: u8) -> Option<Value> {
    if i % 2 == 0 {
        Some(Value::Text(Text::of(alloc, "a value of some bytes").ok()?))
    } else {
        Some(Value::Num(Number::new(i64::from(i), 0)?))
    }
}

/// The same, with the patterns that were made of the condition.
fn rounds_that_hold(
    condition: &Condition,
    patterns: &mut Patterns,
    event: &Event,
    rounds: u32,
) -> Option<u64>
    requires { AreMadeOf condition.now patterns.old }
{
    let mut found = 0u64;
    for _ in 0..rounds {
        if matches!(eval(condition, patterns, event).ok()?, Truth::Yes) {
            found = found.wrapping_add(1);
        }
    }
    Some(found)
}
