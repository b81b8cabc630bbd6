//! The filters and conditions of a configuration called one by one, with nothing of a graph around them (bench/graphs.sh).

use crate::batches::condition;
use crate::timing::filter_of;
use built_plugins::{BuiltFilter, CompiledCondition};
use condition_eval::Truth;
use event_tree::{Event, Events};
use filter_settings::Applied;
use std::alloc::Global;

/// Three filters, of which an event meets one by two conditions, and a condition by which events are dropped then.
#[derive(Drop)]
pub struct ByHand {
    first: CompiledCondition,
    second: CompiledCondition,
    last: CompiledCondition,
    at_first: BuiltFilter,
    at_second: BuiltFilter,
    at_none: BuiltFilter,
}

impl ByHand {
    /// Reads three lines with the conditions, each as `if [a] == 1 { }`, and three with the filters.
    pub fn read(alloc: Global, text: &str) -> Option<ByHand> {
        let mut lines = text.lines();
        Some(ByHand {
            first: condition(alloc, lines.next()?)?,
            second: condition(alloc, lines.next()?)?,
            last: condition(alloc, lines.next()?)?,
            at_first: filter_of(alloc, lines.next()?)?,
            at_second: filter_of(alloc, lines.next()?)?,
            at_none: filter_of(alloc, lines.next()?)?,
        })
    }

    /// Has an event meet its filter, and adds the events that come out and aren't dropped.
    pub fn meet(&mut self, event: Event, done: &mut Events) -> Option<()> {
        let events = self.filtered(event)?;
        for event in events.into_vec() {
            if !is_true(&mut self.last, &event)? {
                done.push(event).ok()?;
            }
        }
        Some(())
    }

    fn filtered(&mut self, event: Event) -> Option<Events> {
        if is_true(&mut self.first, &event)? {
            return applied(&mut self.at_first, event);
        }
        if is_true(&mut self.second, &event)? {
            return applied(&mut self.at_second, event);
        }
        applied(&mut self.at_none, event)
    }
}

fn is_true(condition: &mut CompiledCondition, event: &Event) -> Option<bool> {
    Some(matches!(condition.test(event).ok()?, Truth::Yes))
}

fn applied(filter: &mut BuiltFilter, event: Event) -> Option<Events> {
    let Applied { events, .. } = filter.apply(event).ok()?;
    Some(events)
}
