// What filters that are none or one condition leave of events.

use condition_eval::{Reason, Truth, eval, patterns_of};
use config_tree::{Arm, Condition, Statement};
use event_tree::{DeadList, DeadPart, Event, Events, Text};
use std::alloc::{AllocError, Global};

/// The letters of events whose condition is wrong, and the events that pass.
#[derive(Drop)]
pub struct Parted {
    pub letters: DeadList,
    pub passing: Events,
}

/// What these filters leave of events.
pub fn part(alloc: Global, filters: &[Statement], events: &[&Event]) -> Result<Parted, AllocError> {
    match filters {
        [] => all_pass(alloc, events),
        [Statement::Branch(arms)] => match arms.as_slice() {
            [arm] => parted_by_arm(alloc, arm, events),
            _ => Err(AllocError),
        },
        _ => Err(AllocError),
    }
}

fn all_pass(alloc: Global, events: &[&Event]) -> Result<Parted, AllocError> {
    let mut passing = Events::with_capacity(alloc, events.len())?;
    for event in events {
        passing.push(event.copy()?)?;
    }
    Ok(Parted {
        letters: DeadList::new(alloc),
        passing,
    })
}

fn parted_by_arm(alloc: Global, arm: &Arm, events: &[&Event]) -> Result<Parted, AllocError> {
    match &arm.condition {
        Some(condition) if arm.block.is_empty() => parted_by(alloc, condition, events),
        _ => Err(AllocError),
    }
}

fn parted_by(
    alloc: Global,
    condition: &Condition,
    events: &[&Event],
) -> Result<Parted, AllocError> {
    let Ok(mut patterns) = patterns_of(alloc, condition) else {
        return Err(AllocError);
    };
    let mut parted = Parted {
        letters: DeadList::new(alloc),
        passing: Events::new(alloc),
    };
    for event in events {
        match eval(condition, &mut patterns, event)? {
            Truth::Wrong(reason) => parted.letters.push(wrong_letter(alloc, &reason, event)?)?,
            Truth::Yes | Truth::No => parted.passing.push(event.copy()?)?,
        }
    }
    Ok(parted)
}

fn wrong_letter(alloc: Global, reason: &Reason, event: &Event) -> Result<DeadPart, AllocError> {
    Ok(DeadPart {
        kind: Text::of(alloc, "if")?,
        id: Text::of(alloc, "filter_if_1")?,
        reason: Text::from_string(format!(in alloc; "{reason}")?),
        event: event.copy()?,
    })
}
