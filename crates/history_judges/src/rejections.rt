// What entries hold, compared; and the letters of events that a box rejects.

use crate::meaning::DueEvents;
use crate::reason::Judged;
use event_tree::{DeadList, DeadPart, Event, Text};
use foreign_parts::{Fate, Place};

/// How many bytes the text of a rejection may have.
const TEXT_LIMIT: usize = 65_536;

/// Whether events are equal, each to the one at its place.
pub fn same_events(left: &[Event], right: &[Event]) -> bool {
    left.len() == right.len() && left.iter().zip(right).all(|(a, b)| a.same(b))
}

/// Whether both are the same place.
pub fn same_place(left: &Place, right: &Place) -> bool {
    match (left, right) {
        (Place::Stdout, Place::Stdout) => true,
        (Place::File(x), Place::File(y)) => x == y,
        (Place::Address(x), Place::Address(y)) => x == y,
        (Place::Foreign(x), Place::Foreign(y)) => x == y,
        (Place::Discard, Place::Discard) => true,
        (Place::Dead, Place::Dead) => true,
        _ => false,
    }
}

/// Whether a place is that of a boxed output.
pub fn is_box(place: &Place) -> bool {
    matches!(place, Place::Foreign(_))
}

fn same_letter(left: &DeadPart, right: &DeadPart) -> bool {
    left.kind == right.kind
        && left.id == right.id
        && left.reason == right.reason
        && left.event.same(&right.event)
}

/// Whether each event has its fate, which a box alone gives.
pub fn fates_fit(place: &Place, fates: &[Fate], events: &[Event]) -> bool {
    if !is_box(place) {
        return fates.is_empty();
    }
    let are_short = fates.iter().all(|fate| match fate {
        Fate::Took => true,
        Fate::Rejected(_, text) => text.len() <= TEXT_LIMIT,
    });
    fates.len() == events.len() && are_short
}

/// The letters of the events that were rejected, in their order.
pub fn rejections(due: &DueEvents, fates: &[Fate], events: &[Event]) -> Judged<DeadList> {
    let alloc = due.events.allocator();
    let mut letters = DeadList::new(alloc);
    for (fate, event) in fates.iter().zip(events) {
        if let Fate::Rejected(status, text) = fate {
            let reason = format!(in alloc; "status {status}: {text}", text = text.as_str())?;
            letters.push(DeadPart {
                kind: due.kind.copy()?,
                id: due.id.copy()?,
                reason: Text::from_string(reason),
                event: event.copy()?,
            })?;
        }
    }
    Ok(letters)
}

/// Whether these are all letters but those at some places.
pub fn are_kept(kept: &[DeadPart], shed: &[usize], all: &[DeadPart]) -> bool {
    let mut rest = kept;
    for (place, letter) in all.iter().enumerate() {
        if !shed.contains(&place) {
            match rest {
                [first, later @ ..] if same_letter(first, letter) => rest = later,
                _ => return false,
            }
        }
    }
    rest.is_empty()
}

/// Whether each of these places is below this.
pub fn are_below(places: &[usize], end: usize) -> bool {
    places.iter().all(|place| *place < end)
}

/// Whether letters are those of some of the events, at least one, in their order, each rejected with a status: but for
/// those at these places among them, which were shed. Each event is taken for the next letter, if it may be, and for one
/// that was shed at its place.
pub fn are_some_rejected(due: &DueEvents, shed: &[usize], letters: &[DeadPart]) -> Judged<bool> {
    let mut chosen: usize = 0;
    let mut rest = letters;
    for event in due.events.as_slice() {
        if shed.contains(&chosen) {
            chosen = chosen.saturating_add(1);
        } else if let [letter, later @ ..] = rest {
            if is_rejection(due, letter, event)? {
                chosen = chosen.saturating_add(1);
                rest = later;
            }
        }
    }
    Ok(rest.is_empty() && chosen > 0 && are_below(shed, chosen))
}

// Whether the letter is that of the event, rejected with some status.
fn is_rejection(due: &DueEvents, letter: &DeadPart, event: &Event) -> Judged<bool> {
    if letter.kind != due.kind || letter.id != due.id || !letter.event.same(event) {
        return Ok(false);
    }
    let Some(said) = letter.reason.as_str().strip_prefix("status ") else {
        return Ok(false);
    };
    let Some((status, text)) = said.split_once(": ") else {
        return Ok(false);
    };
    match status.parse::<u16>() {
        Ok(number) => {
            let written = format!(in due.events.allocator(); "{number}")?;
            Ok(written.as_str() == status && text.len() <= TEXT_LIMIT)
        }
        Err(_) => Ok(false),
    }
}
