// What configurations mean in histories that are written by hand.

use crate::configs::is_boxed;
use crate::judged::event_of;
use crate::parting::{Parted, part};
use config_tree::{Config, Plugin, SettingValue, Statement};
use element_code::encode;
use event_tree::{Event, Events, Text};
use foreign_parts::{Place, Verdict};
use history_judges::{Derived, Due, DueEvents, Given, Meaning, Plan, SourceLook};
use in_lines::Piece;
use std::alloc::{AllocError, Global};
use std::str;

/// What configurations mean whose filters are none or one condition with an empty block, and whose outputs are none or
/// one with one place, which writes each event as a queue spells it. No statement gives an id. Of other configurations it
/// says that memory ran out. An input makes one event of all that a look finds.
#[derive(Clone, Copy)]
pub struct OneOutput {
    pub alloc: Global,
}

impl Meaning for OneOutput {
    fn due(
        &self,
        plan: Plan<'_>,
        events: &[&Event],
        verdicts: &[Verdict],
    ) -> Result<Derived, AllocError> {
        let parted = part(self.alloc, plan.config.filters.as_slice(), events)?;
        Ok(Derived {
            exactly: verdicts.is_empty(),
            due: self.due_of(plan, parted)?,
        })
    }

    fn bytes(&self, _config: &Config, _id: &Text, events: &[Event]) -> Result<Vec<u8>, AllocError> {
        spelling_of(self.alloc, events)
    }

    fn boxed(&self, config: &Config) -> Result<Vec<Text>, AllocError> {
        let mut ids = Vec::new(self.alloc);
        if let [Statement::Plugin(output)] = config.outputs.as_slice() {
            if is_boxed(output) {
                ids.push(Text::of(self.alloc, "output_1")?)?;
            }
        }
        Ok(ids)
    }

    fn input_id(&self, place: usize, _statement: &Plugin) -> Result<Text, AllocError> {
        let number = place.saturating_add(1);
        Ok(Text::from_string(format!(in self.alloc; "input_{number}")?))
    }

    fn address(&self, statement: &Plugin) -> Result<Option<Text>, AllocError> {
        match statement.settings.get("address") {
            Some(SettingValue::Text(address)) => Ok(Some(address.copy()?)),
            _ => Ok(None),
        }
    }

    fn applied(&self, _statement: &Plugin, event: &Event) -> Result<Event, AllocError> {
        event.copy()
    }

    fn given(&self, _statement: &Plugin, looks: &[SourceLook]) -> Result<Given, AllocError> {
        let mut events = Events::new(self.alloc);
        let mut is_ended = false;
        for look in looks {
            match &look.poll.piece {
                Piece::Bytes(bytes) => {
                    let text = str::from_utf8(bytes.as_slice()).unwrap_or("");
                    events.push(event_of(self.alloc, text)?)?;
                }
                Piece::End => is_ended = true,
                Piece::Nothing => {}
            }
        }
        Ok(Given { events, is_ended })
    }
}

impl OneOutput {
    // The letters first, and then the events that pass, to where they go.
    fn due_of(&self, plan: Plan<'_>, parted: Parted) -> Result<Vec<Due>, AllocError> {
        let Parted { letters, passing } = parted;
        let mut due = Vec::new(self.alloc);
        if !letters.is_empty() {
            due.push(Due::Letters(letters))?;
        }
        match plan.config.outputs.as_slice() {
            [] => {}
            [Statement::Plugin(output)] => {
                if !passing.is_empty() {
                    due.push(Due::Events(DueEvents {
                        id: Text::of(self.alloc, "output_1")?,
                        kind: output.name.copy()?,
                        place: place_of(plan, output)?,
                        events: passing,
                    }))?;
                }
            }
            _ => return Err(AllocError),
        }
        Ok(due)
    }
}

// The one place of an output.
fn place_of(plan: Plan<'_>, output: &Plugin) -> Result<Place, AllocError> {
    match (output.name.as_str(), output.settings.list.as_slice()) {
        ("stdout", _) => Ok(Place::Stdout),
        ("sink", _) => Ok(Place::Discard),
        ("file", [(_, SettingValue::Text(path))]) => Ok(Place::File(path.copy()?)),
        ("pipeline", [(_, SettingValue::Text(address))]) => Ok(Place::Address(address.copy()?)),
        _ => match plan.draws {
            [(_, number)] => Ok(Place::Foreign(*number)),
            _ => Err(AllocError),
        },
    }
}

/// The bytes of these events.
pub fn spelling_of(alloc: Global, events: &[Event]) -> Result<Vec<u8>, AllocError> {
    let mut bytes = Vec::new(alloc);
    for event in events {
        encode(event, &mut bytes)?;
    }
    Ok(bytes)
}
