// The action lines of bulk requests, with the index of each event's day.
ghost use Rattle.std.specs.Prelude.{◌≡◌, ℤ, None, Some, IfOk, IsTrue, OnOk};
ghost use Rattle.event_text.specs.Template.{day_in, moment_of, text};
ghost use Rattle.out_bulk.specs.Requests as spec;
ghost use Rattle.out_bulk.specs.Settings.{target_of};
ghost use Rattle.out_bulk.specs.Written.{IsDayOf, IsKeptLine, IsOf};

use crate::settings::BulkSettings;
use event_text::{event_time, write_json};
use event_tree::{Event, Value};
use plain_data::{Instant, Text};
use std::alloc::{AllocError, Global};

/// The nanoseconds of a day.
const DAY: i128 = 86_400_000_000_000;

/// The first and the last nanosecond of a day.
#[derive(Clone, Copy)]
pub(crate) struct Day {
    first: i128,
    last: i128,
}

impl Day {
    fn of(moment: &Instant) -> Day
        ensures { IsDayOf moment.now result }
    {
        let nanos = moment.nanos();
        let first = nanos - nanos.rem_euclid(DAY);
        Day {
            first,
            last: first + (DAY - 1),
        }
    }
}

/// The line that puts an event into its index, kept for the events that follow: where the day of an event alone says which index that
/// is, as in `logs-%{+yyyy.MM.dd}`, all events of the day have this line.
#[derive(Drop)]
pub(crate) struct ActionLine {
    day: Option<Day>,
    bytes: Vec<u8>,
}

impl ActionLine {
    /// No line yet.
    pub(crate) fn new(alloc: Global) -> ActionLine
        ensures { result.day ≡ None }
    {
        ActionLine {
            day: None,
            bytes: Vec::new(alloc),
        }
    }

    /// Makes it the line of an event.
    pub(crate) fn set(
        &mut self,
        settings: &Option<BulkSettings>,
        event: &Event,
    ) -> Result<(), AllocError>
        requires { IsKeptLine (target_of settings.now) self.old }
        ensures kept { IsKeptLine (target_of settings.now) self.new }
        ensures line { OnOk result (self.new.bytes.items
            ≡ spec.action_line (target_of settings.now) event.now) }
    {
        let moment = event_time(event);
        if self.is_of(&moment) {
            return Ok(());
        }
        self.write(settings, event)?;
        if let Some(moment) = moment
            && goes_by_day(settings, event)
        {
            self.day = Some(Day::of(&moment));
        }
        Ok(())
    }

    /// Its bytes.
    pub(crate) fn as_bytes(&self) -> &[u8]
        ensures { result.now ≡ self.now.bytes.items }
    {
        &self.bytes
    }

    // Whether it is the line of the day of this moment.
    fn is_of(&self, moment: &Option<Instant>) -> bool
        ensures { IsTrue result → IsOf self.now.day moment.now }
    {
        let (Some(day), Some(moment)) = (&self.day, moment) else {
            return false;
        };
        let nanos = moment.nanos();
        day.first <= nanos && nanos <= day.last
    }

    fn write(&mut self, settings: &Option<BulkSettings>, event: &Event) -> Result<(), AllocError>
        ensures none { self.new.day ≡ None }
        ensures line { OnOk result
            (self.new.bytes.items ≡ spec.action_line (target_of settings.now) event.now) }
    {
        self.day = None;
        self.bytes.clear();
        let index = index_of(*self.bytes.allocator(), settings, event)?;
        self.bytes.extend_from_slice(b"{\"index\":{\"_index\":")?;
        write_json(&Value::Text(index), &mut self.bytes)?;
        self.bytes.extend_from_slice(b"}}\n")?;
        Ok(())
    }
}

// Whether the day of an event alone says which index it has.
fn goes_by_day(settings: &Option<BulkSettings>, event: &Event) -> bool
    ensures { IsTrue result → (day : ℤ) × (day_in (target_of settings.now).index event.now ≡ Some day) }
{
    match settings {
        Some(settings) => {
            if let Some(_) = settings.index.day_of(event) {
                true
            } else {
                false
            }
        }
        None => false,
    }
}

// The name of the index of an event.
fn index_of(
    alloc: Global,
    settings: &Option<BulkSettings>,
    event: &Event,
) -> Result<Text, AllocError>
    ensures { IfOk result (λ name. name ≡ text (target_of settings.now).index event.now) }
{
    match settings {
        Some(settings) => settings.index.fill(event),
        None => Text::of(alloc, ""),
    }
}
