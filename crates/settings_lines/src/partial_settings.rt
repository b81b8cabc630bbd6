//! A text, line by line.

ghost use Rattle.std.specs.Prelude.{◌≡◌, []};
ghost use Rattle.settings_lines.specs.Pairs.{line_view};
ghost use Rattle.settings_lines.specs.Reading as spec;
ghost use Rattle.settings_lines.specs.Reading.{reading_view};
ghost use Rattle.settings_lines.specs.Answers.{Gives, Shows};

use crate::entry::{PipelineEntry, begin, finish, with_line};
use crate::fault::{SettingsFault, SettingsLineFault};
use crate::lines::{Pair, begins_entry, is_blank, pair_of};
use crate::orders::Orders;
use crate::settings::PipelineSettings;
use plain_data::Items;
use std::alloc::Global;

/// What is read of a text: the settings of the entries that are whole, and an entry that may go on.
#[derive(Drop)]
pub(crate) struct PartialSettings<'a> {
    pub(crate) done: Items<PipelineSettings>,
    pub(crate) entry: Option<PipelineEntry<'a>>,
}

/// What is read behind one more line.
pub(crate) fn take_line<'a>(
    alloc: Global,
    orders: &Orders,
    reading: PartialSettings<'a>,
    number: usize,
    line: &'a str,
) -> Result<PartialSettings<'a>, SettingsFault>
    ensures { Shows reading_view result
        (spec.taken orders.now (reading_view reading.entry) number line.entry.now) }
{
    if is_blank(line) {
        return Ok(reading);
    }
    if begins_entry(line) {
        return begin_entry(alloc, orders, reading, number, pair_of(line));
    }
    add_line(alloc, reading, number, pair_of(line))
}

/// A line that begins an entry, and ends the one before it.
fn begin_entry<'a>(
    alloc: Global,
    orders: &Orders,
    reading: PartialSettings<'a>,
    number: usize,
    first: Option<Pair<'a>>,
) -> Result<PartialSettings<'a>, SettingsFault>
    ensures { Shows reading_view result
        (spec.begun orders.now (reading_view reading.entry) number (line_view first.entry)) }
{
    let done = close(alloc, orders, reading)?;
    let entry = begin(alloc, number, first)?;
    Ok(PartialSettings {
        done,
        entry: Some(entry),
    })
}

/// A line of the entry that goes on.
fn add_line<'a>(
    alloc: Global,
    reading: PartialSettings<'a>,
    number: usize,
    line: Option<Pair<'a>>,
) -> Result<PartialSettings<'a>, SettingsFault>
    ensures { Shows reading_view result
        (spec.added (reading_view reading.entry) number (line_view line.entry)) }
{
    let PartialSettings { done, entry } = reading;
    match entry {
        Some(entry) => {
            let entry = with_line(alloc, entry, number, line)?;
            Ok(PartialSettings {
                done,
                entry: Some(entry),
            })
        }
        None => Err(SettingsFault::Line(number, SettingsLineFault::Form)),
    }
}

/// The settings of all entries, of which the last one is whole.
pub(crate) fn close(
    alloc: Global,
    orders: &Orders,
    reading: PartialSettings<'_>,
) -> Result<Items<PipelineSettings>, SettingsFault>
    ensures { Gives result (spec.closed orders.now (reading_view reading.entry)) }
{
    let PartialSettings { mut done, entry } = reading;
    match entry {
        Some(entry) => {
            let pipeline = finish(alloc, orders, done.len(), entry)?;
            done.push(pipeline)?;
            Ok(done)
        }
        None => Ok(done),
    }
}
