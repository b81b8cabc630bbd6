//! An entry, line by line.

ghost use Rattle.std.specs.Prelude.{◌≡◌, IfOk};
ghost use Rattle.settings_lines.specs.Entries as spec;
ghost use Rattle.settings_lines.specs.Pairs.{line_view, pair_view, values_view};
ghost use Rattle.settings_lines.specs.Reading.{entry_view, finished, opened, with_later};
ghost use Rattle.settings_lines.specs.Answers.{Gives};

use crate::fault::{SettingsFault, SettingsLineFault};
use crate::lines::Pair;
use crate::orders::Orders;
use crate::settings::PipelineSettings;
use crate::table::value_test;
use crate::values::Values;
use plain_data::Text;
use std::alloc::{AllocError, Global};

/// How many entries there are at most.
const MAX_ENTRIES: usize = 16;

/// What is read of an entry.
#[derive(Drop)]
pub(crate) struct PipelineEntry<'a> {
    /// The number of its first line.
    pub(crate) number: usize,
    /// Its first line, where that has the form of one.
    pub(crate) first: Option<Pair<'a>>,
    pub(crate) values: Values<'a>,
    /// The fault of the first line at fault behind its first.
    pub(crate) fault: Option<SettingsFault>,
}

/// An entry that begins with this line.
pub(crate) fn begin<'a>(
    alloc: Global,
    number: usize,
    first: Option<Pair<'a>>,
) -> Result<PipelineEntry<'a>, AllocError>
    ensures { IfOk result (λ entry. entry_view entry ≡ opened number (line_view first.entry)) }
{
    let mut values = Values::new(alloc);
    if let Some(pair) = first {
        values.add(pair)?;
    }
    Ok(PipelineEntry {
        number,
        first,
        values,
        fault: None,
    })
}

/// The entry with one more line.
pub(crate) fn with_line<'a>(
    alloc: Global,
    entry: PipelineEntry<'a>,
    number: usize,
    line: Option<Pair<'a>>,
) -> Result<PipelineEntry<'a>, AllocError>
    ensures { IfOk result
        (λ more. entry_view more ≡ with_later (entry_view entry.entry) number (line_view line.entry)) }
{
    let PipelineEntry {
        number: first_number,
        first,
        mut values,
        fault,
    } = entry;
    let fault = match fault {
        Some(fault) => Some(fault),
        None => later_fault(alloc, &values, number, line)?,
    };
    if let Some(pair) = line {
        values.add(pair)?;
    }
    Ok(PipelineEntry {
        number: first_number,
        first,
        values,
        fault,
    })
}

/// The settings of an entry that is whole, behind so many others.
pub(crate) fn finish(
    alloc: Global,
    orders: &Orders,
    before: usize,
    entry: PipelineEntry<'_>,
) -> Result<PipelineSettings, SettingsFault>
    ensures { Gives result (finished orders.now before (entry_view entry.entry)) }
{
    let PipelineEntry {
        number,
        first,
        values,
        fault,
    } = entry;
    if let Some(fault) = first_fault(alloc, before, number, first, &values)? {
        return Err(fault);
    }
    if let Some(fault) = fault {
        return Err(fault);
    }
    Ok(values.settings(alloc, orders)?)
}

/// The fault of the first line of an entry with these keys, behind so many entries.
fn first_fault(
    alloc: Global,
    before: usize,
    number: usize,
    first: Option<Pair<'_>>,
    values: &Values<'_>,
) -> Result<Option<SettingsFault>, AllocError>
    ensures { IfOk result (λ fault. fault
        ≡ spec.first_fault before number (line_view first.entry) (values_view values.now)) }
{
    let Some(pair) = first else {
        return Ok(Some(SettingsFault::Line(number, SettingsLineFault::Form)));
    };
    if !values.stands("pipeline.id") {
        return Ok(Some(SettingsFault::Line(number, SettingsLineFault::NoId)));
    }
    if !has_configuration(values) {
        return Ok(Some(SettingsFault::Line(number, SettingsLineFault::NoConfiguration)));
    }
    if before >= MAX_ENTRIES {
        return Ok(Some(SettingsFault::Line(number, SettingsLineFault::TooMany)));
    }
    key_fault(alloc, number, pair)
}

/// Whether exactly one of the keys of a configuration stands.
fn has_configuration(values: &Values<'_>) -> bool
    ensures { result ≡ spec.has_configuration (values_view values.now) }
{
    if values.stands("path.config") {
        !values.stands("config.string")
    } else {
        values.stands("config.string")
    }
}

/// The fault of a line behind the first of its entry, in front of which these keys stand.
fn later_fault(
    alloc: Global,
    values: &Values<'_>,
    number: usize,
    line: Option<Pair<'_>>,
) -> Result<Option<SettingsFault>, AllocError>
    ensures { IfOk result (λ fault. fault
        ≡ spec.later_fault (values_view values.now) number (line_view line.entry)) }
{
    let Some(pair) = line else {
        return Ok(Some(SettingsFault::Line(number, SettingsLineFault::Form)));
    };
    if values.stands(pair.key) {
        return Ok(Some(SettingsFault::Line(number, SettingsLineFault::KeyTwice)));
    }
    key_fault(alloc, number, pair)
}

/// A key that is none of the table, or whose value is not in its range.
fn key_fault(
    alloc: Global,
    number: usize,
    pair: Pair<'_>,
) -> Result<Option<SettingsFault>, AllocError>
    ensures { IfOk result (λ fault. fault ≡ spec.key_fault number (pair_view pair.entry)) }
{
    match value_test(pair.key, pair.scalar) {
        Some(true) => Ok(None),
        Some(false) => Ok(Some(SettingsFault::Range(number, Text::of(alloc, pair.key)?))),
        None => Ok(Some(SettingsFault::Unknown(number, Text::of(alloc, pair.key)?))),
    }
}
