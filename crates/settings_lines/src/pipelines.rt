// Reading `pipelines.yml`: the settings of each pipeline.
ghost use Rattle.std.specs.Prelude.{◌≡◌, [], None, option_map};
ghost use Rattle.settings_lines.specs.Pipelines as spec;
ghost use Rattle.settings_lines.specs.Answers.{Gives, Shows};
ghost use Rattle.settings_lines.specs.Reading.{reading_view};
ghost use Rattle.settings_lines.specs.Steps.{read};

use crate::fault::{SettingsFault, SettingsLineFault};
use crate::orders::Orders;
use crate::partial_settings::{PartialSettings, close, take_line};
use crate::settings::PipelineSettings;
use plain_data::{Items, Text};
use std::alloc::Global;

/// The most bytes of a text.
const MAX_TEXT: usize = 1_048_576;

/// Reads a text as `pipelines.yml`: the settings of its entries, in their order.
///
/// The first line at fault is refused, and where no line is, an id that two entries have; of several such ids it is that
/// of the first entry whose id stands before it. What an entry doesn't set is that of the orders, or has its default.
/// A text without entries has no pipelines. It takes time in proportion to the text.
#[tactic(auto, unfolding(crate::specs::Pipelines::pipelines_of))]
pub fn read_pipelines(
    alloc: Global,
    text: &str,
    orders: &Orders,
) -> Result<Items<PipelineSettings>, SettingsFault>
    ensures { Gives result (spec.pipelines_of orders.now text.now) }
{
    if text.len() > MAX_TEXT {
        return Err(SettingsFault::Line(1, SettingsLineFault::Long));
    }
    let reading = read_lines(alloc, text, orders)?;
    let pipelines = close(alloc, orders, reading)?;
    check_unique_ids(pipelines)
}

/// What is read of all lines.
fn read_lines<'a>(
    alloc: Global,
    text: &'a str,
    orders: &Orders,
) -> Result<PartialSettings<'a>, SettingsFault>
    ensures { Shows reading_view result (read orders.now text.entry.now) }
{
    let mut reading = PartialSettings {
        done: Items::new(alloc),
        entry: None,
    };
    let mut number = 1;
    let mut rest = text;
    while let Some((line, behind)) = rest.split_once('\n') {
        reading = take_line(alloc, orders, reading, number, line)?;
        number += 1;
        rest = behind;
    }
    take_line(alloc, orders, reading, number, rest)
}

/// The pipelines, unless two of them have one id.
fn check_unique_ids(
    pipelines: Items<PipelineSettings>,
) -> Result<Items<PipelineSettings>, SettingsFault>
    ensures { Gives result (spec.check_unique_ids (spec.first_twice [] pipelines) pipelines) }
{
    match first_twice(pipelines.as_slice()) {
        Some(id) => Err(SettingsFault::Twice(id.copy()?)),
        None => Ok(pipelines),
    }
}

/// The first id that stands before it.
fn first_twice(pipelines: &[PipelineSettings]) -> Option<&Text>
    ensures { option_map (λ id. id.now) result ≡ spec.first_twice [] pipelines.now }
{
    for (at, pipeline) in pipelines.iter().enumerate() {
        if has_id(&pipelines[..at], pipeline.pipeline_id.as_str()) {
            return Some(&pipeline.pipeline_id);
        }
    }
    None
}

fn has_id(pipelines: &[PipelineSettings], id: &str) -> bool
    ensures { result ≡ spec.has_id id.now pipelines.now }
{
    pipelines
        .iter()
        .any(|pipeline| pipeline.pipeline_id.as_str() == id)
}
