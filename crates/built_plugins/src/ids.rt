// The ids of plugins and conditions.

ghost use Rattle.std.specs.Prelude.{◌≡◌, IfOk};
ghost use Rattle.event_flow.specs.Ids as spec;

use config_tree::{Plugin, Settings};
use filter_settings::{read_id, unless_refused};
use plain_data::Text;
use std::alloc::{AllocError, Global};

/// The id of the k-th plugin of a section, counted from 1: the one that its settings give, and else
/// the section's name and the number.
pub fn plugin_id(
    alloc: Global,
    section: &str,
    number: u64,
    plugin: &Plugin,
) -> Result<Text, AllocError>
    ensures { IfOk result (λ id. id ≡ spec.plugin_id section.now number plugin.now) }
{
    match given_id(alloc, &plugin.settings)? {
        Some(id) => Ok(id),
        None => Ok(Text::from_string(format!(in alloc; "{section}_{number}")?)),
    }
}

// The id that settings give.
fn given_id(alloc: Global, settings: &Settings) -> Result<Option<Text>, AllocError>
    ensures { IfOk result (λ id. id ≡ spec.given_id settings.now.list) }
{
    match settings.get("id") {
        Some(value) => unless_refused(read_id(alloc, "id", value)),
        None => Ok(None),
    }
}

/// The id of the k-th condition of a section, counted from 1.
pub fn condition_id(alloc: Global, section: &str, number: u64) -> Result<Text, AllocError>
    ensures { IfOk result (λ id. id ≡ spec.condition_id section.now number) }
{
    Ok(Text::from_string(format!(in alloc; "{section}_if_{number}")?))
}
