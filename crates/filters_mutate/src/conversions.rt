// The operation convert.
ghost use Rattle.std.specs.Prelude.{◌≡◌, IfOk};
ghost use Rattle.filter_settings.specs.Trying.{tried, all_tried};
ghost use Rattle.filters_mutate.specs.Operations as spec;

use event_tree::{Event, Path};
use filter_settings::{Change, Conversion, change_at, convert};
use std::alloc::{AllocError, Global};

#[tactic(auto, using(filter_settings::proofs::Steps::trying))]
pub(crate) fn convert_all(
    alloc: Global,
    fields: &[(Path, Conversion)],
    event: &mut Event,
) -> Result<bool, AllocError>
    ensures { IfOk result (λ fine. tried fine event.new ≡ all_tried spec.converted_at fields.now
        event.old) }
{
    for field in fields {
        if !convert_at(alloc, &field.0, field.1, event)? {
            return Ok(false);
        }
    }
    Ok(true)
}

fn convert_at(
    alloc: Global,
    path: &Path,
    to: Conversion,
    event: &mut Event,
) -> Result<bool, AllocError>
    ensures { IfOk result (λ fine. tried fine event.new ≡ spec.converted_at (path.now, to)
        event.old) }
{
    let change = match event.get(path) {
        Some(value) => convert(alloc, to, value)?,
        None => Change::Keep,
    };
    change_at(event, path, change)
}
