// The operations that set a text which the event fills.
ghost use Rattle.std.specs.Prelude.{◌≡◌, IfOk};
ghost use Rattle.filter_settings.specs.Trying.{tried, all_tried};
ghost use Rattle.filters_mutate.specs.Operations as spec;
ghost use Rattle.filters_mutate.specs.declared.fills.Fill.TheVariants as fills;

use event_text::Template;
use event_tree::{Event, Path, Value};
use filter_settings::put_at;
use std::alloc::AllocError;

/// Where a text is set.
#[derive(Clone, Copy)]
pub enum Fill {
    /// In place of a null.
    Coerce,
    /// In place of what is there.
    Update,
    /// Whatever is there.
    Replace,
}

#[tactic(auto, using(filter_settings::proofs::Steps::trying))]
pub(crate) fn fill_all(
    how: Fill,
    fields: &[(Path, Template)],
    event: &mut Event,
) -> Result<bool, AllocError>
    ensures { IfOk result (λ fine. tried fine event.new ≡ all_tried (spec.filled how) fields.now
        event.old) }
{
    for field in fields {
        if !fill_one(how, field, event)? {
            return Ok(false);
        }
    }
    Ok(true)
}

fn fill_one(how: Fill, field: &(Path, Template), event: &mut Event) -> Result<bool, AllocError>
    ensures { IfOk result (λ fine. tried fine event.new ≡ spec.filled how field.now event.old) }
{
    let (path, template) = (&field.0, &field.1);
    match how {
        Fill::Coerce => {
            if let Some(Value::Null) = event.get(path) {
                put_filled(path, template, event)
            } else {
                Ok(true)
            }
        }
        Fill::Update => {
            if event.get(path).is_some() {
                put_filled(path, template, event)
            } else {
                Ok(true)
            }
        }
        Fill::Replace => put_filled(path, template, event),
    }
}

fn put_filled(path: &Path, template: &Template, event: &mut Event) -> Result<bool, AllocError>
    ensures { IfOk result (λ fine. tried fine event.new ≡ spec.filled fills.Replace
        (path.now, template.now) event.old) }
{
    let text = template.fill(event)?;
    put_at(event, path, Value::Text(text))
}
