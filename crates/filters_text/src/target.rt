// The path of a decoded field, at the root or under a target.
ghost use Rattle.std.specs.Prelude.{◌≡◌, ◌++◌, ◌∷◌, [], IfOk};
ghost use Rattle.std.specs.Option.{option_copied};
ghost use Rattle.event_tree.specs.PathTexts.{way_of};
ghost use Rattle.filter_settings.specs.Paths.{written as written_of};
ghost use Rattle.filters_text.specs.Targets.{under};

use event_times::field_path;
use event_tree::{Path, Text};
use filter_settings::written;
use std::alloc::AllocError;

/// The path of a field of this name: at the root, or under a target.
pub(crate) fn field_under(target: Option<&Path>, name: Text) -> Result<Path, AllocError>
    ensures { IfOk result (λ path. path ≡ under (option_copied target.entry) (name ∷ [])) }
{
    match target {
        None => field_path(name),
        Some(target) => field_in(target, name),
    }
}

fn field_in(target: &Path, name: Text) -> Result<Path, AllocError>
    ensures { IfOk result (λ path. path ≡ way_of (written_of target.now ++ name ∷ [])) }
{
    let mut parts = written(name.allocator(), target)?;
    parts.push(name)?;
    Ok(Path::of_parts(parts))
}
