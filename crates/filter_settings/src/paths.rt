// The paths of fields that a filter sets.
ghost use Rattle.std.specs.Prelude.{◌≡◌, ◌<◌, ◌++◌, ◌∷◌, [], length, IfOk, OnOk};
ghost use Rattle.event_tree.specs.PathTexts.{way_of};
ghost use Rattle.filter_settings.specs.Paths as spec;

use crate::pieces::add_text;
use event_tree::{Names, Path, Text};
use std::alloc::{AllocError, Global};

/// The parts of a path as they are written, with `@metadata` among them.
pub fn written(alloc: Global, path: &Path) -> Result<Names, AllocError>
    ensures value { IfOk result (λ parts. parts ≡ spec.written path.now) }
    ensures some { IfOk result (λ parts. 0 < length parts) }
{
    let mut parts = Names::with_capacity(alloc, path.parts().len().saturating_add(1))?;
    if path.is_meta() {
        add_text(&mut parts, "@metadata")?;
    }
    add_parts(&mut parts, path.parts())?;
    Ok(parts)
}

fn add_parts(parts: &mut Names, more: &[Text]) -> Result<(), AllocError>
    ensures { OnOk result (parts.new ≡ parts.old ++ more.now) }
{
    for part in more {
        parts.push(part.copy()?)?;
    }
    Ok(())
}

/// The path of a field of this name at the root of an event.
pub fn field_named(alloc: Global, name: &str) -> Result<Path, AllocError>
    ensures { IfOk result (λ path. path ≡ way_of (name.now ∷ [])) }
{
    let mut parts = Names::new(alloc);
    add_text(&mut parts, name)?;
    Ok(Path::of_parts(parts))
}

/// A path under another.
pub fn path_under(alloc: Global, target: &Path, path: &Path) -> Result<Path, AllocError>
    ensures { IfOk result (λ joined. joined ≡ spec.path_under target.now path.now) }
{
    let mut parts = written(alloc, target)?;
    parts.append(written(alloc, path)?)?;
    Ok(Path::of_parts(parts))
}

/// Whether two paths have the same parts.
pub fn is_same(path: &Path, other: &Path) -> bool
    ensures { result ≡ spec.same_path path.now other.now }
{
    path.is_meta() == other.is_meta() && path.parts() == other.parts()
}
