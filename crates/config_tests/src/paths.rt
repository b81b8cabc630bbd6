// Paths: their parts, faults and comparisons.
use event_tree::Path;
use std::alloc::AllocError;
use table_rows::first_word;

/// Adds the parts of a path, each behind `|`, and behind `@` where it is one of metadata; or the text's fault.
pub fn add_parts(to: &mut String, text: &str) -> Result<(), AllocError> {
    match Path::read(*to.allocator(), text) {
        Ok(path) => add_path(to, &path),
        Err(fault) => write!(to, "{fault}"),
    }
}

fn add_path(to: &mut String, path: &Path) -> Result<(), AllocError> {
    if path.is_meta() {
        to.push('@')?;
    }
    for part in path.parts() {
        to.push('|')?;
        to.push_str(part.as_str())?;
    }
    Ok(())
}

/// Adds whether a copy of one path is the same as another.
pub fn add_comparison(to: &mut String, case: &str) -> Result<(), AllocError> {
    let (text, other) = first_word(case);
    match Path::read(*to.allocator(), text) {
        Ok(path) => add_copy_is(to, &path, other),
        Err(fault) => write!(to, "{fault}"),
    }
}

fn add_copy_is(to: &mut String, path: &Path, other: &str) -> Result<(), AllocError> {
    match Path::read(*to.allocator(), other) {
        Ok(other) => write!(to, "{}", is_copy(path, &other)?),
        Err(fault) => write!(to, "{fault}"),
    }
}

fn is_copy(path: &Path, other: &Path) -> Result<bool, AllocError> {
    Ok(path.copy()?.same(other))
}
