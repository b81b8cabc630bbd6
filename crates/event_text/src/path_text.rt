// The path that a text reads as, if it reads.
ghost use Rattle.std.specs.Prelude.{◌≡◌, IfOk};
ghost use Rattle.event_text.specs.PathReading.{way_in};

use event_tree::{Path, PathFault};
use std::alloc::{AllocError, Global};

/// The path that a text reads as, or `None` where `Path::read` refuses it.
pub fn path_in(alloc: Global, text: &str) -> Result<Option<Path>, AllocError>
    ensures { IfOk result (λ path. path ≡ way_in text.now) }
{
    match Path::read(alloc, text) {
        Ok(path) => Ok(Some(path)),
        Err(PathFault::Memory) => Err(AllocError),
        Err(PathFault::Empty) => Ok(None),
        Err(PathFault::Unclosed(_)) => Ok(None),
        Err(PathFault::Stray(_)) => Ok(None),
    }
}
