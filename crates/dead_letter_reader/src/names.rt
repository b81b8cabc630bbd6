// Names by the folder of a queue.
ghost use Rattle.std.specs.Prelude.{◌≡◌, ◌++◌, codes, IfOk};
ghost use Rattle.dead_letter_reader.specs.Names.{address_of, place_file};

use event_tree::Text;
use std::alloc::{AllocError, Global};
use std::path::Path;

/// The file of the place up to which the letters of a folder were answered.
pub(crate) fn place_file(alloc: Global, folder: &str) -> Result<Text, AllocError>
    ensures { IfOk result (λ name. name ≡ place_file folder.now) }
{
    beside(alloc, folder.strip_suffix('/').unwrap_or(folder))
}

// The file of the place beside a folder, whose path here ends without a slash.
fn beside(alloc: Global, base: &str) -> Result<Text, AllocError>
    ensures { IfOk result (λ name. name ≡ base.now ++ codes ".dlq/dlq.pos") }
{
    let mut name = String::from_str(alloc, base)?;
    name.push_str(".dlq/dlq.pos")?;
    Ok(Text::from_string(name))
}

/// The address that the letters of a folder are sent to.
pub(crate) fn address_of(alloc: Global, folder: &str) -> Result<Text, AllocError>
    ensures { IfOk result (λ address. address ≡ address_of folder.now) }
{
    let mut address = String::from_str(alloc, "dlq:")?;
    address.push_str(Path::new(folder).file_name().unwrap_or(""))?;
    Ok(Text::from_string(address))
}
