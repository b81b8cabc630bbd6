// Copying values to the end of a list.
ghost use Rattle.std.specs.Prelude.{◌≡◌, ◌++◌, OnOk};

use event_tree::Value;
use plain_data::Items;
use std::alloc::AllocError;

/// Adds copies of values.
pub fn add_copies(to: &mut Items<Value>, values: &[Value]) -> Result<(), AllocError>
    ensures { OnOk result (to.new ≡ to.old ++ values.now) }
{
    for value in values {
        to.push(value.copy()?)?;
    }
    Ok(())
}
