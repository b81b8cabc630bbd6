// JSON texts of values, written and read back.
ghost use Rattle.std.specs.Prelude.{◌≡◌, IfOk};
ghost use Rattle.event_json.specs.Json as spec;

use event_json::{read_json, write_json};
use event_tree::Value;
use std::alloc::{AllocError, Global};
use std::str;

/// How many bytes of JSON are told; of a longer text its length is.
const TOLD: usize = 1000;

/// The JSON text of a value, as bytes.
fn json_of(alloc: Global, value: &Value) -> Result<Vec<u8>, AllocError>
    ensures { IfOk result (λ bytes. bytes.items ≡ spec.json value.now) }
{
    let mut bytes = Vec::new(alloc);
    write_json(value, &mut bytes)?;
    Ok(bytes)
}

/// Adds the JSON text of a value; its length where it is long.
pub fn add(to: &mut String, value: &Value) -> Result<(), AllocError> {
    let bytes = json_of(*to.allocator(), value)?;
    if bytes.len() > TOLD {
        return write!(to, "{} bytes of JSON", bytes.len());
    }
    match str::from_utf8(&bytes) {
        Ok(text) => to.push_str(text),
        Err(_) => to.push_str("no UTF-8"),
    }
}

/// Adds the JSON text of the value that the bytes are read as, or their fault.
pub fn read_back(to: &mut String, bytes: &[u8]) -> Result<(), AllocError> {
    match read_json(*to.allocator(), bytes) {
        Ok(value) => add(to, &value),
        Err(fault) => write!(to, "{fault}"),
    }
}
