// The JSON value of a text, and the text of a value.
ghost use Rattle.std.specs.Prelude.{◌≡◌, IfOk, option_map};
ghost use Rattle.event_times.specs.Decoded as spec;

use event_json::{JsonFault, read_json};
use event_tree::Value;
use std::alloc::{AllocError, Global};

/// The value of a JSON text that [`read_json`] reads, and none of any other text.
pub fn json_value(alloc: Global, text: &str) -> Result<Option<Value>, AllocError>
    ensures { IfOk result (λ value. value ≡ spec.json_in text.now) }
{
    match read_json(alloc, text.as_bytes()) {
        Ok(value) => Ok(Some(value)),
        Err(JsonFault::Memory) => Err(AllocError),
        Err(JsonFault::NotUtf8(_)) => Ok(None),
        Err(JsonFault::At(_)) => Ok(None),
        Err(JsonFault::Deep(_)) => Ok(None),
    }
}

/// The text of a value that is one.
pub fn text_in(value: &Value) -> Option<&str>
    ensures { option_map (λ text. text.now) result ≡ spec.text_of value.now }
{
    match value {
        Value::Text(text) => Some(text.as_str()),
        _ => None,
    }
}
