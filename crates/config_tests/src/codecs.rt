// Events written by the codecs of outputs.
use event_text::Template;
use event_tree::Event;
use in_lines::{Codec, OutCodec};
use std::alloc::AllocError;
use std::str;
use table_rows::first_word;

/// Adds what an output writes of the event and of a copy of it. Its codec stands in the first word, and its format behind
/// that.
pub fn add_written(to: &mut String, event: &Event, given: &str) -> Result<(), AllocError> {
    let alloc = *to.allocator();
    let (codec, format) = first_word(given);
    let out = OutCodec {
        codec: Codec::named(codec).unwrap_or(Codec::JsonLines),
        format: Template::read(alloc, format)?,
    };
    let mut events = Vec::new(alloc);
    events.push(event.copy()?)?;
    events.push(event.copy()?)?;
    let mut bytes = Vec::new(alloc);
    out.write(&events, &mut bytes)?;
    match str::from_utf8(&bytes) {
        Ok(text) => to.push_str(text),
        Err(_) => to.push_str("no UTF-8"),
    }
}
