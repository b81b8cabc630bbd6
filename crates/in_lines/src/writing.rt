// Writing events by the codec of an output.
ghost use Rattle.std.specs.Prelude.{◌≡◌, ◌++◌, IsTrue, ◌↔◌, take, length, OnOk, OnErr};
ghost use Rattle.in_lines.specs.Written.{out_bytes, event_bytes};

use crate::codec::{Codec, OutCodec};
use event_json::write_json;
use event_tree::Event;
use std::alloc::AllocError;

impl OutCodec {
    /// Appends what the output writes of these events, one behind the other: `json` and `json_lines` their
    /// JSON texts, `plain` and `line` the texts to which they fill the format, and `line` and `json_lines` a
    /// line feed behind each.
    ///
    /// Want of memory leaves the bytes as they were.
    pub fn write(&self, events: &[Event], to: &mut Vec<u8>) -> Result<(), AllocError>
        ensures ok { OnOk result (to.new.items ≡ to.old.items ++ out_bytes self.now events.now) }
        ensures err { OnErr result (to.new.items ≡ to.old.items) }
    {
        let length = to.len();
        let written = write_each(self, events, to);
        if written.is_err() {
            to.truncate(length);
        }
        written
    }
}

// What stood there before stays also where memory runs out.
fn write_each(codec: &OutCodec, events: &[Event], to: &mut Vec<u8>) -> Result<(), AllocError>
    ensures ok { OnOk result (to.new.items ≡ to.old.items ++ out_bytes codec.now events.now) }
    ensures kept { take (length to.old.items) to.new.items ≡ to.old.items }
{
    for event in events {
        write_event(codec, event, to)?;
    }
    Ok(())
}

fn write_event(codec: &OutCodec, event: &Event, to: &mut Vec<u8>) -> Result<(), AllocError>
    ensures ok { OnOk result (to.new.items ≡ to.old.items ++ event_bytes codec.now event.now) }
    ensures kept { take (length to.old.items) to.new.items ≡ to.old.items }
{
    match codec.codec {
        Codec::Plain | Codec::Line => {
            let text = codec.format.fill(event)?;
            to.extend_from_slice(text.as_str().as_bytes())?;
        }
        Codec::Json | Codec::JsonLines => write_json(event.fields(), to)?,
    }
    match codec.codec {
        Codec::Line | Codec::JsonLines => to.push(b'\n')?,
        Codec::Plain | Codec::Json => {}
    }
    Ok(())
}
