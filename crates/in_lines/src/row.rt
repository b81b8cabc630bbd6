// The row of an event as the codec `json_lines` writes it.
ghost use Rattle.std.specs.Prelude.{◌≡◌, ◌++◌, OnOk, OnErr};
ghost use Rattle.in_lines.specs.Rows.{row_of};

use event_json::write_json;
use event_tree::Value;
use std::alloc::AllocError;

/// Appends the row of an event as the codec `json_lines` writes it: its JSON text and a line feed.
///
/// Want of memory leaves the bytes as they were.
pub fn write_row(event: &Value, to: &mut Vec<u8>) -> Result<(), AllocError>
    ensures ok { OnOk result (to.new.items ≡ to.old.items ++ row_of event.now) }
    ensures err { OnErr result (to.new.items ≡ to.old.items) }
{
    let length = to.len();
    write_json(event, to)?;
    let ended = to.push(b'\n');
    if ended.is_err() {
        to.truncate(length);
    }
    Ok(ended?)
}
