// Events as they are printed: the message and the moment, or the path of the file.
use event_tree::{Event, Path, Value};
use std::alloc::AllocError;

/// How many bytes of a message are shown at most.
const SHOWN: usize = 40;

/// Adds the message of an event and the seconds of its moment.
pub fn add_event(to: &mut String, event: &Event) -> Result<(), AllocError> {
    add_message(to, event)?;
    to.push('@')?;
    add_seconds(to, event)
}

// Of a long message its length and its last bytes.
fn add_message(to: &mut String, event: &Event) -> Result<(), AllocError> {
    let Ok(path) = Path::read(*to.allocator(), "message") else {
        return Err(AllocError);
    };
    match event.get(&path) {
        Some(Value::Text(text)) if text.len() > SHOWN => write!(to, "{} bytes", text.len()),
        Some(Value::Text(text)) => to.push_str(text.as_str()),
        _ => to.push_str("no message"),
    }
}

fn add_seconds(to: &mut String, event: &Event) -> Result<(), AllocError> {
    let Ok(path) = Path::read(*to.allocator(), "[@timestamp]") else {
        return Err(AllocError);
    };
    match event.get(&path) {
        Some(Value::Time(moment)) => write!(to, "{}", moment.nanos() / 1_000_000_000),
        _ => to.push_str("no moment"),
    }
}

/// Adds the path of the file of which an event is a line.
pub fn add_path(to: &mut String, event: &Event) -> Result<(), AllocError> {
    let Ok(path) = Path::read(*to.allocator(), "[log][file][path]") else {
        return Err(AllocError);
    };
    match event.get(&path) {
        Some(Value::Text(text)) => write!(to, "of {}", text.as_str()),
        _ => to.push_str("of no file"),
    }
}
