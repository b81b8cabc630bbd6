//! Times that texts write: items of formats, what they read of a text, and the moment that is meant. And what
//! the members of a JSON object become in an event: its time, its tags, its metadata, and its fields.
#![tactic(auto)]

mod digits;
mod iso8601;
mod item;
mod member;
mod moment;
mod month;
mod reading;
mod text;
mod zone;

pub use iso8601::{iso8601_parts, read_iso8601};
pub use item::{TimeField, TimeItem};
pub use member::{failure_tags, field_path, place};
pub use moment::{TimeParts, year_of};
pub use reading::read_time;
pub use text::{json_value, text_in};
pub use zone::read_offset;
