//! Events as text: JSON, templates, and times. What a value is shown by walks it once, and recurses
//! once for each level of lists.
#![tactic(auto)]

mod applied;
mod date_format;
mod event_changes;
pub mod laws;
mod options;
pub mod path_laws;
mod path_text;
mod shown;
mod template;
pub mod value_laws;

pub use applied::Applied;
pub use date_format::DatePart;
pub use event_changes::{add_tag, remove_tag, try_put, values};
pub use event_json::{JsonFault, number_of, read_json, time_text, write_json};
pub use options::Options;
pub use path_text::path_in;
pub use shown::value_text;
pub use template::{Template, TemplatePart, event_time};
