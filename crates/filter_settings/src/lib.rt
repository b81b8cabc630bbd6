//! What all filters share: their settings, read once and in the order of the text.
//!
//! A filter is a struct with its settings. It says what one setting makes of it (`SetByName`), and
//! `read_settings` goes through all. The readers take the value of a setting as one kind, and refuse it as
//! `WrongKind` of its name otherwise. `Options` are the settings that every filter has.
#![tactic(auto)]

mod conversion;
mod copies;
mod faults;
mod field_changes;
mod hashes;
mod items;
mod keeping;
mod lists;
mod options;
mod paths;
mod pieces;
mod reading;
mod values;

pub use config_tree::{FromFault, SettingFault, SettingValue, Settings};
pub use conversion::{Conversion, convert};
pub use copies::add_copies;
pub use event_text::{Applied, Options, add_tag, try_put};
pub use faults::{bad_pattern, wanted};
pub use field_changes::{Change, change_at, finish, one_applied, one_event, put_at};
pub use hashes::{
    hash_of, read_field_conversions, read_field_lists, read_field_paths, read_field_templates,
    read_field_texts,
};
pub use items::text_item;
pub use keeping::{assign, assign_some, not_kept, unless_refused};
pub use lists::{read_paths, read_templates, read_texts};
pub use options::set_option;
pub use paths::{field_named, is_same, path_under, written};
pub use pieces::split_text;
pub use reading::{SetByName, read_settings, require};
pub use values::{read_flag, read_id, read_path, read_template, read_text};
