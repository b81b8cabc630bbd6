//! The filter `date`: a field whose text or number names a moment gives the event its time.
#![tactic(auto)]

mod date_filter;
mod format;
mod unix;

pub use date_filter::DateFilter;
pub use filter_settings::Applied;
pub use format::DateFormat;
