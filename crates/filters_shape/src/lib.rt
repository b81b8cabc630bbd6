//! Filters that change how many events there are: `clone`, `split` and `drop`.
#![tactic(auto)]

mod clone_filter;
mod drop_filter;
mod split_filter;

pub use clone_filter::CloneFilter;
pub use drop_filter::DropFilter;
pub use filter_settings::Applied;
pub use split_filter::SplitFilter;
