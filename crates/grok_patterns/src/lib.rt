//! What grok patterns stand for: how they are written, the library of patterns with names, and the regular
//! expression to which a pattern is expanded.
#![tactic(auto)]

mod expansion;
mod library;
mod piece;
mod scan;

pub use expansion::{Capture, Expanded, ExpansionRules, PatternLibrary, expand, known_patterns};
pub use library::LIBRARY;
pub use piece::{Coercion, Field, PatternPiece, PatternPieces, read_pieces};
pub use scan::{Scan, ScanState};
