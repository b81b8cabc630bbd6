// The parts of a text that replaces a match.
use plain_data::{Items, Text};

/// A part of what is written in the place of a match.
#[derive(Drop)]
pub enum ReplacementPart {
    /// This text.
    Text(Text),
    /// What the group of this number matched, where 0 is the whole match: nothing where the group took
    /// no part, or where the pattern has no such group.
    Group(usize),
}

/// What is written in the place of a match, part by part.
pub type Replacement = Items<ReplacementPart>;
