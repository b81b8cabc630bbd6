// How a file is watched: from where, up to where, and by which codec.
use in_lines::Codec;

/// How a file is watched.
#[derive(Clone, Copy)]
pub struct FilePlan {
    /// A file of which nothing is recorded is read from its beginning, and not from its end.
    pub from_start: bool,
    /// The end of the file is the end of the input. Then a first reading begins at the beginning of the file, whatever
    /// `from_start` says.
    pub ends: bool,
    /// How the lines are read as events.
    pub codec: Codec,
}
