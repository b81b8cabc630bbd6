// A look at a source: what came, and when.
use plain_data::Instant;

/// What a look at a source found.
#[derive(Drop)]
pub enum Piece {
    /// Bytes came.
    Bytes(Vec<u8>),
    /// The input is at its end: nothing is read behind it.
    End,
    /// Nothing came so far.
    Nothing,
}

/// A look at a source.
#[derive(Drop)]
pub struct Poll {
    /// The moment of the clock at which it was made.
    pub moment: Instant,
    /// What it found.
    pub piece: Piece,
}
