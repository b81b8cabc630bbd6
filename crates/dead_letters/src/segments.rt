// Which segments of a queue count, and what the file says that names them.
/// Which segments of a queue count.
#[derive(Clone, Copy, Debug, PartialEq, Eq)]
pub struct Segments {
    /// The number of the oldest one.
    pub first: u32,
    /// The number of the newest one.
    pub last: u32,
    /// How many bytes of the newest one count.
    pub length: u64,
}

/// What the file says that names the segments of a queue.
#[derive(Clone, Copy, Debug, PartialEq, Eq)]
pub enum Counted {
    /// Nothing yet: no slot is intact, and the file is no longer than one.
    Nothing,
    /// The turn of the newest intact slot, and the segments that it names.
    Count(u64, Segments),
    /// What stands in the file, and what ought to stand there. These are the first segment and the last one
    /// of the newest intact slot, where the first is above the last. Where no slot is intact, and the file is
    /// longer than one, they are the CRC-32 of the slot at 0 and the computed one, or, where these are equal,
    /// its turn and the one before.
    Damaged(u64, u64),
}
