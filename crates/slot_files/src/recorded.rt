// What a position file records, or how it is damaged.
/// What a position file records.
#[derive(Clone, Copy)]
pub enum Recorded {
    /// No position yet: no slot is intact, and the file is no longer than one.
    Nothing,
    /// The turn of the newest intact slot, and the position that it says, in bytes.
    Position(u64, u64),
    /// No slot is intact, and the file is longer than one: what stands in the slot at 0, and what ought to
    /// stand there. These are its CRC-32 and the computed one, or, where they are equal, its turn and the
    /// one before.
    Damaged(u64, u64),
}
