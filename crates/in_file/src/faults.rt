//! Why an input of files was not opened.

use io_traits::Damage;

/// Why an input was not opened.
#[derive(Drop)]
pub enum OpenFault {
    /// A call of the store failed, and its count of faults rose.
    Store,
    /// A call of the files failed, and their count of faults rose.
    Files,
    /// The position file is damaged.
    Damaged(Damage),
    /// There was no memory for it.
    Memory,
}
