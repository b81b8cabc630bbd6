// The limits of a queue's bytes, and ranges of row numbers.
/// How large the pages of a queue, and a queue as a whole, may become.
#[derive(Clone, Copy)]
pub struct Limits {
    /// How many bytes a page may have, unless it has a single row.
    pub page_capacity: u64,
    /// How many bytes all pages may have together, while a row isn't acknowledged.
    pub max_bytes: u64,
}

/// Numbers of rows, one behind the other.
#[derive(Clone, Copy)]
pub struct Numbers {
    /// The first number.
    pub first: u64,
    /// The number behind the last.
    pub behind: u64,
}
