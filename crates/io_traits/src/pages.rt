// What a checkpoint records of a page of a queue.
/// What a checkpoint says of a page of a queue.
#[derive(Clone, Copy)]
pub struct PageState {
    /// The number of the page.
    pub page: u32,
    /// The number of its first row that isn't acknowledged, or that of its last row and 1.
    pub first_open: u64,
    /// The number of its first row, or the one that this will have.
    pub least: u64,
    /// How many rows it has.
    pub count: u32,
    /// How many bytes it has.
    pub length: u64,
}
