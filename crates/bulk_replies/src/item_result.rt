// What a bulk reply says of one event.
use plain_data::Text;

/// What a reply says of an event.
#[derive(Drop)]
pub enum ItemResult {
    /// It was taken: its item has a status from 200 to 299.
    Took,
    /// It is refused for good: its item has this status, 400 or 404, and this reason, which has at most 65,536 bytes.
    Rejected(u16, Text),
    /// It may be sent again: its item has any other status.
    Retry,
}
