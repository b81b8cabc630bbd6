//! What the reply to a bulk request says of each event: the head and the body of an HTTP message (RFC 9112),
//! and in the body the items of Elasticsearch's bulk API.
#![tactic(auto)]

mod answers;
mod chunks;
mod compact;
mod fields;
mod framing;
mod head;
mod item;
mod item_result;
mod passing;
mod plain;
mod reply;
mod tokens;

pub use item_result::ItemResult;
pub use plain_data::{Items, Text};
pub use reply::{Reply, is_whole, read_reply};
