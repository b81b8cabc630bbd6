//! The output `elasticsearch`, which sends batches by requests of Elasticsearch's bulk API.
#![tactic(auto)]

mod action;
mod bulk;
mod fates;
mod hosts;
mod memory_peer;
mod output;
mod peer;
mod request;
mod settings;
mod tcp_peer;

pub use bulk::Bulk;
pub use memory_peer::{MemoryPeer, PeerRequest};
pub use peer::{Peer, PeerFault};
pub use settings::BulkSettings;
pub use tcp_peer::TcpPeer;
