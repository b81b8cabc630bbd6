// Addresses with their listeners, and the ends of links that a pipeline is given.
use crate::link::{LinkSender, LinkTaker};
use plain_data::{Items, Text};

/// Who listens on an address: an input of a pipeline, each by its place.
#[derive(Drop)]
pub struct Listener {
    pub address: Text,
    pub pipeline: u64,
    pub input: u64,
}

/// The table of listeners.
#[derive(Drop)]
pub struct Addresses {
    pub listeners: Items<Listener>,
}

/// The ends of links that a pipeline is given, each with the address that the link is of.
#[derive(Drop)]
pub struct LinkEnds {
    pub senders: Items<(Text, LinkSender)>,
    pub takers: Items<(Text, LinkTaker)>,
}
