// The flat steps of statements and of an arm's block.
use crate::step::FlowStep;
use plain_data::Items;

/// The steps of statements, and the numbers of the plugin and of the condition that come next.
#[derive(Drop)]
pub struct Flattened {
    pub steps: Items<FlowStep>,
    pub plugin: u64,
    pub condition: u64,
}

/// The steps of an arm's block, and the number of its condition.
#[derive(Drop)]
pub struct Block {
    pub condition: Option<u64>,
    pub steps: Items<FlowStep>,
}
