// A plan: a configuration that is ready to be run.
use crate::drawn::Drawn;
use crate::planned::{PlannedInput, PlannedOutputs};
use built_plugins::Shared;
use config_tree::Config;
use foreign_parts::LinkTaker;
use plain_data::{Items, Text};
use plugin_graph::{Graph, Kit};

/// A configuration, ready to be run.
#[derive(Drop)]
pub struct Plan<F, O> {
    pub config: Config,
    /// Its steps, which the jobs of all workers share.
    pub graph: Shared<Graph>,
    /// Its inputs, in the order of the text.
    pub inputs: Items<PlannedInput>,
    /// Its outputs with their places and codecs, which the jobs share, too.
    pub outgoing: Shared<PlannedOutputs>,
    /// For each worker one, with its boxes.
    pub kits: Vec<Kit<Drawn<F>>>,
    /// The boxes of the outputs, in the order of the text.
    pub outputs: Vec<Drawn<O>>,
    /// The numbers of these boxes, by the ids of their outputs.
    pub draws: Items<(Text, u64)>,
    /// The links of its inputs on which something outside sends, by their addresses, in the order of the text. Only
    /// those that lay in the rack: others are with an input that is at work.
    pub links: Vec<(Text, LinkTaker)>,
}
