// A configuration by which batches go.
use built_plugins::Shared;
use config_tree::Config;
use graph_checks::{Drawn, PlannedOutputs};
use line_jobs::Kits;
use plain_data::{Items, Text};
use plugin_graph::Graph;

/// A configuration by which batches go, with what their jobs need of it.
#[derive(Drop)]
pub(crate) struct Generation<F> {
    pub(crate) number: u64,
    pub(crate) config: Config,
    pub(crate) draws: Items<(Text, u64)>,
    pub(crate) graph: Shared<Graph>,
    pub(crate) outgoing: Shared<PlannedOutputs>,
    pub(crate) kits: Kits<Drawn<F>>,
}
