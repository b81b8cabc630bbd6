// The settings of a pipeline, and the policies of its dead letter queue.
use crate::orders::ConfigSource;
use plain_data::Text;

/// What becomes of a dead letter for which the queue of dead letters has no room.
#[derive(Clone, Copy)]
pub enum Policy {
    /// The run ends, and nothing is lost.
    Hold,
    /// The new letter is given up.
    DropNewer,
    /// The oldest letters are given up.
    DropOlder,
}

/// The settings of a pipeline.
#[derive(Drop)]
pub struct PipelineSettings {
    /// 1 to 64 letters, digits, `_` and `-`.
    pub pipeline_id: Text,
    /// The folder of the queues, which is that of the orders.
    pub path_data: Text,
    /// `Text` or `Path`, where the settings are those of `pipelines.yml`.
    pub source: ConfigSource,
    /// How many workers there are: 1 to 64.
    pub workers: u32,
    /// How many events a batch has at most: 1 to 10,000.
    pub batch: u32,
    /// The bytes of a page of the queue: 1 to 1,024 GiB.
    pub page_capacity: u64,
    /// The bytes that the queue holds: 1 to 1,024 GiB.
    pub max_bytes: u64,
    /// How many writes there are at most between two checkpoints: 1 to 1,000,000.
    pub checkpoint_writes: u32,
    /// How many acknowledgements there are at most between two checkpoints: 1 to 1,000,000.
    pub checkpoint_acks: u32,
    /// Whether a stop waits until the queue is acknowledged.
    pub drain: bool,
    /// The bytes that the queue of dead letters holds: 0 to 1,024 GiB.
    pub dead_max_bytes: u64,
    pub storage_policy: Policy,
}
