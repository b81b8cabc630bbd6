// What the words of a command line order.
use plain_data::Text;

/// Where the configuration of a pipeline is.
#[derive(Drop)]
pub enum ConfigSource {
    /// It is this text.
    Text(Text),
    /// It is in the file of this path, or in the files that a `*` in its last part names.
    Path(Text),
    /// It is that of a sample run of so many events: 1 to 1,000,000.
    Sample(u64),
    /// There are several, in `pipelines.yml` of the settings folder.
    Pipelines,
}

/// A tool for the queue of a pipeline, of this id.
#[derive(Drop)]
pub enum QueueTool {
    /// Says how many rows the queue has, or where it is damaged.
    Check(Text),
    /// Writes what is intact into a new queue.
    Repair(Text),
}

/// What the words of a command line order.
#[derive(Drop)]
pub struct Orders {
    /// Where the configuration is; `Pipelines` where a tool is ordered.
    pub source: ConfigSource,
    /// The tool that is to run in place of pipelines.
    pub tool: Option<QueueTool>,
    /// Whether the configuration is tested alone.
    pub test: bool,
    /// Whether changes of the configuration are looked for. Never with `apart`.
    pub reload: bool,
    /// Whether each pipeline runs on a thread of its own.
    pub apart: bool,
    /// How many workers a pipeline has: 1 to 64.
    pub workers: u32,
    /// How many events a batch has at most: 1 to 10,000.
    pub batch: u32,
    /// The folder of the queues.
    pub path_data: Text,
    /// The folder of `pipelines.yml`.
    pub path_settings: Text,
    /// The id of the one pipeline that the words themselves name: 1 to 64 letters, digits, `_` and `-`.
    pub pipeline_id: Text,
}
