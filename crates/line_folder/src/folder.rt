// What stands in the folder of a pipeline.
use line_outputs::StoredOutputs;
use queue_core::Queue;

/// What a pipeline has in its folder, whose path ends with a slash: its queue, its dead letters, and the positions of its
/// output files, which stand outside of it.
#[derive(Drop)]
pub struct LineFolder {
    /// The queue.
    pub queue: Queue,
    /// The output files and the dead letters.
    pub outputs: StoredOutputs,
}
