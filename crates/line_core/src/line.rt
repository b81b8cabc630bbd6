// A running pipeline.
ghost use Rattle.std.specs.Prelude.{◌≤◌, length, IfSome};
ghost use Rattle.line_inputs.specs.Sources.{LastHasRoom};
ghost use Rattle.line_core.specs.Rooms.{room_prop};

use crate::batches::LineBatch;
use crate::generation::Generation;
use event_tree::Event;
use foreign_parts::Place;
use line_folder::LineFolder;
use line_inputs::OpenInput;
use line_jobs::Close;
use line_outputs::{BoxedOutputs, OutputCall};
use plain_data::Text;
use queue_core::Batch;
use settings_lines::{PipelineSettings, Policy};
use std::alloc::Global;

/// What a pipeline's settings say of its line.
#[derive(Clone, Copy)]
pub struct LineLimits {
    /// How many workers there are.
    pub workers: u32,
    /// How many events a batch has at most: at least one.
    pub batch: u32,
    ghost some: { 1 ≤ batch },
    /// The bytes of a page of the queue.
    pub page_capacity: u64,
    /// The bytes that the queue holds.
    pub max_bytes: u64,
    /// How many writes there are at most between two marks.
    pub writes: u64,
    /// How many acknowledgements there are at most between two marks.
    pub acknowledged: u64,
    /// The bytes that the queue of dead letters holds.
    pub dead_max_bytes: u64,
    /// What is given up where it has no room.
    pub policy: Policy,
}

impl LineLimits {
    /// The limits that a pipeline's settings say. A batch has one event at least.
    pub fn of(settings: &PipelineSettings) -> LineLimits {
        LineLimits {
            workers: settings.workers,
            batch: settings.batch.max(1),
            page_capacity: settings.page_capacity,
            max_bytes: settings.max_bytes,
            writes: settings.checkpoint_writes as u64,
            acknowledged: settings.checkpoint_acks as u64,
            dead_max_bytes: settings.dead_max_bytes,
            policy: settings.storage_policy,
        }
    }
}

/// An input of a line, with what was written of it.
#[derive(Drop)]
pub(crate) struct LineInput {
    pub(crate) id: Text,
    pub(crate) open: OpenInput,
    /// The event that was taken and isn't written yet.
    pub(crate) held: Option<Event>,
    ghost named: { 1 ≤ length id },
    ghost short: { length id ≤ 255 },
    ghost room: { IfSome held (λ _. LastHasRoom open.source) } by { room_prop held open.source },
    /// Whether it has rows up to the last mark of which it wasn't told.
    pub(crate) settled: bool,
    /// Whether it has rows behind the last mark.
    pub(crate) behind: bool,
    /// Whether it was refused in this turn.
    pub(crate) refused: bool,
}

/// What was done since the last mark.
#[derive(Clone, Copy)]
pub(crate) struct SinceMark {
    pub(crate) written: u64,
    pub(crate) acknowledged: u64,
    /// The highest number that was written when the last mark was made.
    pub(crate) front: u64,
}

/// A running pipeline of one configuration.
#[derive(Drop)]
pub struct Line<F, O> {
    pub(crate) alloc: Global,
    /// Its number among pipelines.
    pub(crate) slot: u32,
    pub(crate) limits: LineLimits,
    pub(crate) folder: LineFolder,
    pub(crate) inputs: Vec<LineInput>,
    pub(crate) generation: Generation<F>,
    pub(crate) boxes: BoxedOutputs<O>,
    /// The place of letters.
    pub(crate) letters: Place,
    /// The batches that aren't acknowledged, the oldest first.
    pub(crate) batches: Vec<LineBatch>,
    /// A batch that the queue gave and of which no job was given.
    pub(crate) kept: Option<Batch>,
    pub(crate) next_batch: u64,
    pub(crate) since: SinceMark,
    /// Whether a read was refused in this turn.
    pub(crate) read_refused: bool,
}

impl<F: Close, O: OutputCall> Line<F, O> {
    /// Closes the boxes of the kits that are at home, and those of its outputs.
    pub fn close(self) {
        let Line {
            mut generation,
            boxes,
            ..
        } = self;
        generation.kits.close_all();
        let BoxedOutputs { outputs } = boxes;
        for output in outputs {
            let _ = output.close();
        }
    }
}
