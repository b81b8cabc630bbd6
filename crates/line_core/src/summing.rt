// What a line can do now.
ghost use Rattle.std.specs.Prelude.{◌≡◌, ◌<◌, false, length, map, IfSome};
ghost use Rattle.line_core.specs.Batches.{IsOut, stage_in};
ghost use Rattle.line_core.specs.Parts.{batches_of, folder_of, inputs_of};
ghost use Rattle.line_core.specs.Readiness.{CanDeliver, IsSame, connections_by, watched_by};

use crate::batches::{LineBatch, place_of};
use crate::line::{Line, LineInput};
use config_tree::Config;
use foreign_parts::{FilterCall, Place};
use line_machine::Summary;
use line_outputs::OutputCall;

impl<F: FilterCall, O: OutputCall> Line<F, O> {
    /// What it can do, less what was refused in this turn; a fresh one begins a turn. It takes no memory.
    pub fn summary(&mut self, fresh: bool) -> Summary
        ensures can { CanDeliver O.number self.old → CanDeliver O.number self.new }
        ensures same { IsSame self.old self.new }
        ensures folder { folder_of self.new ≡ folder_of self.old }
        ensures files { watched_by (inputs_of self.new) ≡ watched_by (inputs_of self.old) }
        ensures connections { connections_by (inputs_of self.new)
            ≡ connections_by (inputs_of self.old) }

        // What it shows is there.
        ensures deliver { IfSome result.deliver (λ n. IsOut n (batches_of self.new)) }
        ensures finished { IfSome result.finished (λ n. IsOut n (batches_of self.new)) }
        ensures assure { IfSome result.assure (λ at. at < length (inputs_of self.new)) }
        ensures held { IfSome result.held (λ at. at < length (inputs_of self.new)) }
        ensures poll { IfSome result.poll (λ at. at < length (inputs_of self.new)) }
    {
        self.begin_turn(fresh);
        self.shown()
    }

    // What it can do, less what was refused.
    fn shown(&self) -> Summary
        ensures deliver { IfSome result.deliver (λ n. IsOut n (batches_of self.now)) }
        ensures finished { IfSome result.finished (λ n. IsOut n (batches_of self.now)) }
        ensures assure { IfSome result.assure (λ at. at < length (inputs_of self.now)) }
        ensures held { IfSome result.held (λ at. at < length (inputs_of self.now)) }
        ensures poll { IfSome result.poll (λ at. at < length (inputs_of self.now)) }
    {
        let unread = self.unread_now();
        Summary {
            take: is_one_away(self.batches.as_slice()),
            deliver: first_to_deliver(self.batches.as_slice()),
            finished: first_finished(self.batches.as_slice()),
            answer: None,
            due: self.is_mark_due(),
            assure: first_settled(self.inputs.as_slice()),
            purge: self.folder.has_spent_page(),
            held: first_held(self.inputs.as_slice()),
            unread,
            whole_batch: unread >= self.limits.batch as u64,
            uncovered: self.since.written > 0 || self.since.acknowledged > 0,
            poll: first_to_poll(self.inputs.as_slice()),
        }
    }

    // Begins a turn, where it is a fresh one: nothing was refused in it.
    fn begin_turn(&mut self, fresh: bool)
        ensures can { CanDeliver O.number self.old → CanDeliver O.number self.new }
        ensures same { IsSame self.old self.new }
        ensures folder { folder_of self.new ≡ folder_of self.old }
        ensures files { watched_by (inputs_of self.new) ≡ watched_by (inputs_of self.old) }
        ensures connections { connections_by (inputs_of self.new)
            ≡ connections_by (inputs_of self.old) }
    {
        if !fresh {
            return;
        }
        self.read_refused = false;
        forget_batches(&mut self.batches);
        forget_inputs(&mut self.inputs);
    }

    // How many rows are unread; none where as many batches are out as may be, or a read was refused.
    fn unread_now(&self) -> u64 {
        let most = 2 * self.limits.workers as usize;
        if self.read_refused || self.batches.len() >= most {
            return 0;
        }
        self.unread()
    }

    // Whether so much was done since the last mark that another is due.
    fn is_mark_due(&self) -> bool {
        self.since.written >= self.limits.writes
            || self.since.acknowledged >= self.limits.acknowledged
    }

    /// The next place to which something of a batch is delivered, where one is left.
    pub fn next_place(&self, batch: u64) -> Option<&Place> {
        let at = place_of(self.batches.as_slice(), batch);
        match self.batches.as_slice().get(at) {
            Some(batch) => batch.next_place(&self.letters),
            None => None,
        }
    }

    /// The configuration by which its batches go.
    pub fn config(&self) -> &Config {
        &self.generation.config
    }
}

impl LineBatch {
    // It wasn't refused in this turn.
    fn forget_refusal(&mut self)
        ensures { self.new ≡ record self.old { refused = false } }
    {
        self.refused = false;
    }
}

impl LineInput {
    // It wasn't refused in this turn.
    fn forget_refusal(&mut self)
        ensures { self.new ≡ record self.old { refused = false } }
    {
        self.refused = false;
    }

    // Whether an event is held, or is to come before another poll.
    fn holds(&self) -> bool {
        self.held.is_some() || self.open.holds()
    }
}

fn is_one_away(batches: &[LineBatch]) -> bool {
    for batch in batches {
        if batch.is_away() {
            return true;
        }
    }
    false
}

// No batch was refused.
fn forget_batches(batches: &mut Vec<LineBatch>)
    ensures { map stage_in batches.new.items ≡ map stage_in batches.old.items }
{
    for at in 0..batches.len() {
        batches[at].forget_refusal();
    }
}

// No input was refused.
fn forget_inputs(inputs: &mut Vec<LineInput>)
    ensures files { watched_by inputs.new.items ≡ watched_by inputs.old.items }
    ensures connections { connections_by inputs.new.items ≡ connections_by inputs.old.items }
    ensures many { length inputs.new.items ≡ length inputs.old.items }
{
    for at in 0..inputs.len() {
        inputs[at].forget_refusal();
    }
}

fn first_to_deliver(batches: &[LineBatch]) -> Option<u64>
    ensures { IfSome result (λ n. IsOut n batches.now) }
{
    for at in 0..batches.len() {
        let batch = &batches[at];
        if batch.has_left() && !batch.refused {
            return Some(batch.number);
        }
    }
    None
}

fn first_finished(batches: &[LineBatch]) -> Option<u64>
    ensures { IfSome result (λ n. IsOut n batches.now) }
{
    for at in 0..batches.len() {
        let batch = &batches[at];
        if batch.is_finished() {
            return Some(batch.number);
        }
    }
    None
}

fn first_settled(inputs: &[LineInput]) -> Option<usize>
    ensures { IfSome result (λ at. at < length inputs.now) }
{
    for at in 0..inputs.len() {
        if inputs[at].settled {
            return Some(at);
        }
    }
    None
}

fn first_held(inputs: &[LineInput]) -> Option<usize>
    ensures { IfSome result (λ at. at < length inputs.now) }
{
    for at in 0..inputs.len() {
        if inputs[at].holds() && !inputs[at].refused {
            return Some(at);
        }
    }
    None
}

fn first_to_poll(inputs: &[LineInput]) -> Option<usize>
    ensures { IfSome result (λ at. at < length inputs.now) }
{
    for at in 0..inputs.len() {
        let input = &inputs[at];
        if !input.holds() && !input.open.is_ended() && !input.refused {
            return Some(at);
        }
    }
    None
}
