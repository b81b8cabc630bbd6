// The boxed outputs of a pipeline, found by the numbers of their boxes.
ghost use Rattle.std.specs.Prelude.{◌≡◌, ◌≤◌, ◌<◌, ◌+◌, ◌↔◌, ◌++◌, ◌∷◌, [], length, IfOk, OnOk, IsTrue, vec_len, vec_capacity};
ghost use Rattle.line_outputs.specs.BoxTables.{DeliversTo, IsBoxOf, IsClosed, IsKnown, box_place};
ghost use Rattle.line_outputs.specs.NewLetters.{rejections};
ghost use Rattle.line_outputs.specs.declared.boxes.BoxedOutput.{BoxedOutput as BoxedOutputValue};

use crate::boxes::{BoxedOutput, OutputCall};
use event_tree::{DeadList, Event};
use foreign_parts::{DeliverFault, Delivery, Fate};
use std::alloc::{AllocError, Global};

/// The boxed outputs of a pipeline.
#[derive(Drop)]
pub struct BoxedOutputs<X> {
    pub outputs: Vec<BoxedOutput<X>>,
}

impl<X: OutputCall> BoxedOutputs<X> {
    /// No output yet.
    pub fn new(alloc: Global) -> BoxedOutputs<X>
        ensures { result.outputs.items ≡ [] }
    {
        BoxedOutputs {
            outputs: Vec::new(alloc),
        }
    }

    /// Makes room for so many outputs more, which can then be added without memory.
    pub fn reserve(&mut self, more: usize) -> Result<(), AllocError>
        ensures items { self.new.outputs.items ≡ self.old.outputs.items }
        ensures room { OnOk result
            (vec_len self.new.outputs + more ≤ vec_capacity self.new.outputs) }
    {
        self.outputs.reserve(more)
    }

    /// Adds an output behind the last, for which there is room.
    pub fn add(&mut self, output: BoxedOutput<X>)
        requires { vec_len self.old.outputs < vec_capacity self.old.outputs }
        ensures items { self.new.outputs.items ≡ self.old.outputs.items ++ output ∷ [] }
        ensures room { vec_capacity self.new.outputs ≡ vec_capacity self.old.outputs }
    {
        self.outputs.push_reserved(output);
    }

    /// Whether there is an output of this number.
    pub fn is_known(&self, number: u64) -> bool
        ensures { IsTrue result ↔ IsKnown X.number number self.now.outputs.items }
    {
        place_of(self.outputs.as_slice(), number) < self.outputs.len()
    }

    /// Delivers events, of which there is one at least, to the output of a number, as [`BoxedOutput::deliver`].
    pub fn deliver(&mut self, number: u64, events: &[Event]) -> Result<Delivery, DeliverFault>
        requires known { IsKnown X.number number self.old.outputs.items }
        requires some { 0 < length events.now }
        ensures { DeliversTo X.number X.held X.faults X.laters X.closes number events.now result
            self.old.outputs.items self.new.outputs.items }
    {
        let at = place_of(self.outputs.as_slice(), number);
        self.outputs[at].deliver(events)
    }

    /// The events that the output of a number rejected, by the fates that it answered, as
    /// [`BoxedOutput::rejections`].
    ///
    /// An error is want of memory; it can be asked again.
    pub fn rejections(
        &self,
        number: u64,
        fates: &[Fate],
        events: &[Event],
    ) -> Result<DeadList, AllocError>
        requires known { IsKnown X.number number self.now.outputs.items }
        requires each { length fates.now ≡ length events.now }
        ensures { IfOk result (λ parts. (b : BoxedOutputValue X)
            → IsBoxOf X.number number self.now.outputs.items b
            → parts ≡ rejections b.kind b.id fates.now events.now) }
    {
        let at = place_of(self.outputs.as_slice(), number);
        self.outputs[at].rejections(fates, events)
    }

    /// Closes the output of a number, takes it away and gives it back.
    pub fn close(&mut self, number: u64) -> X
        requires { IsKnown X.number number self.old.outputs.items }
        ensures { IsClosed X.number X.held X.faults X.laters X.closes number result
            self.old.outputs.items self.new.outputs.items }
    {
        let at = place_of(self.outputs.as_slice(), number);
        self.outputs.remove(at).close()
    }
}

// The place of the output of a number, or how many there are.
fn place_of<X: OutputCall>(outputs: &[BoxedOutput<X>], number: u64) -> usize
    ensures { result ≡ box_place X.number number outputs.now }
{
    for at in 0..outputs.len() {
        if outputs[at].has_number(number) {
            return at;
        }
    }
    outputs.len()
}
