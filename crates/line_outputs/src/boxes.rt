// The boxed outputs of a pipeline.
ghost use Rattle.std.specs.Prelude.{◌≡◌, ◌<◌, ◌==◌, ◌++◌, [], length, IfOk, OnOk};
ghost use Rattle.io_traits.specs.Counts.{HasCause, one_more};
ghost use Rattle.io_traits.specs.Telling.{Grows};
ghost use Rattle.foreign_parts.specs.Delivering.{Delivers, HadFault, WasLater};
ghost use Rattle.line_outputs.specs.NewLetters.{rejection, rejections, status_reason};

use event_tree::{DeadList, DeadPart, Event, Text};
use foreign_parts::{DeliverFault, Delivery, Fate, ForeignOutput, PluggedOutput};
use itoa::Buffer;
use std::alloc::{AllocError, Global};

/// What a boxed output is to a pipeline: it takes events, and is closed.
pub trait OutputCall: Drop {
    ghost use Rattle.std.specs.Prelude.{◌≡◌, ◌<◌, ℕ, List, [], Option, length};
    ghost use Rattle.io_traits.specs.Counts.{HasCause, one_more};
    ghost use Rattle.io_traits.specs.Telling.{Grows};
    ghost use Rattle.event_tree.specs.Events.{Ev};
    ghost use Rattle.foreign_parts.specs.Delivering.{Delivers, HadFault, WasLater};

    /// The type of the box.
    type Inside: Drop;

    /// The number that it has of its own.
    ghost number: { Self → ℕ };

    /// The events that it holds, where it tells them.
    ghost held: { Self → Option (List Ev) };

    /// How often a delivery failed.
    ghost faults: { Self → ℕ };

    /// How often it answered that it takes events later.
    ghost laters: { Self → ℕ };

    /// How often it was closed, as far as a number of 64 bits counts.
    ghost closes: { Self → ℕ };

    /// Tells its number.
    fn own_number(&self) -> u64
        ensures { result ≡ number self.now };

    /// Delivers events, of which there is one at least, as [`ForeignOutput::deliver`].
    fn deliver(&mut self, events: &[Event]) -> Result<Delivery, DeliverFault>
        requires { 0 < length events.now }
        ensures number { number self.new ≡ number self.old }
        ensures held { Delivers result events.now (held self.old) (held self.new) }
        ensures faults { HasCause (faults self.old) (faults self.new) (HadFault result) }
        ensures laters { HasCause (laters self.old) (laters self.new) (WasLater result) }
        ensures closes { closes self.new ≡ closes self.old };

    /// Its last call.
    fn close(&mut self)
        ensures number { number self.new ≡ number self.old }
        ensures held { Grows (held self.old) (held self.new) [] }
        ensures faults { faults self.new ≡ faults self.old }
        ensures laters { laters self.new ≡ laters self.old }
        ensures closes { closes self.new ≡ one_more (closes self.old) };
}

// `ForeignOutput-box` stands for the box's members where the impl names the type of the box.
impl OutputCall for PluggedOutput {
    type Inside = Box<dyn ForeignOutput>;

    ghost number = { λ p. p.number };

    ghost held = { λ p. (ForeignOutput-box p.output).held p.output.value };

    ghost faults = { λ p. (ForeignOutput-box p.output).faults p.output.value };

    ghost laters = { λ p. (ForeignOutput-box p.output).laters p.output.value };

    ghost closes = { λ p. (ForeignOutput-box p.output).closes p.output.value };

    fn own_number(&self) -> u64 {
        self.number
    }

    fn deliver(&mut self, events: &[Event]) -> Result<Delivery, DeliverFault> {
        self.output.deliver(events)
    }

    fn close(&mut self) {
        self.output.close();
    }
}

/// A boxed output, with what the dead letters of the events say that it rejects.
#[derive(Drop)]
pub struct BoxedOutput<X> {
    /// The name of its plugin.
    pub kind: Text,
    /// Its id.
    pub id: Text,
    pub output: X,
}

impl<X: OutputCall> BoxedOutput<X> {
    /// Whether its box has this number.
    pub(crate) fn has_number(&self, number: u64) -> bool
        ensures { result ≡ (X.number self.now.output == number) }
    {
        self.output.own_number() == number
    }

    /// Delivers events, of which there is one at least, and hands on what the output answers; it takes no
    /// memory of its own, so that nothing is lost of what the output took.
    ///
    /// `Took` has a fate for each event; `Later` says that it took none. `Failed` is the output's own
    /// fault, and it may hold some events from their front; behind `Memory` it holds none.
    pub fn deliver(&mut self, events: &[Event]) -> Result<Delivery, DeliverFault>
        requires { 0 < length events.now }
        ensures names { (self.new.kind ≡ self.old.kind) × (self.new.id ≡ self.old.id) }
        ensures number { X.number self.new.output ≡ X.number self.old.output }
        ensures held { Delivers result events.now (X.held self.old.output) (X.held self.new.output) }
        ensures faults { HasCause (X.faults self.old.output) (X.faults self.new.output)
            (HadFault result) }
        ensures laters { HasCause (X.laters self.old.output) (X.laters self.new.output)
            (WasLater result) }
        ensures closes { X.closes self.new.output ≡ X.closes self.old.output }
    {
        self.output.deliver(events)
    }

    /// The events that the output rejected, by the fates that it answered: each with the name of its plugin,
    /// its id, the reason `status <code>: <text>`, and the event, copied.
    ///
    /// An error is want of memory; it can be asked again.
    pub fn rejections(&self, fates: &[Fate], events: &[Event]) -> Result<DeadList, AllocError>
        requires { length fates.now ≡ length events.now }
        ensures { IfOk result (λ parts. parts
            ≡ rejections self.now.kind self.now.id fates.now events.now) }
    {
        rejections(
            self.kind.as_str(),
            self.id.as_str(),
            self.kind.allocator(),
            fates,
            events,
        )
    }

    /// Closes the output, once and for all, and gives it back.
    pub fn close(self) -> X
        ensures number { X.number result ≡ X.number self.output }
        ensures held { Grows (X.held self.output) (X.held result) [] }
        ensures faults { X.faults result ≡ X.faults self.output }
        ensures laters { X.laters result ≡ X.laters self.output }
        ensures closes { X.closes result ≡ one_more (X.closes self.output) }
    {
        let BoxedOutput { mut output, .. } = self;
        output.close();
        output
    }
}

fn rejections(
    kind: &str,
    id: &str,
    alloc: Global,
    fates: &[Fate],
    events: &[Event],
) -> Result<DeadList, AllocError>
    requires { length fates.now ≡ length events.now }
    ensures { IfOk result (λ parts. parts ≡ rejections kind.now id.now fates.now events.now) }
{
    let mut parts = DeadList::new(alloc);
    for at in 0..fates.len() {
        push_rejection(&mut parts, kind, id, &fates[at], &events[at])?;
    }
    Ok(parts)
}

// What is not delivered of an event, by its fate.
fn push_rejection(
    parts: &mut DeadList,
    kind: &str,
    id: &str,
    fate: &Fate,
    event: &Event,
) -> Result<(), AllocError>
    ensures { OnOk result (parts.new
        ≡ parts.old ++ rejection kind.now id.now fate.now event.now) }
{
    match fate {
        Fate::Took => Ok(()),
        Fate::Rejected(status, text) => {
            let alloc = parts.allocator();
            parts.push(DeadPart {
                kind: Text::of(alloc, kind)?,
                id: Text::of(alloc, id)?,
                reason: status_reason(alloc, *status, text.as_str())?,
                event: event.copy()?,
            })
        }
    }
}

// What is said of an event that was rejected.
fn status_reason(alloc: Global, status: u16, text: &str) -> Result<Text, AllocError>
    ensures { IfOk result (λ reason. reason ≡ status_reason status text.now) }
{
    let mut reason = String::new(alloc);
    reason.push_str("status ")?;
    reason.push_str(Buffer::new().format(status))?;
    reason.push_str(": ")?;
    reason.push_str(text)?;
    Ok(Text::from_string(reason))
}
