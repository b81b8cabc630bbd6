// The events that outputs send, sorted by their targets.
ghost use Rattle.std.specs.Prelude.{◌≡◌, ◌++◌, IfOk, OnOk};
ghost use Rattle.event_flow.specs.Meaning.{same_place};
ghost use Rattle.line_jobs.specs.Deliveries as spec;

use crate::batch_result::DueDelivery;
use built_plugins::{OutputTargets, Shared, Target};
use event_tree::{Event, Events};
use foreign_parts::Place;
use graph_checks::PlannedOutputs;
use plain_data::Items;
use plugin_graph::Sent;
use std::alloc::{AllocError, Global};
use std::mem;

/// What is due of the events that are sent: target by target, the events that go there. What is sent to none of the
/// targets is let go.
pub(crate) fn deliveries(
    alloc: Global,
    outgoing: &PlannedOutputs,
    sent: Items<Sent>,
) -> Result<Items<DueDelivery>, AllocError>
    ensures { IfOk result (λ due. due ≡ spec.deliveries_of outgoing.now sent) }
{
    let targets = outgoing.outputs.targets.as_slice();
    deliveries_to(alloc, outgoing, targets, sent)
}

fn deliveries_to(
    alloc: Global,
    outgoing: &PlannedOutputs,
    targets: &[Shared<Target>],
    sent: Items<Sent>,
) -> Result<Items<DueDelivery>, AllocError>
    ensures { IfOk result (λ due. due
        ≡ spec.deliveries_to outgoing.now targets.now sent) }
{
    let mut due = Items::new(alloc);
    let mut left = sent;
    for target in targets {
        let parted = part(alloc, target.get(), left)?;
        left = parted.others;
        add_delivery(outgoing, target, parted.events, &mut due)?;
    }
    Ok(due)
}

// The events that go to a target, and what is sent elsewhere.
#[derive(Drop)]
struct PartedSent {
    events: Events,
    others: Items<Sent>,
}

fn part(alloc: Global, target: &Target, sent: Items<Sent>) -> Result<PartedSent, AllocError>
    ensures { IfOk result (λ parted. parted ≡ spec.parted target.now sent) }
{
    let mut parted = PartedSent {
        events: Events::new(alloc),
        others: Items::new(alloc),
    };
    for each in sent.into_vec() {
        parted.add(target, each)?;
    }
    Ok(parted)
}

impl PartedSent {
    fn add(&mut self, target: &Target, sent: Sent) -> Result<(), AllocError>
        ensures { OnOk result (self.new ≡ spec.with_sent target.now sent self.old) }
    {
        if goes_to(target, &sent) {
            self.events.push(event_of(self.events.allocator(), sent))
        } else {
            self.others.push(sent)
        }
    }
}

// The event is moved out, and an empty one let go in its place.
fn event_of(alloc: Global, mut sent: Sent) -> Event
    ensures { result ≡ sent.event }
{
    mem::replace(&mut sent.event, Event::new(alloc))
}

fn goes_to(target: &Target, sent: &Sent) -> bool
    ensures { result ≡ spec.goes_to target.now sent.now }
{
    let other = sent.target.get();
    target.output.as_str() == other.output.as_str() && is_same_place(&target.place, &other.place)
}

fn is_same_place(place: &Place, other: &Place) -> bool
    ensures { result ≡ same_place place.now other.now }
{
    match (place, other) {
        (Place::Stdout, Place::Stdout) => true,
        (Place::File(path), Place::File(other)) => path.as_str() == other.as_str(),
        (Place::Address(address), Place::Address(other)) => address.as_str() == other.as_str(),
        (Place::Foreign(number), Place::Foreign(other)) => *number == *other,
        (Place::Discard, Place::Discard) => true,
        (Place::Dead, Place::Dead) => true,
        _ => false,
    }
}

// Adds what is due to a target, where there are events that go there.
fn add_delivery(
    outgoing: &PlannedOutputs,
    target: &Shared<Target>,
    events: Events,
    due: &mut Items<DueDelivery>,
) -> Result<(), AllocError>
    ensures { OnOk result (due.new
        ≡ due.old ++ spec.delivery outgoing.now target.now events) }
{
    if events.is_empty() {
        return Ok(());
    }
    let bytes = written(outgoing, target.get(), &events)?;
    let target = target.share()?;
    due.push(DueDelivery {
        target,
        events,
        bytes,
    })
}

// What the output of a target writes of events.
fn written(
    outgoing: &PlannedOutputs,
    target: &Target,
    events: &Events,
) -> Result<Items<u8>, AllocError>
    ensures { IfOk result (λ bytes. bytes
        ≡ spec.written outgoing.now target.now events.now) }
{
    let mut bytes = Vec::new(events.allocator());
    let at = place_of(outgoing.outputs.outputs.as_slice(), target.output.as_str());
    match outgoing.codec(at) {
        Some(codec) => {
            codec.write(events.as_slice(), &mut bytes)?;
            Ok(Items::from_vec(bytes))
        }
        None => Ok(Items::from_vec(bytes)),
    }
}

// The place of the output of an id among outputs, or how many there are.
fn place_of(outputs: &[OutputTargets], id: &str) -> usize
    ensures { result ≡ spec.place_of id.now outputs.now }
{
    for at in 0..outputs.len() {
        if id == outputs[at].id.as_str() {
            return at;
        }
    }
    outputs.len()
}
