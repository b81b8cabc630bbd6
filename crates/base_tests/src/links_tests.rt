// Tests of links between pipelines: parcels, answers and full rings.
ghost use Rattle.std.specs.Prelude.{◌≡◌, IfOk, length};

use event_tree::Event;
use pipeline_bus::{Answer, Heard, Link, LinkSender, LinkTaker, Parcel};
use plain_data::{Items, Text};
use std::alloc::{AllocError, Global};
use std::test::Fail;

fn needs_send<T: Send>(_it: &T) {}

/// A parcel with one empty event.
fn full(alloc: Global, number: u64) -> Result<Parcel, AllocError>
    ensures number { IfOk result (λ made. made.number ≡ number) }
    ensures events { IfOk result (λ made. length made.events ≡ 1) }
{
    let mut events = Items::new(alloc);
    events.push(Event::new(alloc))?;
    Ok(Parcel {
        number,
        address: Text::of(alloc, "q")?,
        events,
    })
}

/// A parcel without events.
fn last(alloc: Global) -> Result<Parcel, AllocError>
    ensures number { IfOk result (λ made. made.number ≡ 0) }
    ensures events { IfOk result (λ made. length made.events ≡ 0) }
{
    Ok(Parcel {
        number: 0,
        address: Text::of(alloc, "q")?,
        events: Items::new(alloc),
    })
}

fn is_full_one(parcel: &Option<Parcel>) -> bool {
    matches!(parcel, Some(it) if it.number == 1 && it.events.len() == 1)
}

fn is_assured(heard: Option<Answer>) -> bool {
    heard
        == Some(Answer {
            number: 1,
            answer: Heard::Assured,
        })
}

// Takes a parcel away; whether it is the first one, with its event.
fn takes_full(taker: &mut LinkTaker) -> bool {
    is_full_one(&taker.take())
}

// Takes a parcel away, if there is one.
fn takes_any(taker: &mut LinkTaker) -> bool {
    taker.take().is_some()
}

#[test]
#[tactic(auto, unfolding(pipeline_bus::specs::Parcels::with_events))]
fn a_parcel_and_its_answer(rt: HostRuntime) -> Result<(), Fail> {
    let (mut sender, mut taker) = Link::pair(rt.alloc())?;
    let pushed = sender.push(full(rt.alloc(), 1)?).is_none();
    let taken = is_full_one(&taker.take());
    let none = taker.take().is_none();
    let told = taker.tell(Answer {
        number: 1,
        answer: Heard::Assured,
    });
    let heard = is_assured(sender.answer());
    let missed = taker.take_misses() == 1 && sender.push_misses() == 0;
    assert!(rt; pushed && taken && none && told.is_none() && heard && missed);
    Ok(())
}

#[test]
fn a_full_ring_hands_the_parcel_back(rt: HostRuntime) -> Result<(), Fail> {
    let (mut sender, mut taker) = Link::pair(rt.alloc())?;
    let mut came_back = false;
    for _ in 0..17u32 {
        came_back = sender.push(last(rt.alloc())?).is_some();
    }
    let taken = takes_any(&mut taker) && taker.ended();
    let pushed = sender.push(last(rt.alloc())?);
    assert!(rt; came_back && taken && pushed.is_none() && sender.push_misses() == 1);
    Ok(())
}

#[test]
#[tactic(auto, unfolding(pipeline_bus::specs::Parcels::with_events))]
fn what_waits_is_counted_and_stays(rt: HostRuntime) -> Result<(), Fail> {
    let (mut sender, mut taker) = Link::pair(rt.alloc())?;
    let _first = sender.push(full(rt.alloc(), 1)?);
    let _second = sender.push(last(rt.alloc())?);
    let waiting = taker.waiting() == 1 && taker.waiting() == 1 && !taker.ended();
    Link::beside(&mut sender, &mut taker);
    let first = takes_full(&mut taker) && taker.waiting() == 0;
    let second = takes_any(&mut taker) && taker.ended();
    assert!(rt; waiting && first && second && !takes_any(&mut taker));
    Ok(())
}

/// Ends of links may move to other threads.
fn sends(sender: &LinkSender) {
    needs_send(sender);
}

fn takes(taker: &LinkTaker) {
    needs_send(taker);
}

#[test]
fn ends_may_move_to_other_threads(rt: HostRuntime) -> Result<(), Fail> {
    let (sender, taker) = Link::pair(rt.alloc())?;
    sends(&sender);
    takes(&taker);
    Ok(())
}
