//! Parcels there and back on a link between two threads (bench/threads.sh).

ghost use Rattle.std.specs.Prelude.{◌≡◌, IfOk, IfSome, length};
ghost use Rattle.pipeline_bus.specs.Parcels.{with_events};
ghost use Rattle.pipeline_bus.specs.Ends.{sending, taking, no_sending, no_taking};

use event_tree::Event;
use pipeline_bus::{Answer, Heard, Link, LinkSender, LinkTaker, Parcel};
use plain_data::{Items, Text};
use std::alloc::{AllocError, Global};
use std::thread::Threads;
use std::{hint, io, thread};

/// Sends as many parcels as these words order, and gives how many answers were heard.
pub fn run<R: Threads>(rt: &R, alloc: Global, words: &[String]) -> Option<u64> {
    let [parcels] = words else {
        return None;
    };
    let parcels = parcels.as_str().parse::<u32>().ok()?;
    there_and_back(rt, alloc, u64::from(parcels)).ok()?
}

/// A parcel with one empty event.
fn parcel(alloc: Global, number: u64) -> Result<Parcel, AllocError>
    ensures number { IfOk result (λ made. made.number ≡ number) }
    ensures events { IfOk result (λ made. length made.events ≡ 1) }
{
    let mut events = Items::new(alloc);
    events.push(Event::new(alloc))?;
    Ok(Parcel {
        number,
        address: Text::of(alloc, "q")?,
        events,
    })
}

/// What a thread of its own does with an end of a link. It stands here for the proof that an end may be sent, which is found
/// where `Send` is among the bounds of a type, and not of a closure that takes the end itself.
trait End: Send + Drop {
    /// The end is as its work begins with it.
    ghost is_new: { Self → Type 0 };

    fn work(self, parcels: u64)
        requires { is_new self };
}

impl End for LinkTaker {
    ghost is_new = { λ taker. taking taker ≡ no_taking };

    fn work(self, parcels: u64) {
        answer(self, parcels)
    }
}

/// Starts a thread that works with an end of a link.
fn start<R: Threads, E: End + 'static>(rt: &R, end: E, parcels: u64) -> io::Result<()>
    requires { E.is_new end }
{
    let _started = thread::spawn(rt, move || end.work(parcels))?;
    Ok(())
}

/// The thread that answers.
fn start_taker<R: Threads>(rt: &R, taker: LinkTaker, parcels: u64) -> io::Result<()>
    requires { taking taker ≡ no_taking }
{
    start(rt, taker, parcels)
}

/// Sends so many parcels to a thread that answers each, and gives how many answers were heard.
fn there_and_back<R: Threads>(rt: &R, alloc: Global, parcels: u64) -> io::Result<Option<u64>> {
    let (sender, taker) = Link::pair(alloc)?;
    start_taker(rt, taker, parcels)?;
    Ok(send(alloc, sender, parcels))
}

/// Sends so many parcels, each once the one before it was answered, and gives how many answers were heard.
#[tactic(auto, using(pipeline_bus::proofs::Numbers::counted_more), unfolding(pipeline_bus::specs::Parcels::with_events))]
fn send(alloc: Global, mut sender: LinkSender, parcels: u64) -> Option<u64>
    requires { sending sender ≡ no_sending }
{
    let mut number = 0u64;
    while number < parcels {
        number += 1;
        if sender.push(parcel(alloc, number).ok()?).is_some() {
            return None;
        }
        hear(&mut sender)?;
    }
    Some(number)
}

/// Looks for an answer until there is one.
fn hear(sender: &mut LinkSender) -> Option<Answer>
    ensures { (sending sender.new).sent ≡ (sending sender.old).sent }
{
    for _ in 0..u64::MAX {
        if let Some(answer) = sender.answer() {
            return Some(answer);
        }
        hint::spin_loop();
    }
    None
}

/// Takes a parcel, once there is one.
fn wait(taker: &mut LinkTaker) -> bool
    ensures { (taking taker.new).given ≡ (taking taker.old).given }
{
    for _ in 0..u64::MAX {
        if taker.take().is_some() {
            return true;
        }
        hint::spin_loop();
    }
    false
}

/// Takes so many parcels, and answers each.
fn answer(mut taker: LinkTaker, parcels: u64)
    requires { taking taker ≡ no_taking }
{
    for number in 0..parcels {
        let answer = Answer {
            number: number + 1,
            answer: Heard::Assured,
        };
        if !wait(&mut taker) || taker.tell(answer).is_some() {
            return;
        }
    }
}
