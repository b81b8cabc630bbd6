//! Serving a line until nothing is left to do.

ghost use Rattle.std.specs.Prelude.{◌≡◌, Some, Err, IfErr, IfSome, OnOk};
ghost use Rattle.io_traits.specs.Counts.{HasCause};
ghost use Rattle.line_machine.specs.declared.calls.LineFault.TheVariants as fault;
ghost use Rattle.line_core.specs.Jobs.{AreOut};
ghost use Rattle.line_core.specs.Parts.{folder_of, inputs_of};
ghost use Rattle.line_core.specs.Readiness.{CanDeliver, IsSame, connections_by, watched_by};
ghost use Rattle.logstash_top.specs.Serving.{CanMake, HaveCauses, Serves};

use crate::world::World;
use batch_shop::Shop;
use foreign_parts::FilterCall;
use graph_checks::Drawn;
use history_book::Book;
use io_traits::{Clock, Files, Links, Sink, Source, Store};
use line_core::Line;
use line_jobs::{Close, Job};
use line_machine::{Accepted, Act, Delivered, LineFault, ReadOut, Summary, next};
use line_outputs::OutputCall;
use std::rt::Clock as RuntimeClock;
use std::sync::Wait;
use std::thread;
use std::time::Duration;

/// How long a turn in which nothing is left but a result that is still to come waits, in microseconds.
const REST_MICROS: u64 = 50;

/// A turn so far. It ends with a step that isn't refused.
#[derive(Clone, Copy)]
struct Turn {
    /// Whether it has just begun.
    begins: bool,
    /// Whether no result of a job was there yet.
    no_result: bool,
}

impl Turn {
    fn first() -> Turn {
        Turn {
            begins: true,
            no_result: false,
        }
    }

    /// What the line can do in this turn: no result is taken again where none was there.
    fn left(self, summary: Summary) -> Summary
        ensures deliver { result.deliver ≡ summary.deliver }
        ensures finished { result.finished ≡ summary.finished }
        ensures assure { result.assure ≡ summary.assure }
        ensures held { result.held ≡ summary.held }
        ensures poll { IfSome result.poll (λ at. summary.poll ≡ Some at) }
    {
        if !self.no_result {
            return summary;
        }
        Summary {
            take: false,
            ..summary
        }
    }

    /// Behind a step that was refused.
    fn refused(self, took: bool) -> Turn {
        Turn {
            begins: false,
            no_result: self.no_result || took,
        }
    }
}

/// Serves a line until each of its inputs is at its end, and nothing is left to do. Where all that is left was refused it waits:
/// shortly where results are still to come, and else as long as the clock pauses.
pub(crate) fn serve<
    R: Wait + RuntimeClock,
    S: Store,
    P: Files,
    I: Source,
    L: Links,
    O: Sink,
    K: Clock,
    F: FilterCall + Close,
    X: OutputCall,
    W: Shop<Job<Drawn<F>>>,
    H: Book,
>(
    rt: &R,
    line: &mut Line<F, X>,
    world: &mut World<S, P, I, L, O, K>,
    shop: &mut W,
    book: &mut H,
) -> Result<(), LineFault>
    requires { Serves S.Store L.Links X.number line.old (W.out shop.old) world.old }
    ensures cause { HasCause (S.faults world.old.store) (S.faults world.new.store)
        (result ≡ Err fault.Store) }
    ensures causes { HaveCauses P.Files I.Source L.Links O.Sink X.faults result world.old
        world.new }
    ensures stderr { world.new.stderr ≡ world.old.stderr }
{
    let mut turn = Turn::first();
    for _ in rt.forever() {
        match choose(line, turn) {
            Some(act) => {
                let took = matches!(act, Act::Take);
                match step(line, act, world, shop, book) {
                    Ok(true) => turn = Turn::first(),
                    Ok(false) => turn = turn.refused(took),
                    Err(fault) => return Err(fault),
                }
            }
            None => {
                if turn.begins {
                    return Ok(());
                }
                idle(rt, turn, &mut world.clock);
                turn = Turn::first();
            }
        }
    }
    unreachable!()
}

/// The next step of a line in a turn.
fn choose<F: FilterCall, X: OutputCall>(line: &mut Line<F, X>, turn: Turn) -> Option<Act>
    ensures makes { IfSome result (CanMake line.new) }
    ensures can { CanDeliver X.number line.old → CanDeliver X.number line.new }
    ensures same { IsSame line.old line.new }
    ensures folder { folder_of line.new ≡ folder_of line.old }
    ensures files { watched_by (inputs_of line.new) ≡ watched_by (inputs_of line.old) }
    ensures connections { connections_by (inputs_of line.new)
        ≡ connections_by (inputs_of line.old) }
{
    let summary = line.summary(turn.begins);
    next(&turn.left(summary))
}

/// Waits behind a turn in which nothing was left: shortly for the result of a job, and else as long as the clock pauses.
fn idle<R: RuntimeClock, K: Clock>(rt: &R, turn: Turn, clock: &mut K) {
    if turn.no_result {
        thread::sleep(rt, Duration::from_micros(REST_MICROS));
    } else {
        clock.pause();
    }
}

/// Makes a step, and says whether it wasn't refused.
fn step<
    S: Store,
    P: Files,
    I: Source,
    L: Links,
    O: Sink,
    K: Clock,
    F: FilterCall + Close,
    X: OutputCall,
    W: Shop<Job<Drawn<F>>>,
    H: Book,
>(
    line: &mut Line<F, X>,
    act: Act,
    world: &mut World<S, P, I, L, O, K>,
    shop: &mut W,
    book: &mut H,
) -> Result<bool, LineFault>
    requires serves { Serves S.Store L.Links X.number line.old (W.out shop.old) world.old }
    requires makes { CanMake line.old act }
    ensures serves { OnOk result
        (Serves S.Store L.Links X.number line.new (W.out shop.new) world.new) }
    ensures cause { HasCause (S.faults world.old.store) (S.faults world.new.store)
        (result ≡ Err fault.Store) }
    ensures causes { HaveCauses P.Files I.Source L.Links O.Sink X.faults result world.old
        world.new }
    ensures stderr { world.new.stderr ≡ world.old.stderr }
{
    let World {
        store,
        files,
        stdin,
        links,
        stdout,
        clock,
        ..
    } = world;
    match act {
        Act::Accept(input) => {
            let accepted = line.accept(input, store, stdin, files, links, clock, book)?;
            Ok(matches!(accepted, Accepted::Row(_) | Accepted::Ended))
        }
        Act::Read => {
            let read = line.read_batch(store, shop, book)?;
            Ok(matches!(read, ReadOut::Given(_)))
        }
        Act::Take => collect(line, shop, book),
        Act::Deliver(batch) => {
            let delivered = line.deliver_one(batch, store, stdout, clock, book)?;
            Ok(matches!(delivered, Delivered::Told | Delivered::Finished))
        }
        Act::Acknowledge(batch) => {
            line.acknowledge(batch, book);
            Ok(true)
        }
        Act::Mark => {
            let _front = line.mark(store, book)?;
            Ok(true)
        }
        Act::Assure(input) => {
            let _front = line.assure(input, store, book)?;
            Ok(true)
        }
        Act::Purge => {
            let _page = line.purge(store, book)?;
            Ok(true)
        }
        Act::Answer(_) => Ok(false),
    }
}

/// Takes the result of a job home, where one is there.
fn collect<F: FilterCall + Close, X: OutputCall, W: Shop<Job<Drawn<F>>>, H: Book>(
    line: &mut Line<F, X>,
    shop: &mut W,
    book: &mut H,
) -> Result<bool, LineFault>
    requires out { AreOut line.old (W.out shop.old) }
    requires can { CanDeliver X.number line.old }
    ensures out { OnOk result (AreOut line.new (W.out shop.new)) }
    ensures can { CanDeliver X.number line.new }
    ensures folder { folder_of line.new ≡ folder_of line.old }
    ensures inputs { inputs_of line.new ≡ inputs_of line.old }
    ensures fault { IfErr result (λ f. f ≡ fault.Memory) }
{
    match shop.take() {
        Some(done) => {
            line.collect(done, book)?;
            Ok(true)
        }
        None => Ok(false),
    }
}
