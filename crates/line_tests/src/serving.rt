// A line that is served step by step.
ghost use Rattle.std.specs.Prelude.{◌≡◌, ◌<◌, length, IfSome, OnOk};
ghost use Rattle.line_core.specs.Batches.{IsOut};
ghost use Rattle.line_core.specs.Jobs.{AreOut};
ghost use Rattle.line_core.specs.Parts.{batches_of, folder_of, inputs_of};
ghost use Rattle.line_core.specs.Readiness.{CanDeliver};
ghost use Rattle.line_tests.specs.Served.{IsServed, IsThere};

use batch_shop::Shop;
use foreign_parts::FilterCall;
use graph_checks::Drawn;
use history_book::BlankBook;
use io_traits::{Clock, Files, Links, Sink, Source, Store};
use line_core::Line;
use line_core::laws::results_come_home;
use line_folder::laws::acknowledged_rows_leave_the_folder_ready;
use line_jobs::Job;
use line_machine::{Accepted, Act, Delivered, LineFault, ReadOut, next};
use line_outputs::OutputCall;

/// What a line did.
#[derive(Clone, Copy)]
pub struct Tally {
    pub rows: u64,
    pub batches: u64,
    pub deliveries: u64,
    /// How often the queue had no room.
    pub full: u64,
    pub pages: u64,
}

impl Tally {
    pub fn new() -> Tally {
        Tally {
            rows: 0,
            batches: 0,
            deliveries: 0,
            full: 0,
            pages: 0,
        }
    }
}

/// How the serving of a line ended.
#[derive(Drop)]
pub enum End {
    /// Nothing was left to do.
    Rest,
    /// It was cut off.
    Cut,
    Fault(LineFault),
}

/// What a line works with, beside its store.
#[derive(Drop)]
pub struct Around<I, P, L, T, K> {
    pub stdin: I,
    pub files: P,
    pub links: L,
    pub stdout: T,
    pub clock: K,
}

/// Serves a line until it is at rest, by so many steps at most.
pub fn serve<
    F: FilterCall,
    O: OutputCall,
    S: Store,
    I: Source,
    P: Files,
    L: Links,
    T: Sink,
    K: Clock,
    W: Shop<Job<Drawn<F>>>,
>(
    line: &mut Line<F, O>,
    store: &mut S,
    around: &mut Around<I, P, L, T, K>,
    shop: &mut W,
    tally: &mut Tally,
    most: u64,
) -> End
    requires { IsServed S.Store L.Links O.number line.old store.old around.old.links
        (W.out shop.old) }
{
    let mut fresh = true;
    for _ in 0..most {
        match chosen(line, store, &around.links, shop, fresh) {
            None => {
                if fresh {
                    return End::Rest;
                }
                fresh = true;
            }
            Some(act) => {
                fresh = false;
                if let Err(fault) = step(line, act, store, around, shop, tally) {
                    return End::Fault(fault);
                }
            }
        }
    }
    End::Cut
}

// The step that comes next.
fn chosen<F: FilterCall, O: OutputCall, S: Store, L: Links, W: Shop<Job<Drawn<F>>>>(
    line: &mut Line<F, O>,
    store: &S,
    links: &L,
    shop: &W,
    fresh: bool,
) -> Option<Act>
    requires { IsServed S.Store L.Links O.number line.old store.now links.now (W.out shop.now) }
    ensures served { IsServed S.Store L.Links O.number line.new store.now links.now
        (W.out shop.now) }
    ensures there { IfSome result (IsThere line.new) }
{
    let summary = line.summary(fresh);
    next(&summary)
}

fn step<
    F: FilterCall,
    O: OutputCall,
    S: Store,
    I: Source,
    P: Files,
    L: Links,
    T: Sink,
    K: Clock,
    W: Shop<Job<Drawn<F>>>,
>(
    line: &mut Line<F, O>,
    act: Act,
    store: &mut S,
    around: &mut Around<I, P, L, T, K>,
    shop: &mut W,
    tally: &mut Tally,
) -> Result<(), LineFault>
    requires served { IsServed S.Store L.Links O.number line.old store.old around.old.links
        (W.out shop.old) }
    requires there { IsThere line.old act }
    ensures { OnOk result (IsServed S.Store L.Links O.number line.new store.new
        around.new.links (W.out shop.new)) }
{
    match act {
        Act::Accept(input) => accept(line, input, store, around, shop, tally),
        Act::Read => read(line, store, &around.links, shop, tally),
        Act::Take => take(line, store, &around.links, shop),
        Act::Deliver(batch) => deliver(line, batch, store, around, shop, tally),
        Act::Acknowledge(batch) => {
            acknowledge(line, batch, store, &around.links, shop);
            Ok(())
        }
        Act::Mark => mark(line, store, &around.links, shop),
        Act::Assure(input) => assure(line, input, store, &around.links, shop),
        Act::Purge => purge(line, store, &around.links, shop, tally),
        Act::Answer(_) => Ok(()),
    }
}

fn accept<
    F: FilterCall,
    O: OutputCall,
    S: Store,
    I: Source,
    P: Files,
    L: Links,
    T,
    K: Clock,
    W: Shop<Job<Drawn<F>>>,
>(
    line: &mut Line<F, O>,
    input: usize,
    store: &mut S,
    around: &mut Around<I, P, L, T, K>,
    shop: &W,
    tally: &mut Tally,
) -> Result<(), LineFault>
    requires served { IsServed S.Store L.Links O.number line.old store.old around.old.links
        (W.out shop.now) }
    requires there { input < length (inputs_of line.old) }
    ensures { OnOk result (IsServed S.Store L.Links O.number line.new store.new
        around.new.links (W.out shop.now)) }
{
    let Around {
        stdin,
        files,
        links,
        clock,
        ..
    } = around;
    match line.accept(input, store, stdin, files, links, clock, &mut BlankBook)? {
        Accepted::Row(_) => tally.rows = tally.rows.saturating_add(1),
        Accepted::Full => tally.full = tally.full.saturating_add(1),
        Accepted::NotYet | Accepted::Ended => {}
    }
    Ok(())
}

fn read<F: FilterCall, O: OutputCall, S: Store, L: Links, W: Shop<Job<Drawn<F>>>>(
    line: &mut Line<F, O>,
    store: &mut S,
    links: &L,
    shop: &mut W,
    tally: &mut Tally,
) -> Result<(), LineFault>
    requires { IsServed S.Store L.Links O.number line.old store.old links.now (W.out shop.old) }
    ensures { OnOk result (IsServed S.Store L.Links O.number line.new store.new links.now
        (W.out shop.new)) }
{
    if let ReadOut::Given(_) = line.read_batch(store, shop, &mut BlankBook)? {
        tally.batches = tally.batches.saturating_add(1);
    }
    Ok(())
}

fn take<F: FilterCall, O: OutputCall, S: Store, L: Links, W: Shop<Job<Drawn<F>>>>(
    line: &mut Line<F, O>,
    store: &S,
    links: &L,
    shop: &mut W,
) -> Result<(), LineFault>
    requires { IsServed S.Store L.Links O.number line.old store.now links.now (W.out shop.old) }
    ensures { OnOk result (IsServed S.Store L.Links O.number line.new store.now links.now
        (W.out shop.new)) }
{
    results_come_home::<F, O>();
    match shop.take() {
        Some(done) => line.collect(done, &mut BlankBook),
        None => Ok(()),
    }
}

fn deliver<
    F: FilterCall,
    O: OutputCall,
    S: Store,
    I,
    P,
    L: Links,
    T: Sink,
    K: Clock,
    W: Shop<Job<Drawn<F>>>,
>(
    line: &mut Line<F, O>,
    batch: u64,
    store: &mut S,
    around: &mut Around<I, P, L, T, K>,
    shop: &W,
    tally: &mut Tally,
) -> Result<(), LineFault>
    requires served { IsServed S.Store L.Links O.number line.old store.old around.old.links
        (W.out shop.now) }
    requires there { IsOut batch (batches_of line.old) }
    ensures { OnOk result (IsServed S.Store L.Links O.number line.new store.new
        around.new.links (W.out shop.now)) }
{
    let Around { stdout, clock, .. } = around;
    if let Delivered::Told = line.deliver_one(batch, store, stdout, clock, &mut BlankBook)? {
        tally.deliveries = tally.deliveries.saturating_add(1);
    }
    Ok(())
}

fn acknowledge<F: FilterCall, O: OutputCall, S: Store, L: Links, W: Shop<Job<Drawn<F>>>>(
    line: &mut Line<F, O>,
    batch: u64,
    store: &S,
    links: &L,
    shop: &W,
)
    requires served { IsServed S.Store L.Links O.number line.old store.now links.now
        (W.out shop.now) }
    requires there { IsOut batch (batches_of line.old) }
    ensures { IsServed S.Store L.Links O.number line.new store.now links.now (W.out shop.now) }
{
    acknowledged_rows_leave_the_folder_ready::<S>();
    line.acknowledge(batch, &mut BlankBook);
}

fn mark<F: FilterCall, O: OutputCall, S: Store, L: Links, W: Shop<Job<Drawn<F>>>>(
    line: &mut Line<F, O>,
    store: &mut S,
    links: &L,
    shop: &W,
) -> Result<(), LineFault>
    requires { IsServed S.Store L.Links O.number line.old store.old links.now (W.out shop.now) }
    ensures { OnOk result (IsServed S.Store L.Links O.number line.new store.new links.now
        (W.out shop.now)) }
{
    let _ = line.mark(store, &mut BlankBook)?;
    Ok(())
}

fn assure<F: FilterCall, O: OutputCall, S: Store, L: Links, W: Shop<Job<Drawn<F>>>>(
    line: &mut Line<F, O>,
    input: usize,
    store: &mut S,
    links: &L,
    shop: &W,
) -> Result<(), LineFault>
    requires served { IsServed S.Store L.Links O.number line.old store.old links.now
        (W.out shop.now) }
    requires there { input < length (inputs_of line.old) }
    ensures { OnOk result (IsServed S.Store L.Links O.number line.new store.new links.now
        (W.out shop.now)) }
{
    let _ = line.assure(input, store, &mut BlankBook)?;
    Ok(())
}

fn purge<F: FilterCall, O: OutputCall, S: Store, L: Links, W: Shop<Job<Drawn<F>>>>(
    line: &mut Line<F, O>,
    store: &mut S,
    links: &L,
    shop: &W,
    tally: &mut Tally,
) -> Result<(), LineFault>
    requires { IsServed S.Store L.Links O.number line.old store.old links.now (W.out shop.now) }
    ensures { OnOk result (IsServed S.Store L.Links O.number line.new store.new links.now
        (W.out shop.now)) }
{
    if line.purge(store, &mut BlankBook)?.is_some() {
        tally.pages = tally.pages.saturating_add(1);
    }
    Ok(())
}
