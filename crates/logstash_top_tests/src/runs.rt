//! Runs of the program, and what they leave.

ghost use Rattle.std.specs.Prelude.{◌≡◌, IfOk};
ghost use Rattle.in_lines.specs.Given.{piece_of};
ghost use Rattle.io_memory.specs.Gave.{piece_of as given_piece};

use crate::objects::{PausedClock, files, links, new_year, sink, source, store};
use crate::told::add_sink;
use crate::written::{bytes_of, cut, words_of};
use batch_shop::InlineShop;
use foreign_parts::{BoxPool, FilterCall};
use graph_checks::Drawn;
use history_book::BlankBook;
use in_lines::{LINE_LIMIT, Piece, Poll, events_of_polls, write_row};
use io_memory::{MemoryFiles, MemoryLinks, MemorySink, MemorySource, SourceEvent};
use line_jobs::{Close, Job};
use line_outputs::OutputCall;
use logstash_top::{Status, World, logstash};
use plain_data::Instant;
use std::alloc::{AllocError, Global};
use std::rt::Clock as RuntimeClock;
use std::sync::Wait;
use store_memory::MemoryStore;

/// The outside of a run.
pub type MemoryWorld = World<
    MemoryStore,
    MemoryFiles,
    MemorySource,
    MemoryLinks,
    MemorySink,
    PausedClock,
>;

/// How many bytes of stdout are compared with those that the definition of rows gives.
const COMPARED: usize = 4_000;

/// How many workers the shop of a run has.
const WORKERS: u32 = 2;

/// Adds what a run leaves, and whether stdout holds the rows that the definition gives for what stdin gave.
pub fn add_run<
    R: Wait + RuntimeClock,
    F: FilterCall + Close,
    X: OutputCall,
    B: BoxPool<Filter = F, Output = X>,
>(rt: &R, to: &mut String, row: &str, rack: &mut B) -> Result<(), AllocError>
    requires { B.output_number ≡ X.number }
{
    let world = ran_alone(rt, to, row, rack)?;
    add_comparison(to, world.stdin.given(), world.stdout.taken())
}

/// Adds what a run leaves.
pub fn add_configured<
    R: Wait + RuntimeClock,
    F: FilterCall + Close,
    X: OutputCall,
    B: BoxPool<Filter = F, Output = X>,
>(rt: &R, to: &mut String, row: &str, rack: &mut B) -> Result<(), AllocError>
    requires { B.output_number ≡ X.number }
{
    let _ = ran_alone(rt, to, row, rack)?;
    Ok(())
}

/// Adds what a run over an empty store leaves, around which no file stands, and gives it.
fn ran_alone<
    R: Wait + RuntimeClock,
    F: FilterCall + Close,
    X: OutputCall,
    B: BoxPool<Filter = F, Output = X>,
>(rt: &R, to: &mut String, row: &str, rack: &mut B) -> Result<MemoryWorld, AllocError>
    requires { B.output_number ≡ X.number }
{
    let alloc = *to.allocator();
    ran(rt, to, row, rack, store(alloc, "")?, files(alloc, "", "")?)
}

/// Adds what a run over a store leaves, and gives it.
pub fn ran<
    R: Wait + RuntimeClock,
    F: FilterCall + Close,
    X: OutputCall,
    B: BoxPool<Filter = F, Output = X>,
>(
    rt: &R,
    to: &mut String,
    row: &str,
    rack: &mut B,
    store: MemoryStore,
    files: MemoryFiles,
) -> Result<MemoryWorld, AllocError>
    requires { B.output_number ≡ X.number }
{
    let alloc = *to.allocator();
    let (objects, asked) = cut(row, " | ");
    let (words, stdin) = cut(asked, " | ");
    let words = words_of(alloc, words)?;
    let mut world = world(alloc, objects, stdin, store, files)?;
    let status = run(rt, alloc, &words, &mut world, rack)?;
    add_left(to, status.number(), &world)?;
    Ok(world)
}

fn world(
    alloc: Global,
    objects: &str,
    stdin: &str,
    store: MemoryStore,
    files: MemoryFiles,
) -> Result<MemoryWorld, AllocError> {
    let (reads, others) = cut(objects, ", ");
    let (stdout, others) = cut(others, ", ");
    let (stderr, moments) = cut(others, ", ");
    Ok(World {
        store,
        files,
        stdin: source(alloc, reads, &bytes_of(alloc, stdin)?)?,
        links: links(alloc),
        stdout: sink(alloc, stdout)?,
        stderr: sink(alloc, stderr)?,
        clock: PausedClock::new(alloc, moments)?,
    })
}

/// Runs the program, with a shop that does each job itself.
fn run<
    R: Wait + RuntimeClock,
    F: FilterCall + Close,
    X: OutputCall,
    B: BoxPool<Filter = F, Output = X>,
>(
    rt: &R,
    alloc: Global,
    words: &[String],
    world: &mut MemoryWorld,
    rack: &mut B,
) -> Result<Status, AllocError>
    requires { B.output_number ≡ X.number }
{
    let mut shop = InlineShop::<Job<Drawn<F>>>::new(alloc, WORKERS)?;
    Ok(logstash(rt, alloc, words, world, rack, &mut shop, &mut BlankBook))
}

fn add_left(to: &mut String, status: u8, world: &MemoryWorld) -> Result<(), AllocError> {
    let reads = world.stdin.script().made();
    let pauses = world.clock.pauses();
    write!(to, "{status}; {reads} reads {pauses} pauses")?;
    add_sink(to, "stdout", &world.stdout)?;
    add_sink(to, "stderr", &world.stderr)
}

fn add_comparison(to: &mut String, given: &[SourceEvent], taken: &[u8]) -> Result<(), AllocError> {
    if taken.len() > COMPARED {
        return Ok(());
    }
    let rows = defined_rows(*to.allocator(), given)?;
    to.push_str(if taken == rows.as_slice() {
        "; as defined"
    } else {
        "; not as defined"
    })
}

fn defined_rows(alloc: Global, given: &[SourceEvent]) -> Result<Vec<u8>, AllocError> {
    let polls = polls_of(alloc, given)?;
    let mut rows = Vec::new(alloc);
    for event in events_of_polls(alloc, LINE_LIMIT, &polls)?.as_slice() {
        write_row(event, &mut rows)?;
    }
    Ok(rows)
}

fn polls_of(alloc: Global, given: &[SourceEvent]) -> Result<Vec<Poll>, AllocError> {
    let mut polls = Vec::new(alloc);
    for gave in given {
        polls.push(poll_of(new_year(), gave)?)?;
    }
    Ok(polls)
}

/// The poll of a source that gave this at the moment, for the definition of what a run writes.
fn poll_of(moment: Instant, gave: &SourceEvent) -> Result<Poll, AllocError>
    ensures moment { IfOk result (λ poll. poll.moment ≡ moment) }
    ensures piece { IfOk result (λ poll. piece_of poll.piece ≡ given_piece gave.now) }
{
    let piece = match gave {
        SourceEvent::Bytes(bytes) => Piece::Bytes(bytes.clone()?),
        SourceEvent::End => Piece::End,
    };
    Ok(Poll { moment, piece })
}
