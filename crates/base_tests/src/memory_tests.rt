// Tests of sources, sinks, clocks, controls and files in memory.
use crate::tables::files_of;
use io_memory::{ListClock, ListControl, MemoryFiles, MemorySink, MemorySource, Script, Showing};
use io_traits::{Failed, Said, Step, write_all};
use plain_data::Instant;
use std::alloc::{AllocError, Global};

fn source_reads(
    source: &mut MemorySource,
    room: &mut [u8; 3],
    want: Result<Step, Failed>,
    stands: &[u8; 3],
) -> bool {
    source.read(room) == want && &*room == stands
}

// How many calls it counts, with faults and waits, what it gave, and how many bytes are left.
fn counts(source: &MemorySource) -> (u64, u64, u64, usize, usize) {
    let script = source.script();
    (
        script.made(),
        script.faults(),
        script.waits(),
        source.given().len(),
        source.left().len(),
    )
}

// What the reads answer, and what stands in the room then.
const READS: [(Result<Step, Failed>, &[u8; 3]); 7] = [
    (Ok(Step::Bytes(2)), b"ab-"),
    (Ok(Step::NotYet), b"ab-"),
    (Err(Failed), b"ab-"),
    (Ok(Step::Bytes(2)), b"cd-"),
    (Ok(Step::Bytes(1)), b"ed-"),
    (Ok(Step::End), b"ed-"),
    (Ok(Step::End), b"ed-"),
];

fn source_answers(source: &mut MemorySource) -> bool {
    let mut room = [b'-'; 3];
    for (answer, stands) in &READS {
        if !source_reads(source, &mut room, *answer, stands) {
            return false;
        }
    }
    true
}

pub(crate) fn source_is_scripted(alloc: Global) -> Result<bool, AllocError> {
    let script = Script::new(alloc, &[2], &[1, 2])?;
    let mut source = MemorySource::new(alloc, b"abcde", 2, script)?;
    Ok(source_answers(&mut source) && counts(&source) == (7, 1, 1, 5, 0))
}

// Each call of a sink stands in a helper, of which a test sees the answer alone.
fn writes(sink: &mut MemorySink, bytes: &[u8], want: Result<usize, Failed>) -> bool {
    sink.write(bytes) == want
}

fn writes_all(sink: &mut MemorySink, bytes: &[u8], want: Result<(), Failed>) -> bool {
    write_all(sink, bytes) == want
}

fn flushes(sink: &mut MemorySink, flushed: usize) -> bool {
    sink.flushed() == 0 && sink.flush() == Ok(()) && sink.flushed() == flushed
}

fn holds(sink: &MemorySink, taken: &[u8]) -> bool {
    sink.taken() == taken && sink.flushed() == 5 && sink.script().faults() == 2
}

// It takes two bytes at most by a write, and its calls 1 and 7 fail.
fn takes_two_by_two(sink: &mut MemorySink) -> bool {
    writes(sink, b"abc", Ok(2))
        && writes(sink, b"c", Err(Failed))
        && writes_all(sink, b"cde", Ok(()))
        && flushes(sink, 5)
        && writes_all(sink, b"fghijkl", Err(Failed))
}

pub(crate) fn sink_keeps_all(alloc: Global) -> Result<bool, AllocError> {
    let mut sink = MemorySink::new(alloc, 2, Script::new(alloc, &[1, 7], &[])?);
    Ok(takes_two_by_two(&mut sink) && holds(&sink, b"abcdefghi"))
}

fn instant(nanos: i128) -> Instant {
    Instant::from_nanos(nanos).unwrap_or(Instant::epoch())
}

fn ticks(clock: &mut ListClock, want: i128) -> bool {
    clock.pause();
    clock.now().nanos() == want
}

fn gave(clock: &ListClock, want: &[Instant]) -> bool {
    clock.given() == Some(want)
}

pub(crate) fn clock_repeats_its_last(alloc: Global) -> Result<bool, AllocError> {
    let (two, one) = (instant(2), instant(1));
    let mut clock = ListClock::new(alloc, &[two, one])?;
    Ok(ticks_down(&mut clock) && gave(&clock, &[two, one, one]))
}

pub(crate) fn empty_clock_ticks(alloc: Global) -> Result<bool, AllocError> {
    let mut clock = ListClock::new(alloc, &[])?;
    Ok(ticks(&mut clock, 0))
}

fn ticks_down(clock: &mut ListClock) -> bool {
    ticks(clock, 2) && ticks(clock, 1) && ticks(clock, 1)
}

const FILE: &str = "c/main.conf";

fn is_long(files: &mut MemoryFiles, want: Result<Option<u64>, Failed>) -> bool {
    files.length(FILE) == want
}

// What stands from the place 1 on.
fn reads(files: &mut MemoryFiles, count: usize, stands: &[u8; 4]) -> bool {
    let mut room = [b'-'; 4];
    files.read(FILE, 1, &mut room) == Ok(count) && &room == stands
}

// Three bytes stand from the call 1 on, five from the call 4 on, and the call 2 fails.
fn sees_each_change(files: &mut MemoryFiles) -> bool {
    is_long(files, Ok(None))
        && is_long(files, Ok(Some(3)))
        && is_long(files, Err(Failed))
        && reads(files, 2, b"ld--")
        && is_long(files, Ok(Some(5)))
}

pub(crate) fn files_change(alloc: Global) -> Result<bool, AllocError> {
    let script = Script::new(alloc, &[2], &[])?;
    let mut files = MemoryFiles::new(alloc, contents(alloc)?, script);
    Ok(sees_each_change(&mut files) && lists_one(&mut files, alloc))
}

fn contents(alloc: Global) -> Result<Vec<Showing>, AllocError> {
    let mut contents = Vec::new(alloc);
    for (from, bytes) in [(1, b"old".as_slice()), (4, b"newer")] {
        let files = files_of(alloc, &[FILE], bytes)?;
        if contents.push(Showing { from, files }).is_err() {
            return Err(AllocError);
        }
    }
    Ok(contents)
}

// One file stands in the folder, and six calls were made, of which one failed.
fn lists_one(files: &mut MemoryFiles, alloc: Global) -> bool {
    let is_one = match files.list(alloc, "c") {
        Ok(names) => names.len() == 1,
        Err(_) => false,
    };
    is_one && (files.script().made(), files.script().faults()) == (6, 1)
}

fn says(control: &mut ListControl, want: Said) -> bool {
    control.next() == want
}

// It gave so many answers, and none is left.
fn said(control: &ListControl, count: usize) -> bool {
    match control.given() {
        Some(given) => given.len() == count && control.left().is_empty(),
        None => false,
    }
}

pub(crate) fn control_goes_on(alloc: Global) -> Result<bool, AllocError> {
    let mut control = ListControl::new(alloc, &[Said::Look, Said::Stop])?;
    Ok(goes_on(&mut control) && said(&control, 4))
}

fn goes_on(control: &mut ListControl) -> bool {
    let listed = says(control, Said::Look) && says(control, Said::Stop);
    listed && says(control, Said::Go) && says(control, Said::Go)
}
