// Tests of the real sources and sinks, over readers and writers that fail.
use io_real::{StdinSource, SystemClock, WriteSink};
use io_traits::{Clock, Failed, Sink, Source, Step};
use std::cell::Cell;
use std::io::{self, BufWriter, ErrorKind, Read, Write};
use std::test::Fail;

// A reader and a writer of which each call ends with an error.
#[derive(Drop)]
struct Broken(ErrorKind);

impl Read for Broken {
    fn read(&mut self, _room: &mut [u8]) -> io::Result<usize> {
        Err(self.0.into())
    }
}

impl Write for Broken {
    fn write(&mut self, _bytes: &[u8]) -> io::Result<usize> {
        Err(self.0.into())
    }

    fn flush(&mut self) -> io::Result<()> {
        Err(self.0.into())
    }
}

fn reads<R: Read>(
    source: &mut StdinSource<R>,
    room: &mut [u8],
    want: Result<Step, Failed>,
) -> bool {
    source.read(room) == want
}

// The counts of a source are these after a read that answers so.
fn counts(kind: ErrorKind, want: Result<Step, Failed>, faults: u64, waits: u64) -> bool {
    let mut source = StdinSource::new(Broken(kind));
    reads(&mut source, &mut [b'-'; 2], want) && (source.faults(), source.waits()) == (faults, waits)
}

// Three bytes are read into a room of two.
fn reads_three() -> bool {
    let mut source = StdinSource::new(b"abc".as_slice());
    let mut room = [b'-'; 2];
    reads(&mut source, &mut [], Ok(Step::Bytes(0)))
        && reads(&mut source, &mut room, Ok(Step::Bytes(2)))
        && reads(&mut source, &mut room, Ok(Step::Bytes(1)))
        && &room == b"cb"
        && reads(&mut source, &mut room, Ok(Step::End))
}

#[test]
fn a_stdin_source_reads_its_reader(rt: HostRuntime) {
    assert!(rt; reads_three());
    assert!(rt;
        counts(ErrorKind::WouldBlock, Ok(Step::NotYet), 0, 1)
            && counts(ErrorKind::Interrupted, Ok(Step::NotYet), 0, 1)
            && counts(ErrorKind::NotConnected, Err(Failed), 1, 0)
    );
}

// A writer that counts the bytes that reached it.
#[derive(Drop)]
struct CountingWriter<'a>(&'a Cell<usize>);

impl Write for CountingWriter<'_> {
    fn write(&mut self, bytes: &[u8]) -> io::Result<usize> {
        self.0.set(self.0.get().saturating_add(bytes.len()));
        Ok(bytes.len())
    }

    fn flush(&mut self) -> io::Result<()> {
        Ok(())
    }
}

// A writer of which the first two calls of each kind would block.
#[derive(Drop)]
struct Full {
    writes: u64,
    flushes: u64,
}

impl Write for Full {
    fn write(&mut self, bytes: &[u8]) -> io::Result<usize> {
        self.writes = self.writes.saturating_add(1);
        if self.writes > 2 {
            Ok(bytes.len())
        } else {
            Err(ErrorKind::WouldBlock.into())
        }
    }

    fn flush(&mut self) -> io::Result<()> {
        self.flushes = self.flushes.saturating_add(1);
        if self.flushes > 2 {
            Ok(())
        } else {
            Err(ErrorKind::WouldBlock.into())
        }
    }
}

fn hands_on<W: Write>(sink: &mut WriteSink<W, &HostRuntime>, want: Result<usize, Failed>) -> bool {
    sink.write(b"abc") == want
}

fn empties<W: Write>(sink: &mut WriteSink<W, &HostRuntime>, want: Result<(), Failed>) -> bool {
    sink.flush() == want
}

// What is written reaches a writer behind a buffer once it is flushed.
fn writes_behind_a_buffer(rt: &HostRuntime) -> io::Result<bool> {
    let reached = Cell::new(0);
    let mut sink = WriteSink::new(rt, BufWriter::new(rt.alloc(), CountingWriter(&reached))?);
    let written = hands_on(&mut sink, Ok(3)) && reached.get() == 0;
    let flushed = empties(&mut sink, Ok(())) && reached.get() == 3;
    Ok(written && flushed && sink.faults() == 0)
}

// Each error counts.
fn fails_twice(rt: &HostRuntime) -> bool {
    let mut sink = WriteSink::new(rt, Broken(ErrorKind::StorageFull));
    hands_on(&mut sink, Err(Failed)) && empties(&mut sink, Err(Failed)) && sink.faults() == 2
}

// A writer that would block is called again.
fn calls_again(rt: &HostRuntime) -> bool {
    let full = Full {
        writes: 0,
        flushes: 0,
    };
    let mut sink = WriteSink::new(rt, full);
    hands_on(&mut sink, Ok(3)) && empties(&mut sink, Ok(()))
}

#[test]
fn a_write_sink_writes_and_flushes_its_writer(rt: HostRuntime) -> Result<(), Fail> {
    assert!(rt; writes_behind_a_buffer(&rt)? && fails_twice(&rt) && calls_again(&rt));
    Ok(())
}

const YEAR_2020: i128 = 1_577_836_800_000_000_000;

fn moment(clock: &mut SystemClock<&HostRuntime>) -> i128 {
    clock.now().nanos()
}

#[test]
fn a_system_clock_gives_a_moment_after_2020(rt: HostRuntime) {
    let mut clock = SystemClock::new(&rt);
    let first = moment(&mut clock);
    clock.pause();
    assert!(rt; YEAR_2020 < first && first < moment(&mut clock));
}
