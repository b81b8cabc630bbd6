//! Lines of a watched file, or of TCP connections, as events (bench/inputs.sh).

ghost use Rattle.std.specs.Prelude.{◌≡◌};
ghost use Rattle.in_tcp.specs.Reads.{AllCame};

use in_file::{FileInput, FilePlan};
use in_lines::{Codec, Got, LINE_LIMIT, PollFault, event_of_bytes};
use in_tcp::TcpInput;
use io_real::{FileStore, RealFiles, TcpLinks};
use io_traits::Files;
use plain_data::Instant;
use std::alloc::Global;
use std::fs;
use std::net::Net;

/// How many events were made of the lines of a file, or of those that connections to a port of the loopback brought.
pub fn run(rt: &HostRuntime, words: &[String]) -> Option<u64> {
    let [from, codec, source, times] = words else {
        return None;
    };
    let codec = match codec.as_str() {
        "line" => Codec::Line,
        "json" => Codec::Json,
        _ => return None,
    };
    let times = times.as_str().parse::<u64>().ok()?;
    match from.as_str() {
        "file" => watch(rt, source.as_str(), codec, times),
        "tcp" => listen(rt, source.as_str().parse::<u16>().ok()?, codec, times),
        _ => make(rt, source.as_str(), codec, times),
    }
}

/// Makes events of the lines of a file whose text is in memory, in so many rounds.
fn make(rt: &HostRuntime, file: &str, codec: Codec, rounds: u64) -> Option<u64> {
    let text = fs::read_to_string(rt, file).ok()?;
    let mut made = 0u64;
    for _ in 0..rounds {
        for line in text.lines() {
            let line = line.as_bytes();
            if line.len() <= LINE_LIMIT {
                event_of_bytes(rt.alloc(), codec, line, Instant::epoch()).ok()?;
                made = made.wrapping_add(1);
            }
        }
    }
    Some(made)
}

/// Polls a file up to its end, or so many times.
fn watch(rt: &HostRuntime, file: &str, codec: Codec, polls: u64) -> Option<u64> {
    let mut store = FileStore::new(rt.alloc(), rt);
    let mut files = RealFiles::new(rt.alloc(), rt);
    let plan = FilePlan {
        from_start: true,
        ends: true,
        codec,
    };
    let mut input = FileInput::open_on(
        rt.alloc(),
        &mut store,
        &mut files,
        file,
        "in.lines",
        plan,
    ).ok()?;
    lines_of_file(&mut input, &mut files, polls)
}

fn lines_of_file<F: Files>(input: &mut FileInput, files: &mut F, polls: u64) -> Option<u64> {
    let mut made = 0u64;
    for _ in 0..polls {
        match input.poll(files, Instant::epoch()).ok()? {
            Got::End => return Some(made),
            Got::NotYet => {}
            Got::Lines => made = made.wrapping_add(lines_held(input)?),
        }
    }
    Some(made)
}

/// Makes events of the lines that an input holds, and says how many.
fn lines_held(input: &mut FileInput) -> Option<u64> {
    for made in 0..u64::MAX {
        if input.next().ok()?.is_none() {
            return Some(made);
        }
    }
    None
}

/// Listens at a port of the loopback until so many lines came.
fn listen(rt: &HostRuntime, port: u16, codec: Codec, lines: u64) -> Option<u64> {
    let mut links = TcpLinks::new(rt.alloc(), rt);
    let mut input = TcpInput::start(rt.alloc(), "127.0.0.1", port, codec).ok()?;
    lines_of_connections(&mut input, &mut links, lines)
}

fn lines_of_connections<R: Net>(
    input: &mut TcpInput,
    links: &mut TcpLinks<R>,
    lines: u64,
) -> Option<u64>
    requires { AllCame links.old.came input.old.connections }
{
    let mut made = 0u64;
    for _ in 0..u64::MAX {
        if made >= lines {
            break;
        }
        match poll(input, links) {
            Ok(Got::Lines) => made = made.wrapping_add(lines_came(input)?),
            Ok(_) => {}
            Err(_) => return None,
        }
    }
    Some(made)
}

fn poll<R: Net>(input: &mut TcpInput, links: &mut TcpLinks<R>) -> Result<Got, PollFault>
    requires { AllCame links.old.came input.old.connections }
    ensures { AllCame links.new.came input.new.connections }
{
    input.poll(links, Instant::epoch())
}

/// Makes events of the lines that an input holds, and says how many.
fn lines_came(input: &mut TcpInput) -> Option<u64>
    ensures { input.new.connections ≡ input.old.connections }
{
    for made in 0..u64::MAX {
        if input.next().ok()?.is_none() {
            return Some(made);
        }
    }
    None
}
