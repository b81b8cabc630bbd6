// Calls of an input of TCP connections.
ghost use Rattle.std.specs.Prelude.{◌≡◌, length};
ghost use Rattle.in_tcp.specs.Reads.{AllCame};

use crate::events::add_event;
use crate::words::small_number;
use in_lines::{Codec, Got, PollFault};
use in_tcp::TcpInput;
use io_memory::MemoryLinks;
use plain_data::Instant;
use std::alloc::AllocError;

/// Adds what calls answer that stand between blanks.
pub fn add_calls(to: &mut String, links: &mut MemoryLinks, calls: &str) -> Result<(), AllocError> {
    let mut input = TcpInput::start(*to.allocator(), "0.0.0.0", 5044, Codec::Line)?;
    let mut polls = 0_u32;
    for call in calls.split_whitespace() {
        add_call(to, links, &mut input, &mut polls, call)?;
        to.push_str("; ")?;
    }
    Ok(())
}

fn add_call(
    to: &mut String,
    links: &mut MemoryLinks,
    input: &mut TcpInput,
    polls: &mut u32,
    call: &str,
) -> Result<(), AllocError>
    requires { AllCame (length links.old.came) input.old.connections }
    ensures { AllCame (length links.new.came) input.new.connections }
{
    match call.split_at_checked(1) {
        Some(("p", _)) => add_polls(to, links, input, polls, 1),
        Some(("P", count)) => add_polls(to, links, input, polls, small_number(count)),
        Some(("n", _)) => add_next(to, input),
        Some(("c", _)) => write!(to, "{} came", links.came()),
        Some((_, conn)) => {
            to.push_str(if links.state(small_number(conn)).is_open {
                "open"
            } else {
                "closed"
            })
        }
        None => Ok(()),
    }
}

fn add_polls(
    to: &mut String,
    links: &mut MemoryLinks,
    input: &mut TcpInput,
    polls: &mut u32,
    count: u32,
) -> Result<(), AllocError>
    requires { AllCame (length links.old.came) input.old.connections }
    ensures { AllCame (length links.new.came) input.new.connections }
{
    let mut found = Ok(Got::NotYet);
    for _ in 0..count {
        *polls = polls.saturating_add(1);
        found = poll(links, input, *polls);
    }
    to.push_str(text_of(found))
}

fn poll(links: &mut MemoryLinks, input: &mut TcpInput, second: u32) -> Result<Got, PollFault>
    requires { AllCame (length links.old.came) input.old.connections }
    ensures { AllCame (length links.new.came) input.new.connections }
{
    let moment = Instant::from_nanos(i128::from(second) * 1_000_000_000);
    input.poll(links, moment.unwrap_or(Instant::epoch()))
}

/// What a poll answered.
pub fn text_of(found: Result<Got, PollFault>) -> &'static str {
    match found {
        Ok(Got::Lines) => "lines",
        Ok(Got::NotYet) => "not yet",
        Ok(Got::End) => "end",
        Err(PollFault::Fault) => "fault",
        Err(PollFault::Memory) => "memory",
    }
}

fn add_next(to: &mut String, input: &mut TcpInput) -> Result<(), AllocError>
    ensures { input.new.connections ≡ input.old.connections }
{
    match input.next()? {
        Some(event) => add_event(to, &event),
        None => to.push_str("no line"),
    }
}
