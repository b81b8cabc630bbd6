// The HTTP request that sends the events of a batch that aren't settled.
ghost use Rattle.std.specs.Prelude.{◌≡◌, ◌++◌, length, IfOk, OnOk};
ghost use Rattle.std.specs.Fmt.{decimal};
ghost use Rattle.out_bulk.specs.Fates.{open_in};
ghost use Rattle.out_bulk.specs.Requests as spec;
ghost use Rattle.out_bulk.specs.Settings.{first_host, target_of};
ghost use Rattle.out_bulk.specs.Written.{IsKeptLine, IsRequest};

use crate::action::ActionLine;
use crate::fates::is_settled;
use crate::settings::BulkSettings;
use event_text::write_json;
use event_tree::Event;
use foreign_parts::Fate;
use itoa::Buffer;
use plain_data::Text;
use std::alloc::{AllocError, Global};

/// How many bytes of a request are reserved for the head, and for the lines of each event.
const ROOM: usize = 512;

/// A request, and how many events it sends.
#[derive(Drop)]
pub(crate) struct Request {
    pub(crate) bytes: Vec<u8>,
    pub(crate) count: usize,
}

/// The request that sends those events which aren't settled.
pub(crate) fn request_to(
    alloc: Global,
    settings: &Option<BulkSettings>,
    events: &[Event],
    settled: &[Option<Fate>],
) -> Result<Request, AllocError>
    ensures { IfOk result (IsRequest (target_of settings.now) (open_in events.now settled.now)) }
{
    let mut body = Vec::with_capacity(alloc, events.len().saturating_mul(ROOM))?;
    let count = add_events(&mut body, settings, events, settled)?;
    let mut bytes = Vec::with_capacity(alloc, body.len().saturating_add(ROOM))?;
    add_head(&mut bytes, host_of(settings), body.len())?;
    bytes.extend_from_slice(&body)?;
    Ok(Request { bytes, count })
}

/// The host that is asked.
pub(crate) fn host_of(settings: &Option<BulkSettings>) -> &str
    ensures { result.now ≡ (target_of settings.now).host }
{
    match settings {
        Some(settings) => first(settings.hosts.as_slice()),
        None => "",
    }
}

fn first(hosts: &[Text]) -> &str
    ensures { result.now ≡ first_host hosts.now }
{
    match hosts.first() {
        Some(host) => host.as_str(),
        None => "",
    }
}

fn add_head(to: &mut Vec<u8>, host: &str, length: usize) -> Result<(), AllocError>
    ensures { OnOk result (to.new.items ≡ to.old.items ++ spec.head_of host.now length) }
{
    to.extend_from_slice(b"POST /_bulk HTTP/1.1\r\nHost: ")?;
    to.extend_from_slice(host.as_bytes())?;
    to.extend_from_slice(b"\r\nContent-Type: application/x-ndjson\r\nContent-Length: ")?;
    to.extend_from_slice(Buffer::new().format(length).as_bytes())?;
    to.extend_from_slice(b"\r\nConnection: close\r\n\r\n")?;
    Ok(())
}

// Adds the lines of the events that aren't settled, and says how many they are.
fn add_events(
    to: &mut Vec<u8>,
    settings: &Option<BulkSettings>,
    events: &[Event],
    settled: &[Option<Fate>],
) -> Result<usize, AllocError>
    ensures lines { OnOk result (to.new.items
        ≡ to.old.items ++ spec.body_of (target_of settings.now) (open_in events.now settled.now)) }
    ensures count { IfOk result (λ count. count ≡ length (open_in events.now settled.now)) }
{
    let mut count = 0;
    let mut action = ActionLine::new(*to.allocator());
    for place in 0..events.len() {
        if is_settled(settled, place) {
            continue;
        }
        add_event(to, &mut action, settings, &events[place])?;
        count += 1;
    }
    Ok(count)
}

// Adds the lines of an event.
fn add_event(
    to: &mut Vec<u8>,
    action: &mut ActionLine,
    settings: &Option<BulkSettings>,
    event: &Event,
) -> Result<(), AllocError>
    requires { IsKeptLine (target_of settings.now) action.old }
    ensures kept { IsKeptLine (target_of settings.now) action.new }
    ensures lines { OnOk result (to.new.items
        ≡ to.old.items ++ spec.lines_of (target_of settings.now) event.now) }
{
    action.set(settings, event)?;
    to.extend_from_slice(action.as_bytes())?;
    write_json(event.fields(), to)?;
    to.push(b'\n')?;
    Ok(())
}
