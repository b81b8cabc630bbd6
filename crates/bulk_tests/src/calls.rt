// The calls of the output that a row names, with their answers.
use config_tree::Settings;
use event_tree::{Event, Events};
use foreign_parts::{DeliverFault, Delivery, Fate, FromFault};
use out_bulk::{Bulk, MemoryPeer, Peer, PeerRequest};
use plain_data::Text;
use std::alloc::AllocError;
use std::str;

/// How many bytes of a reason are shown; of a longer one its length is.
const SHOWN: usize = 40;

/// Adds what the calls answer that stand between blanks.
pub fn add_calls(
    to: &mut String,
    bulk: &mut Bulk<MemoryPeer>,
    settings: &Settings,
    events: &[Event],
    calls: &str,
) -> Result<(), AllocError> {
    for call in calls.split_whitespace() {
        match call.split_at_checked(1) {
            Some(("s", _)) => add_configured(to, bulk, settings)?,
            Some(("d", places)) => add_chosen(to, bulk, events, places)?,
            Some((call, _)) => add_state(to, bulk, call)?,
            None => {}
        }
        to.push_str("; ")?;
    }
    Ok(())
}

/// Adds what becomes of the settings.
pub fn add_configured<Q: Peer>(
    to: &mut String,
    bulk: &mut Bulk<Q>,
    settings: &Settings,
) -> Result<(), AllocError> {
    match bulk.configure(settings) {
        Ok(()) => to.push_str("set"),
        Err(FromFault::Bad(fault)) => write!(to, "{fault}"),
        Err(FromFault::Memory) => to.push_str("out of memory"),
    }
}

fn add_chosen(
    to: &mut String,
    bulk: &mut Bulk<MemoryPeer>,
    events: &[Event],
    places: &str,
) -> Result<(), AllocError> {
    let mut chosen = Events::new(*to.allocator());
    for place in places.bytes() {
        let place = usize::from(place.saturating_sub(b'0'));
        if let Some(event) = events.get(place) {
            chosen.push(event.copy()?)?;
        }
    }
    add_delivered(to, bulk, chosen.as_slice())
}

/// Delivers events, and adds what becomes of them.
pub fn add_delivered<Q: Peer>(
    to: &mut String,
    bulk: &mut Bulk<Q>,
    events: &[Event],
) -> Result<(), AllocError> {
    match bulk.deliver(events) {
        Ok(Delivery::Took(fates)) => add_fates(to, fates.as_slice()),
        Ok(Delivery::Later) => to.push_str("later"),
        Err(DeliverFault::Failed) => to.push_str("failed"),
        Err(DeliverFault::Memory) => to.push_str("out of memory"),
    }
}

fn add_fates(to: &mut String, fates: &[Fate]) -> Result<(), AllocError> {
    let mut between = "";
    for fate in fates {
        to.push_str(between)?;
        add_fate(to, fate)?;
        between = ", ";
    }
    Ok(())
}

fn add_fate(to: &mut String, fate: &Fate) -> Result<(), AllocError> {
    match fate {
        Fate::Took => to.push_str("took"),
        Fate::Rejected(status, reason) => {
            write!(to, "rejected {status} ")?;
            add_reason(to, reason)
        }
    }
}

fn add_reason(to: &mut String, reason: &Text) -> Result<(), AllocError> {
    if reason.len() > SHOWN {
        return write!(to, "{} bytes", reason.len());
    }
    write!(to, "({})", reason.as_str())
}

fn add_state(to: &mut String, bulk: &Bulk<MemoryPeer>, call: &str) -> Result<(), AllocError> {
    let asked = bulk.peer().asked();
    match (call, asked.last()) {
        ("q", Some(last)) => add_request(to, asked.len(), last),
        ("Q", Some(last)) => add_escaped(to, &last.request),
        ("q" | "Q", None) => to.push_str("nothing sent"),
        _ => add_counts(to, bulk),
    }
}

// Adds how many requests were sent, and the host and the body of the last one.
fn add_request(to: &mut String, count: usize, last: &PeerRequest) -> Result<(), AllocError> {
    let text = str::from_utf8(&last.request).unwrap_or("");
    let (_, body) = text.split_once("\r\n\r\n").unwrap_or((text, ""));
    write!(
        to,
        "{count} to {} of {} bytes ",
        last.host.as_str(),
        body.len()
    )?;
    add_escaped(to, body.as_bytes())
}

// Adds a text with signs for the ends of its lines.
fn add_escaped(to: &mut String, bytes: &[u8]) -> Result<(), AllocError> {
    for sign in str::from_utf8(bytes).unwrap_or("").chars() {
        match sign {
            '\r' => to.push_str("\\r")?,
            '\n' => to.push_str("\\n")?,
            other => to.push(other)?,
        }
    }
    Ok(())
}

fn add_counts(to: &mut String, bulk: &Bulk<MemoryPeer>) -> Result<(), AllocError> {
    let faults = bulk.peer().script().faults();
    let (bad, last) = (bulk.bad_replies(), bulk.last_bad_reply().len());
    write!(
        to,
        "faults {faults}, bad {bad} of {last} bytes, laters {}",
        bulk.laters()
    )
}
