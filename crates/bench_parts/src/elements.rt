//! Encodes or decodes an event of nineteen fields (bench/elements.sh).

use element_code::{decode, encode};
use event_tree::{Event, Instant, Number, Path, Text, Value};
use std::alloc::Global;

/// The size of the event, or how many bytes so many rounds encode or decode.
pub fn run(alloc: Global, words: &[String]) -> Option<u64> {
    let [call, rounds] = words else {
        return None;
    };
    let rounds = rounds.as_str().parse::<u32>().ok()?;
    coded(alloc, &event(alloc)?, call.as_str(), rounds)
}

/// The size of an event, or how many bytes so many rounds encode or decode of it.
pub(crate) fn coded(alloc: Global, event: &Event, call: &str, rounds: u32) -> Option<u64> {
    let mut bytes = Vec::new(alloc);
    encode(event, &mut bytes).ok()?;
    match call {
        "size" => Some(event.size()),
        "encode" => encodes(event, &mut bytes, rounds),
        _ => decodes(alloc, &bytes, rounds),
    }
}

/// An event like that of a line of an access log.
pub(crate) fn event(alloc: Global) -> Option<Event> {
    let mut event = Event::new(alloc);
    fill(alloc, &mut event)?;
    Some(event)
}

fn fill(alloc: Global, event: &mut Event) -> Option<()> {
    put_texts(alloc, event, &TEXTS)?;
    put_numbers(alloc, event)?;
    put_moment(alloc, event)
}

/// The texts of the event, with their paths.
const TEXTS: [(&str, &str); 13] = [
    ("@version", "1"),
    (
        "message",
        "10.1.2.3 - alice [05/Mar/2024:00:00:00 +0000] \"GET /shop/item/1234?page=5 HTTP/1.1\" 200 48213 \"https://example.org/list/77\" \"Mozilla/5.0 (X11; Linux x86_64) Firefox/115.0\"",
    ),
    ("[host][name]", "web-07.example.org"),
    ("[source][address]", "10.1.2.3"),
    ("[user][name]", "alice"),
    ("[url][original]", "/shop/item/1234?page=5"),
    ("[url][query]", "page=5"),
    ("[http][request][method]", "GET"),
    ("[http][request][referrer]", "https://example.org/list/77"),
    ("[http][version]", "1.1"),
    (
        "[user_agent][original]",
        "Mozilla/5.0 (X11; Linux x86_64) Firefox/115.0",
    ),
    ("[event][dataset]", "nginx.access"),
    ("[log][file][path]", "/var/log/nginx/access.log"),
];

/// Its numbers.
const NUMBERS: [(&str, i64, u8); 5] = [
    ("[http][response][status]", 200, 0),
    ("[http][response][bytes]", 48_213, 0),
    ("[http][duration]", 12_375, 6),
    ("[geo][latitude]", 5_221_437, 5),
    ("[geo][longitude]", -174_412, 5),
];

/// Puts texts at their paths.
pub(crate) fn put_texts(alloc: Global, event: &mut Event, texts: &[(&str, &str)]) -> Option<()> {
    for (path, text) in texts {
        let text = Text::of(alloc, text).ok()?;
        put(alloc, event, path, Value::Text(text))?;
    }
    Some(())
}

fn put_numbers(alloc: Global, event: &mut Event) -> Option<()> {
    for (path, mantissa, scale) in &NUMBERS {
        put(
            alloc,
            event,
            path,
            Value::Num(Number::new(*mantissa, *scale)?),
        )?;
    }
    Some(())
}

/// Puts a moment at `@timestamp`.
pub(crate) fn put_moment(alloc: Global, event: &mut Event) -> Option<()> {
    let moment = Instant::from_nanos(1_709_596_800_123_000_000)?;
    put(alloc, event, "@timestamp", Value::Time(moment))
}

fn put(alloc: Global, event: &mut Event, path: &str, value: Value) -> Option<()> {
    event.put(&Path::read(alloc, path).ok()?, value).ok()
}

fn encodes(event: &Event, bytes: &mut Vec<u8>, rounds: u32) -> Option<u64> {
    let mut done = 0u64;
    for _ in 0..rounds {
        bytes.clear();
        encode(event, bytes).ok()?;
        done = done.wrapping_add(bytes.len() as u64);
    }
    Some(done)
}

fn decodes(alloc: Global, bytes: &[u8], rounds: u32) -> Option<u64> {
    let mut done = 0u64;
    for _ in 0..rounds {
        done = done.wrapping_add(decode(alloc, bytes).ok()?.size());
    }
    Some(done)
}
