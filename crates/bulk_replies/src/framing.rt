// Where the body of a message ends, by its header fields.
ghost use Rattle.std.specs.Prelude.{◌≡◌, ◌^◌, ◌-◌, length, map, codes, All};
ghost use Rattle.settings_lines.specs.Numbers as numbers;
ghost use Rattle.httparse.specs.Spans.{header_bytes, IsHeaderWithin};
ghost use Rattle.bulk_replies.specs.Bodies as spec;
ghost use Rattle.bulk_replies.specs.Fields.{is_same, values_of};

use crate::fields::{FieldMatch, find};
use httparse::spans::HeaderSpan;
use settings_lines::number_in;
use std::str;

/// Where the body of a message ends, by the fields of its head.
#[derive(Clone, Copy)]
pub enum Framing {
    /// With its last chunk.
    Chunked,
    /// With the last of so many bytes.
    Sized(u64),
    /// Where the connection is closed.
    ToClose,
    /// The fields say nothing that is understood.
    Unreadable,
}

/// What the fields of a head say of where its body ends.
pub(crate) fn framing_in(reply: &[u8], headers: &[HeaderSpan]) -> Framing
    requires { All (IsHeaderWithin (length reply.now)) headers.now }
    ensures { result ≡ spec.framing_of (map (header_bytes reply.now) headers.now) }
{
    match find(reply, headers, "transfer-encoding") {
        FieldMatch::Missing => framing_by_length(reply, headers),
        FieldMatch::One(value) if is_chunked(value.of(reply)) => Framing::Chunked,
        FieldMatch::One(_) | FieldMatch::Several => Framing::Unreadable,
    }
}

fn framing_by_length(reply: &[u8], headers: &[HeaderSpan]) -> Framing
    requires { All (IsHeaderWithin (length reply.now)) headers.now }
    ensures { result ≡ spec.by_lengths (values_of (codes "content-length")
        (map (header_bytes reply.now) headers.now)) }
{
    match find(reply, headers, "content-length") {
        FieldMatch::Missing => Framing::ToClose,
        FieldMatch::One(value) => match length_in(value.of(reply)) {
            Some(length) => Framing::Sized(length),
            None => Framing::Unreadable,
        },
        FieldMatch::Several => Framing::Unreadable,
    }
}

fn is_chunked(coding: &[u8]) -> bool
    ensures { result ≡ is_same coding.now (codes "chunked") }
{
    coding.eq_ignore_ascii_case(b"chunked")
}

fn length_in(value: &[u8]) -> Option<u64>
    ensures { result ≡ numbers.number_in 0 (2 ^ 64 - 1) value.now }
{
    match str::from_utf8(value) {
        Ok(digits) => number_in(digits, 0, u64::MAX),
        Err(_) => None,
    }
}
