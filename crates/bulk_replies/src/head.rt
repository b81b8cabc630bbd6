// The head of a reply: its status, its fields and its length.
ghost use Rattle.std.specs.Prelude.{MatchOption};
ghost use Rattle.bulk_replies.specs.Heads.{HasNoHead, IsHead};

use crate::framing::{Framing, framing_in};
use httparse::Status;
use httparse::spans::{EMPTY_HEADER_SPAN, parse_response};

/// What the head of a reply says.
#[derive(Clone, Copy)]
pub(crate) struct Head {
    pub(crate) status: u16,
    pub(crate) framing: Framing,
    /// The length of the head: the body begins there.
    pub(crate) len: usize,
}

/// The head of a reply, where it has one of at most 64 fields.
pub(crate) fn read_head(reply: &[u8]) -> Option<Head>
    ensures { MatchOption result (HasNoHead reply.now) (IsHead reply.now) }
{
    let mut headers = [EMPTY_HEADER_SPAN; 64];
    let Ok(Status::Complete(spans)) = parse_response(reply, &mut headers) else {
        return None;
    };
    Some(Head {
        status: spans.code,
        framing: framing_in(reply, &headers[..spans.headers]),
        len: spans.len,
    })
}
