// Reading a whole reply to a bulk request.
ghost use Rattle.std.specs.Prelude.{◌≡◌, ◌≤◌, ◌↔◌, length, IfOk, IsTrue};
ghost use Rattle.std.specs.Option.{option_copied};
ghost use Rattle.bulk_replies.specs.Bodies.{EndsWithin};
ghost use Rattle.bulk_replies.specs.Reading.{SaysBehind, front_of};
ghost use Rattle.bulk_replies.specs.Replies.{IsWhole, Says};

use crate::answers::read_answers;
use crate::chunks::{are_whole, join_chunks};
use crate::framing::Framing;
use crate::head::{Head, read_head};
use crate::item_result::ItemResult;
use plain_data::Items;
use std::alloc::{AllocError, Global};

/// What a reply to a bulk request says.
#[derive(Drop)]
pub enum Reply {
    /// It is good, and says this of each event, in their order.
    Good(Items<ItemResult>),
    /// Its head has this status, which isn't 200.
    Other(u16),
    /// It is none of these.
    Bad,
}

/// What a reply to a request with so many events says.
///
/// A reply is good where its status is 200, its body is whole and is JSON, and this has `items`, a list with one object for each
/// event, each with one key whose object has a `status` that is a whole number of at most 65,535. A head with more than 64 fields
/// isn't read. The JSON has at most 127 levels.
pub fn read_reply(alloc: Global, reply: &[u8], count: usize) -> Result<Reply, AllocError>
    ensures { IfOk result (Says count reply.now) }
{
    let Some(head) = read_head(reply) else {
        return Ok(Reply::Bad);
    };
    if head.status != 200 {
        return Ok(Reply::Other(head.status));
    }
    let (_, behind) = reply.split_at(head.len);
    match read_body(alloc, head.framing, behind, count)? {
        Some(said) => Ok(Reply::Good(said)),
        None => Ok(Reply::Bad),
    }
}

fn read_body(
    alloc: Global,
    framing: Framing,
    bytes: &[u8],
    count: usize,
) -> Result<Option<Items<ItemResult>>, AllocError>
    ensures { IfOk result (SaysBehind count framing bytes.now) }
{
    match framing {
        Framing::Chunked => match join_chunks(alloc, bytes)? {
            Some(body) => read_answers(alloc, &body, count),
            None => Ok(None),
        },
        Framing::Sized(length) => match front(bytes, length) {
            Some(body) => read_answers(alloc, body, count),
            None => Ok(None),
        },
        Framing::ToClose => read_answers(alloc, bytes, count),
        Framing::Unreadable => Ok(None),
    }
}

// The first so many bytes, where so many stand there.
fn front(bytes: &[u8], length: u64) -> Option<&[u8]>
    ensures { option_copied result ≡ front_of length bytes.now }
{
    match usize::try_from(length) {
        Ok(length) if length <= bytes.len() => Some(&bytes[..length]),
        _ => None,
    }
}

/// Whether a reply is whole by what its head says, so that no byte behind these is part of it. One that ends where its
/// connection is closed never is.
pub fn is_whole(reply: &[u8]) -> bool
    ensures { IsTrue result ↔ IsWhole reply.now }
{
    let Some(head) = read_head(reply) else {
        return false;
    };
    let (_, behind) = reply.split_at(head.len);
    ends_within(head.framing, behind)
}

// Whether the head says where the body ends, and it ends within these bytes.
fn ends_within(framing: Framing, bytes: &[u8]) -> bool
    ensures { IsTrue result ↔ EndsWithin framing bytes.now }
{
    match framing {
        Framing::Chunked => are_whole(bytes),
        Framing::Sized(length) => front(bytes, length).is_some(),
        Framing::ToClose | Framing::Unreadable => false,
    }
}
