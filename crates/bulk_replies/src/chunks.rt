// Bodies in chunks: whether one is whole, and its bytes.
ghost use Rattle.std.specs.Prelude.{◌≤◌, ◌↔◌, ℕ, List, length, drop, IfOk, IsTrue, MatchOption, option_map};
ghost use Rattle.httparse.specs.Grammar.{HasNoChunkLine};
ghost use Rattle.bulk_replies.specs.Bodies.{HasChunks};
ghost use Rattle.bulk_replies.specs.Fronts.{EndsAt, IsFront, Joins, LineAt};

use httparse::spans::Span;
use httparse::{Status, parse_chunk_size};
use std::alloc::{AllocError, Global};

/// What stands at a place of a body in chunks.
#[derive(Clone, Copy)]
pub(crate) enum Front {
    /// A chunk, whose bytes stand there. Two bytes that end it are behind them.
    Chunk(Span),
    /// The line of the last chunk.
    Last,
    /// Neither of them, or not all of it.
    Cut,
}

/// The bytes of the chunks of a body, one behind the other. None where it isn't whole.
pub(crate) fn join_chunks(alloc: Global, bytes: &[u8]) -> Result<Option<Vec<u8>>, AllocError>
    ensures { IfOk result (λ body. Joins bytes.now (option_map (λ v. v.items) body)) }
{
    let mut body = Vec::new(alloc);
    let mut at = 0;
    while at < bytes.len() {
        match front_at(bytes, at) {
            Front::Chunk(chunk) => {
                body.extend_from_slice(chunk.of(bytes))?;
                at = chunk.end + 2;
            }
            Front::Last => return Ok(Some(body)),
            Front::Cut => return Ok(None),
        }
    }
    Ok(None)
}

/// Whether a body in chunks is whole.
pub(crate) fn are_whole(bytes: &[u8]) -> bool
    ensures { IsTrue result ↔ (body : List ℕ) × HasChunks bytes.now body }
{
    let mut at = 0;
    while at < bytes.len() {
        match front_at(bytes, at) {
            Front::Chunk(chunk) => at = chunk.end + 2,
            Front::Last => return true,
            Front::Cut => return false,
        }
    }
    false
}

fn front_at(bytes: &[u8], at: usize) -> Front
    requires { at ≤ length bytes.now }
    ensures { IsFront bytes.now at result }
{
    let Some((start, size)) = line_at(bytes, at) else {
        return Front::Cut;
    };
    if size == 0 {
        return Front::Last;
    }
    if size > (bytes.len() - start) as u64 {
        return Front::Cut;
    }
    let end = start + size as usize;
    if ends_at(bytes, end) {
        Front::Chunk(Span { start, end })
    } else {
        Front::Cut
    }
}

// The line of a chunk at a place: where it ends, and the size.
fn line_at(bytes: &[u8], at: usize) -> Option<(usize, u64)>
    requires { at ≤ length bytes.now }
    ensures { MatchOption result (HasNoChunkLine (drop at bytes.now))
        (λ line. LineAt bytes.now at line.0 line.1) }
{
    match parse_chunk_size(&bytes[at..]) {
        Ok(Status::Complete((len, size))) => Some((at + len, size)),
        Ok(Status::Partial) | Err(_) => None,
    }
}

// Whether the end of a line stands at a place.
fn ends_at(bytes: &[u8], at: usize) -> bool
    requires { at ≤ length bytes.now }
    ensures { IsTrue result ↔ EndsAt bytes.now at }
{
    if bytes.len() - at < 2 {
        return false;
    }
    bytes[at] == b'\r' && bytes[at + 1] == b'\n'
}
