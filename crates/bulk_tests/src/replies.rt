// Replies of peers, written with escapes.
use std::alloc::{AllocError, Global};

/// The bytes of replies as they are written.
pub fn replies_of(alloc: Global, written: &str) -> Result<Vec<Vec<u8>>, AllocError> {
    let mut replies = Vec::new(alloc);
    for word in written.split_whitespace() {
        let reply = reply_of(alloc, word, "")?;
        if replies.push(reply).is_err() {
            return Err(AllocError);
        }
    }
    Ok(replies)
}

/// The bytes of a reply as it is written, where `\S` stands for this status.
pub fn reply_of(alloc: Global, written: &str, status: &str) -> Result<Vec<u8>, AllocError> {
    let mut reply = Vec::new(alloc);
    let mut first = true;
    for piece in written.split('\\') {
        if first {
            reply.extend_from_slice(piece.as_bytes())?;
        } else {
            add_escaped(&mut reply, piece, status)?;
        }
        first = false;
    }
    Ok(reply)
}

// Adds what stands behind a backslash.
fn add_escaped(to: &mut Vec<u8>, piece: &str, status: &str) -> Result<(), AllocError> {
    let (sign, rest) = piece.split_at_checked(1).unwrap_or((piece, ""));
    if sign == "(" {
        return add_repeated(to, rest);
    }
    to.extend_from_slice(stands_for(sign, status).as_bytes())?;
    to.extend_from_slice(rest.as_bytes())
}

fn stands_for<'a>(sign: &str, status: &'a str) -> &'a str {
    match sign {
        "r" => "\r",
        "n" => "\n",
        "s" => " ",
        "t" => "\t",
        "b" => "|",
        "k" => "\\",
        _ => status,
    }
}

// Adds `COUNT*TEXT)` and what stands behind it.
fn add_repeated(to: &mut Vec<u8>, written: &str) -> Result<(), AllocError> {
    let (repeated, rest) = written.split_once(')').unwrap_or((written, ""));
    let (count, text) = repeated.split_once('*').unwrap_or(("1", repeated));
    for _ in 0..count.parse::<u32>().unwrap_or(0) {
        to.extend_from_slice(text.as_bytes())?;
    }
    to.extend_from_slice(rest.as_bytes())
}
