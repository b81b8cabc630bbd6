// Reading the items of a bulk reply's body, one result for each event.
ghost use Rattle.std.specs.Prelude.{◌≡◌, ◌++◌, ◌∷◌, [], IfOk, option_map, map, option_and_then};
ghost use Rattle.std.specs.Bool.{then_some};
ghost use Rattle.serde_json.specs.Data.{Members, object, put};
ghost use Rattle.serde_json.specs.Find.{as_array};
ghost use Rattle.bulk_replies.specs.Answers as spec;
ghost use Rattle.bulk_replies.specs.Answers.{answers_of, items_answers, said_of};
ghost use Rattle.bulk_replies.specs.Reading.{SaysOf};
ghost use Rattle.bulk_replies.specs.Sayings.{Answered, answer_of, said_in};
ghost use Rattle.bulk_replies.specs.Taken.{TakesOr};

use crate::compact::Compact;
use crate::item::{Saying, take_item};
use crate::item_result::ItemResult;
use crate::passing::{Expect, pass, take};
use crate::tokens::Tokens;
use json::{Invalid, Reader, Scratch};
use plain_data::{Items, Text};
use std::alloc::{AllocError, Global};
use std::str;

/// How many bytes the reason of a rejection has at most.
const MOST_REASON: usize = 65_536;

/// Why a part of a body wasn't read.
enum Fault {
    /// The body isn't JSON as `serde_json` reads it, if the reader is sure of that.
    Invalid,
    Memory,
}

impl From<Invalid> for Fault {
    ghost use Rattle.std.specs.Prelude.{◌≡◌};
    ghost use Rattle.bulk_replies.specs.declared.answers.Fault.TheVariants as fault;

    ghost from_gives = { λ _ fault'. fault' ≡ fault.Invalid };

    fn from(_: Invalid) -> Fault {
        Fault::Invalid
    }
}

impl From<AllocError> for Fault {
    ghost use Rattle.std.specs.Prelude.{◌≡◌};
    ghost use Rattle.bulk_replies.specs.declared.answers.Fault.TheVariants as fault;

    ghost from_gives = { λ _ fault'. fault' ≡ fault.Memory };

    fn from(_: AllocError) -> Fault {
        Fault::Memory
    }
}

/// What the body of a reply says of so many events. None where it doesn't say it of each of them.
pub(crate) fn read_answers(
    alloc: Global,
    body: &[u8],
    count: usize,
) -> Result<Option<Items<ItemResult>>, AllocError>
    ensures { IfOk result (SaysOf count body.now) }
{
    match str::from_utf8(body) {
        Ok(text) => answers_in(alloc, text, count),
        Err(_) => Ok(None),
    }
}

fn answers_in(
    alloc: Global,
    text: &str,
    count: usize,
) -> Result<Option<Items<ItemResult>>, AllocError>
    ensures { IfOk result (λ said. said ≡ option_map (map said_of) (answers_of count text.now)) }
{
    match take_answers(alloc, &mut Compact::new(text), count) {
        Ok(said) => Ok(said),
        Err(Fault::Invalid) => scanned_answers(alloc, text, count),
        Err(Fault::Memory) => Err(AllocError),
    }
}

// The same of a text that isn't written compactly.
#[cold]
#[inline(never)]
fn scanned_answers(
    alloc: Global,
    text: &str,
    count: usize,
) -> Result<Option<Items<ItemResult>>, AllocError>
    ensures { IfOk result (λ said. said ≡ option_map (map said_of) (answers_of count text.now)) }
{
    let mut scratch = Scratch::new(alloc);
    let mut reader = Reader::new(text, &mut scratch)?;
    match take_answers(alloc, &mut reader, count) {
        Ok(said) => Ok(said),
        Err(Fault::Invalid) => Ok(None),
        Err(Fault::Memory) => Err(AllocError),
    }
}

// What these tokens say of so many events, all of them.
fn take_answers<'a, T: Tokens<'a>>(
    alloc: Global,
    reader: &mut T,
    count: usize,
) -> Result<Option<Items<ItemResult>>, Fault>
    ensures { Answered Fault.Memory T.sure count (T.left reader.old) result }
{
    let said = take_body(alloc, reader, count)?;
    if reader.next()?.is_some() {
        return Ok(None);
    }
    match said {
        Some(said) if said.len() == count => Ok(Some(said)),
        Some(_) | None => Ok(None),
    }
}

// What the items of the body say.
fn take_body<'a, T: Tokens<'a>>(
    alloc: Global,
    reader: &mut T,
    count: usize,
) -> Result<Option<Items<ItemResult>>, Fault>
    ensures { TakesOr Fault.Memory T.sure 127 (T.left reader.old) (T.left reader.new)
        (λ d said. said ≡ said_in d) result }
{
    let None = take(reader, Expect::Object, 127)? else {
        return Ok(None);
    };
    let mut said = None;
    while let Some(key) = reader.next_key()? {
        said = with_member(alloc, reader, count, said, key)?;
    }
    Ok(said)
}

// What the items of the body say, with its next member.
fn with_member<'a, T: Tokens<'a>>(
    alloc: Global,
    reader: &mut T,
    count: usize,
    said: Option<Items<ItemResult>>,
    key: &str,
) -> Result<Option<Items<ItemResult>>, Fault>
    ensures { TakesOr Fault.Memory T.sure 126 (T.left reader.old) (T.left reader.new)
        (λ d more. (ms : Members)
        → said ≡ said_in (object ms) → more ≡ said_in (object (put key.now d ms))) result }
{
    if key == "items" {
        return take_items(alloc, reader, count);
    }
    pass(reader, 126)?;
    Ok(said)
}

// What the items say that stand next, of which so many are awaited. None where one of them says nothing.
fn take_items<'a, T: Tokens<'a>>(
    alloc: Global,
    reader: &mut T,
    count: usize,
) -> Result<Option<Items<ItemResult>>, Fault>
    ensures { TakesOr Fault.Memory T.sure 126 (T.left reader.old) (T.left reader.new)
        (λ d said. said
        ≡ option_map (map said_of) (option_and_then items_answers (as_array d))) result }
{
    let None = take(reader, Expect::List, 126)? else {
        return Ok(None);
    };
    let mut said = Items::with_capacity(alloc, count)?;
    let mut all = true;
    while !reader.take_end_array()? {
        let saying = take_item(reader)?;
        all = add_said(alloc, all, &mut said, saying)?;
    }
    Ok(all.then_some(said))
}

// Adds what an item says, where all before it say something: its status tells what it is. Whether it says something, too.
#[inline(always)]
fn add_said(
    alloc: Global,
    all: bool,
    said: &mut Items<ItemResult>,
    saying: Option<Saying<'_>>,
) -> Result<bool, AllocError>
    ensures { IfOk result (λ more. then_some more said.new ≡ option_and_then
        (λ before. option_map (λ a. before ++ said_of a ∷ []) (answer_of saying.entry))
        (then_some all said.old)) }
{
    if !all {
        return Ok(false);
    }
    let Some(
        Saying {
            status: Some(status),
            reason,
        },
    ) = saying
    else {
        return Ok(false);
    };
    let one = match status {
        200..=299 => ItemResult::Took,
        400 | 404 => ItemResult::Rejected(status, Text::of(alloc, cut(reason))?),
        _ => ItemResult::Retry,
    };
    said.push(one)?;
    Ok(true)
}

// As many whole characters from the front as the longest reason has bytes.
fn cut(text: &str) -> &str
    ensures { result.now ≡ spec.cut text.now }
{
    &text[..text.floor_char_boundary(MOST_REASON)]
}
