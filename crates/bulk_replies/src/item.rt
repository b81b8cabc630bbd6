// What an item of a reply says of its event.
ghost use Rattle.std.specs.Prelude.{◌≡◌, None, Some, if◌then◌else◌, nat_le, option_and_then};
ghost use Rattle.serde_json.specs.Data.{Data, Members, object, put};
ghost use Rattle.bulk_replies.specs.Answers.{error_text, item_answer};
ghost use Rattle.bulk_replies.specs.Sayings.{answer_of, AreTexts, IsOnly, IsSaying};
ghost use Rattle.bulk_replies.specs.Taken.{Takes};

use crate::passing::{Expect, pass, take, take_number, take_text};
use crate::tokens::Tokens;
use json::Invalid;

/// What the object of an item says: its status, and why its event was refused.
#[derive(Clone, Copy)]
pub(crate) struct Saying<'a> {
    pub(crate) status: Option<u16>,
    pub(crate) reason: &'a str,
}

/// The keys of an item: none, one with what its object says, or several.
#[derive(Clone, Copy)]
pub(crate) enum Only<'a> {
    Nothing,
    One(&'a str, Saying<'a>),
    Several,
}

/// What an error says.
#[derive(Clone, Copy)]
pub(crate) struct Texts<'a> {
    reason: Option<&'a str>,
    kind: Option<&'a str>,
}

/// What the next item says. None where it isn't an object with one key, or has no status there.
#[inline(always)]
pub(crate) fn take_item<'a, T: Tokens<'a>>(reader: &mut T) -> Result<Option<Saying<'a>>, Invalid>
    ensures { Takes T.sure 125 (T.left reader.old) (T.left reader.new)
        (λ d saying. answer_of saying ≡ item_answer d) result }
{
    let None = take(reader, Expect::Object, 125)? else {
        return Ok(None);
    };
    let mut only = Only::Nothing;
    while let Some(key) = reader.next_key()? {
        let saying = take_saying(reader)?;
        only = only.and(key, saying);
    }
    Ok(only.saying())
}

impl<'a> Only<'a> {
    // With one key more.
    #[inline(always)]
    fn and(self, key: &'a str, saying: Saying<'a>) -> Only<'a>
        ensures { (ms : Members) (d : Data) → IsOnly ms self.entry → IsSaying d saying.entry
            → IsOnly (put key.now d ms) result }
    {
        match self {
            Only::Nothing => Only::One(key, saying),
            Only::One(other, _) => if other == key {
                Only::One(key, saying)
            } else {
                Only::Several
            },
            Only::Several => Only::Several,
        }
    }

    // What the only one says.
    #[inline(always)]
    fn saying(self) -> Option<Saying<'a>>
        ensures { (ms : Members) → IsOnly ms self.entry
            → answer_of result ≡ item_answer (object ms) }
    {
        match self {
            Only::One(_, saying) => Some(saying),
            Only::Nothing | Only::Several => None,
        }
    }
}

#[inline(always)]
fn take_saying<'a, T: Tokens<'a>>(reader: &mut T) -> Result<Saying<'a>, Invalid>
    ensures { Takes T.sure 124 (T.left reader.old) (T.left reader.new) IsSaying result }
{
    let mut saying = Saying {
        status: None,
        reason: "",
    };
    let None = take(reader, Expect::Object, 124)? else {
        return Ok(saying);
    };
    while let Some(key) = reader.next_key()? {
        saying = saying.and(reader, key)?;
    }
    Ok(saying)
}

impl<'a> Saying<'a> {
    // With the next member.
    #[inline(always)]
    fn and<T: Tokens<'a>>(self, reader: &mut T, key: &str) -> Result<Saying<'a>, Invalid>
        ensures { Takes T.sure 123 (T.left reader.old) (T.left reader.new) (λ d saying. (ms : Members)
            → IsSaying (object ms) self.entry → IsSaying (object (put key.now d ms)) saying) result }
    {
        if key == "status" {
            let status = small(take_number(reader, 123)?);
            return Ok(Saying { status, ..self });
        }
        if key == "error" {
            let reason = take_error(reader)?;
            return Ok(Saying { reason, ..self });
        }
        pass(reader, 123)?;
        Ok(self)
    }
}

// The whole number, if it is of at most 65,535.
#[inline(always)]
fn small(number: Option<u64>) -> Option<u16>
    ensures { result
        ≡ option_and_then (λ n. if nat_le n 65535 then Some n else None) number }
{
    let number = number?;
    if number <= 65_535 {
        Some(number as u16)
    } else {
        None
    }
}

// What the next value says as an error: its reason, else its type, else nothing.
#[inline(never)]
fn take_error<'a, T: Tokens<'a>>(reader: &mut T) -> Result<&'a str, Invalid>
    ensures { Takes T.sure 123 (T.left reader.old) (T.left reader.new)
        (λ d text. text.now ≡ error_text d) result }
{
    let None = take(reader, Expect::Object, 123)? else {
        return Ok("");
    };
    let mut texts = Texts {
        reason: None,
        kind: None,
    };
    while let Some(key) = reader.next_key()? {
        texts = texts.and(reader, key)?;
    }
    Ok(texts.reason.or(texts.kind).unwrap_or(""))
}

impl<'a> Texts<'a> {
    // With the next member.
    fn and<T: Tokens<'a>>(self, reader: &mut T, key: &str) -> Result<Texts<'a>, Invalid>
        ensures { Takes T.sure 122 (T.left reader.old) (T.left reader.new) (λ d texts. (ms : Members)
            → AreTexts (object ms) self.entry → AreTexts (object (put key.now d ms)) texts) result }
    {
        if key == "reason" {
            let reason = take_text(reader, 122)?;
            return Ok(Texts { reason, ..self });
        }
        if key == "type" {
            let kind = take_text(reader, 122)?;
            return Ok(Texts { kind, ..self });
        }
        pass(reader, 122)?;
        Ok(self)
    }
}
