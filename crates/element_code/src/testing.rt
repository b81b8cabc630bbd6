// Bytes that are tested as `decode` and `decode_row` read them, and of which nothing is made.
ghost use Rattle.std.specs.Prelude.{◌≡◌, ◌≢◌, ◌↔◌, ◌≤◌, Err, None, IfSome, length, option_map};
ghost use Rattle.crc_frame.specs.Gives.{Gives};
ghost use Rattle.element_code.specs.Faults.{IsRefusedAt};
ghost use Rattle.element_code.specs.Gives.{SpellsEvent};
ghost use Rattle.element_code.specs.Reading.{leaf_at, is_above, key_at, list_at, object_at, value_at, event_at};
ghost use Rattle.element_code.specs.RowBodies.{SpellsRow, IsRowRefusedAt, short_event_at, row_at};
ghost use Rattle.element_code.specs.Behind.{behind, done};

use crate::decoding::MOST_BYTES;
use crate::reading::{INNER_LEVELS, number_from, time_from};
use crate::row::origin_of;
use crate::tags;
use crate::utf8::{is_text, text_of};
use crc_frame::{Stop, read_front, read_run, read_u32};
use plain_data::text_order;

/// The place at which bytes stop being the spelling of an event, which is that of the fault that `decode`
/// answers; none where they are one.
///
/// The bytes are read once, as `decode` reads them, but nothing is made of them: it takes no memory.
pub fn event_fault(bytes: &[u8]) -> Option<usize>
    // There is none exactly where an event is spelled so.
    ensures none { result ≡ None ↔ SpellsEvent bytes.now }

    // It is where the bytes stop being the spelling of an event.
    ensures at { IfSome result (IsRefusedAt bytes.now) }
{
    if bytes.len() > MOST_BYTES {
        return Some(MOST_BYTES);
    }
    match test_event(bytes) {
        Ok(()) => None,
        Err(Stop::Left(left)) => Some(bytes.len() - left),
        Err(Stop::Memory) => unreachable!(),
    }
}

/// The place at which bytes stop being the body of a row, which is that of the fault that `decode_row`
/// answers; none where they are one.
///
/// The bytes are read once, as `decode_row` reads them, but nothing is made of them: it takes no memory.
pub fn row_fault(bytes: &[u8]) -> Option<usize>
    // There is none exactly where they are the body of a row.
    ensures none { result ≡ None ↔ SpellsRow bytes.now }

    // It is where the bytes stop being the body of a row.
    ensures at { IfSome result (IsRowRefusedAt bytes.now) }
{
    match test_row(bytes) {
        Ok(()) => None,
        Err(Stop::Left(left)) => Some(bytes.len() - left),
        Err(Stop::Memory) => unreachable!(),
    }
}

// Whether the bytes are the body of a row.
fn test_row(bytes: &[u8]) -> Result<(), Stop>
    ensures reads { Gives (λ u. u) result (done (row_at bytes.now)) }
    ensures memory { result ≢ Err Stop.Memory }
{
    let (_origin, body) = origin_of(bytes)?;
    test_short_event(body)
}

// Tests an event of no more bytes than one may have.
fn test_short_event(bytes: &[u8]) -> Result<(), Stop>
    ensures reads { Gives (λ u. u) result (done (short_event_at bytes.now)) }
    ensures memory { result ≢ Err Stop.Memory }
{
    if bytes.len() > MOST_BYTES {
        return Err(Stop::Left(bytes.len() - MOST_BYTES));
    }
    test_event(bytes)
}

// Whether all of the bytes spell an event.
fn test_event(bytes: &[u8]) -> Result<(), Stop>
    ensures reads { Gives (λ u. u) result (done (event_at bytes.now)) }
    ensures memory { result ≢ Err Stop.Memory }
{
    let behind = behind_object(INNER_LEVELS, bytes)?;
    let rest = behind_object(INNER_LEVELS, behind)?;
    if !rest.is_empty() {
        return Err(Stop::Left(rest.len()));
    }
    Ok(())
}

// What is behind a value that holds no others, of which the tag was read.
fn skip_scalar(tag: u8, rest: &[u8]) -> Result<&[u8], Stop>
    ensures reads { Gives (λ rest. rest.now) result (behind (leaf_at tag rest.now)) }
    ensures memory { result ≢ Err Stop.Memory }
{
    if tag == tags::NULL || tag == tags::FALSE || tag == tags::TRUE {
        return Ok(rest);
    }
    let fault = Stop::Left(rest.len() + 1);
    if tag == tags::NUMBER {
        let (own, behind) = read_front(rest, 9)?;
        return if number_from(own).is_some() {
            Ok(behind)
        } else {
            Err(fault)
        };
    }
    if tag == tags::TEXT {
        let (own, behind) = read_run(rest)?;
        return if is_text(own) { Ok(behind) } else { Err(fault) };
    }
    if tag == tags::TIME {
        let (own, behind) = read_front(rest, 12)?;
        return if time_from(own).is_some() {
            Ok(behind)
        } else {
            Err(fault)
        };
    }
    Err(fault)
}

// A key above the last one, and what is behind it.
fn key_in<'b>(last: Option<&str>, bytes: &'b [u8]) -> Result<(&'b str, &'b [u8]), Stop>
    ensures reads { Gives (λ x. (x.0.now, x.1.now)) result
        (key_at (option_map (λ s. s.now) last.entry) bytes.now) }
    ensures memory { result ≢ Err Stop.Memory }
{
    let (own, behind) = read_run(bytes)?;
    let fault = Stop::Left(bytes.len() - 4);
    let Some(key) = text_of(own) else {
        return Err(fault);
    };
    if !is_above(last, key) {
        return Err(fault);
    }
    Ok((key, behind))
}

// Whether a key stands above the last one.
fn is_above(last: Option<&str>, key: &str) -> bool
    ensures { result ≡ is_above (option_map (λ s. s.now) last.entry) key.now }
{
    match last {
        Some(last) => text_order(last, key).is_lt(),
        None => true,
    }
}

// What is behind a value of at most so many levels.
#[tactic(auto, using(crate::proofs::Behind::nested), unfolding(crate::specs::Reading::value_at))]
#[cycle(skip)]
fn behind_value(levels: usize, bytes: &[u8]) -> Result<&[u8], Stop>
    ensures reads { Gives (λ rest. rest.now) result (behind (value_at levels bytes.now)) }
    ensures memory { result ≢ Err Stop.Memory }
{
    let Some((tag, rest)) = bytes.split_first() else {
        return Err(Stop::Left(0));
    };
    if levels > 0 && *tag == tags::LIST {
        return behind_list(levels - 1, rest);
    }
    if levels > 0 && *tag == tags::OBJECT {
        return behind_object(levels - 1, rest);
    }
    skip_scalar(*tag, rest)
}

#[tactic(auto, unfolding(crate::specs::Reading::list_at))]
#[cycle(skip)]
fn behind_list(levels: usize, bytes: &[u8]) -> Result<&[u8], Stop>
    ensures reads { Gives (λ rest. rest.now) result (behind (list_at (value_at levels) bytes.now)) }
    ensures memory { result ≢ Err Stop.Memory }
{
    let (count, behind) = read_u32(bytes)?;
    let mut rest = behind;
    for _ in 0..count {
        rest = behind_value(levels, rest)?;
    }
    Ok(rest)
}

#[tactic(auto, unfolding(crate::specs::Reading::object_at))]
#[cycle(skip)]
fn behind_object(levels: usize, bytes: &[u8]) -> Result<&[u8], Stop>
    ensures reads { Gives (λ rest. rest.now) result
        (behind (object_at (value_at levels) bytes.now)) }
    ensures memory { result ≢ Err Stop.Memory }
{
    let (count, behind) = read_u32(bytes)?;
    let mut last = None;
    let mut rest = behind;
    for _ in 0..count {
        let (key, own) = key_in(last, rest)?;
        rest = behind_value(levels, own)?;
        last = Some(key);
    }
    Ok(rest)
}
