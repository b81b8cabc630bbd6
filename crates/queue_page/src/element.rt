// One element of a page, read and tested.
ghost use Rattle.std.specs.Prelude.{◌≡◌, ◌≢◌, ◌≤◌, ◌<◌, ◌+◌, ◌-◌, ◌^◌, drop, take, length, IfOk, IfErr, OnOk, Ok, Err};
ghost use Rattle.io_traits.specs.Counts.{HasCause};
ghost use Rattle.io_traits.specs.Calls.{ChangesNothing};
ghost use Rattle.queue_page.specs.Answers.{TellsBody, StopsBody, Tells, IsNoMisfit};
ghost use Rattle.queue_page.specs.Bodies.{body_at};
ghost use Rattle.queue_page.specs.Blocks.{AreBytesIn, IsPart, HoldsFrom, OnFile, left_of, window_of};
ghost use Rattle.queue_page.specs.Elements.{number_of, size_of, body_of, stored_crc, computed_crc, misfit, head_at, frame_at, element_at, next_of, body_misfit};
ghost use Rattle.queue_page.specs.declared.fault.RowFault.TheVariants as r;

use crate::fault::{Mismatch, RowFault};
use crate::page_buffer::PageBuffer;
use crate::row::PageRow;
use byteorder::{BigEndian, ByteOrder};
use crc_frame::crc32;
use element_code::{ElementFault, Origin, decode, decode_row, event_fault, row_fault};
use event_tree::Event;
use io_traits::Store;
use std::alloc::Global;

/// The bytes of an element's number.
const NUMBER_LEN: usize = 8;

/// The bytes of its number and of the length of its body.
const HEAD_LEN: usize = 12;

/// The bytes of its CRC-32.
const CRC_LEN: usize = 4;

/// The bytes that an element has beside its body.
pub(crate) const FRAME_LEN: u64 = 16;

/// Where an element is wanted.
#[derive(Clone, Copy)]
pub(crate) struct ElementPosition {
    /// The version of the page.
    pub(crate) version: u8,
    /// The number of the element.
    pub(crate) number: u64,
    /// Its place in the file.
    pub(crate) place: u64,
    /// Where the elements end at the latest.
    pub(crate) end: u64,
}

fn number_in(bytes: &[u8]) -> u64
    ensures { result ≡ number_of bytes.now }
{
    if bytes.len() < NUMBER_LEN {
        return 0;
    }
    BigEndian::read_u64(bytes)
}

fn size_in(bytes: &[u8]) -> u32
    ensures { result ≡ size_of bytes.now }
{
    if bytes.len() < HEAD_LEN {
        return 0;
    }
    BigEndian::read_u32(&bytes[NUMBER_LEN..])
}

/// How many bytes the element has whose first bytes these are.
fn total_at(spot: &ElementPosition, head: &[u8]) -> Result<u64, Mismatch>
    requires { spot.now.place ≤ spot.now.end }
    ensures total { result ≡ head_at spot.now.number spot.now.place
        (spot.now.end - spot.now.place) head.now }
    ensures within { IfOk result (λ total. (16 ≤ total) × (spot.now.place + total ≤ spot.now.end)) }
{
    let number = number_in(head);
    let total = u64::from(size_in(head)) + FRAME_LEN;
    if number != spot.number {
        return Err(Mismatch {
            place: spot.place,
            found: number,
            expected: spot.number,
        });
    }
    if spot.end - spot.place < total {
        return Err(Mismatch {
            place: spot.place,
            found: spot.place.wrapping_add(total),
            expected: spot.end,
        });
    }
    Ok(total)
}

/// What the body of a row says in a page of this version.
fn said_in(alloc: Global, version: u8, body: &[u8]) -> Result<(Origin, Event), ElementFault>
    ensures { TellsBody (length body.now) result (body_at version body.now) }
{
    if version == 1 {
        let event = decode(alloc, body)?;
        Ok((Origin::Unknown, event))
    } else {
        let row = decode_row(alloc, body)?;
        Ok((Origin::Id(row.origin), row.event))
    }
}

/// Where a body stops being one in a page of this version; none where it says a row.
fn fault_in(version: u8, body: &[u8]) -> Option<usize>
    ensures { StopsBody (length body.now) result (body_at version body.now) }
{
    if version == 1 {
        event_fault(body)
    } else {
        row_fault(body)
    }
}

/// What is wrong with a body of so many bytes that stops being one there.
fn body_misfit(place: u64, len: u64, at: u64) -> Mismatch
    requires { len < 2 ^ 63 }
    ensures { result ≡ body_misfit place len at }
{
    Mismatch {
        place,
        found: at,
        expected: if at == len { len + 1 } else { len },
    }
}

/// The body of the element that these bytes are, whose CRC-32 matches.
fn body_in<'f>(spot: &ElementPosition, frame: &'f [u8]) -> Result<&'f [u8], Mismatch>
    requires long { 16 ≤ length frame.now }
    ensures body { IfOk result (λ body. body.now ≡ body_of frame.now) }
    ensures matches { OnOk result (stored_crc frame.now ≡ computed_crc frame.now) }
    ensures differs { IfErr result (λ fault. (stored_crc frame.now ≢ computed_crc frame.now)
        × (fault ≡ misfit spot.now.place (stored_crc frame.now) (computed_crc frame.now))) }
{
    let (covered, crc) = frame.split_at(frame.len() - CRC_LEN);
    let stored = BigEndian::read_u32(crc);
    let computed = crc32(covered);
    if stored != computed {
        return Err(Mismatch {
            place: spot.place,
            found: u64::from(stored),
            expected: u64::from(computed),
        });
    }
    Ok(&covered[HEAD_LEN..])
}

/// The row of the element that these bytes are.
fn row_in(alloc: Global, spot: &ElementPosition, frame: &[u8]) -> Result<PageRow, RowFault>
    requires long { 16 ≤ length frame.now }
    requires fits { spot.now.place + length frame.now < 2 ^ 64 }
    ensures row { Tells (λ row. row) result
        (frame_at spot.now.version spot.now.number spot.now.place frame.now) }
    ensures next { IfOk result (λ row. row.next ≡ spot.now.place + length frame.now) }
    ensures bytes { AreBytesIn 0 (length frame.now) frame.now }
    ensures fault { result ≢ Err r.Fault }
{
    let body = body_in(spot, frame)?;
    match said_in(alloc, spot.version, body) {
        Ok((origin, event)) => Ok(PageRow {
            number: spot.number,
            origin,
            event,
            next: spot.place + frame.len() as u64,
        }),
        Err(ElementFault::At(at)) => Err(RowFault::Mismatch(body_misfit(
            spot.place,
            body.len() as u64,
            at as u64,
        ))),
        Err(ElementFault::Memory) => Err(RowFault::Memory),
    }
}

/// Tests the element that these bytes are, of which no row is made, and gives the place behind it.
fn next_in(spot: &ElementPosition, frame: &[u8]) -> Result<u64, Mismatch>
    requires long { 16 ≤ length frame.now }
    requires fits { spot.now.place + length frame.now < 2 ^ 64 }
    ensures next { result ≡ next_of
        (frame_at spot.now.version spot.now.number spot.now.place frame.now) }
    ensures behind { IfOk result (λ next. next ≡ spot.now.place + length frame.now) }
    ensures bytes { AreBytesIn 0 (length frame.now) frame.now }
{
    let body = body_in(spot, frame)?;
    match fault_in(spot.version, body) {
        None => Ok(spot.place + frame.len() as u64),
        Some(at) => Err(body_misfit(spot.place, body.len() as u64, at as u64)),
    }
}

/// Reads the first bytes of an element, and gives how many it has as a whole.
fn read_total<S: Store>(
    store: &mut S,
    name: &str,
    block: &mut PageBuffer,
    spot: &ElementPosition,
) -> Result<u64, RowFault>
    requires { spot.now.place ≤ spot.now.end }
    ensures total { OnFile S.Store store.old name.now block.old (λ file.
        spot.now.end ≤ length file
        → Tells (λ total. total) result (head_at spot.now.number spot.now.place
        (spot.now.end - spot.now.place)
        (left_of file spot.now.place spot.now.end))) }
    ensures within { IfOk result (λ total. (16 ≤ total) × (spot.now.place + total ≤ spot.now.end)) }
    ensures part { OnFile S.Store store.old name.now block.old (λ file. IsPart file block.new) }
    ensures same { ChangesNothing S.tells S.seen S.moment S.may_leave store.old store.new }
    ensures cause { HasCause (S.faults store.old) (S.faults store.new) (result ≡ Err r.Fault) }
{
    let left = spot.end - spot.place;
    block.fill(store, name, spot.place, left.min(HEAD_LEN as u64) as usize)?;
    Ok(total_at(spot, block.window(spot.place, spot.end))?)
}

/// Reads an element that has so many bytes as a whole, so that the block holds it.
fn read_frame<S: Store>(
    store: &mut S,
    name: &str,
    block: &mut PageBuffer,
    spot: &ElementPosition,
    total: u64,
) -> Result<(), RowFault>
    requires within { spot.now.place + total ≤ spot.now.end }
    ensures frame { OnOk result (OnFile S.Store store.old name.now block.old (λ file.
        spot.now.end ≤ length file
        → take total (window_of block.new spot.now.place spot.now.end)
        ≡ take total (left_of file spot.now.place spot.now.end))) }
    ensures whole { OnFile S.Store store.old name.now block.old (λ file.
        spot.now.end ≤ length file → IfErr result (λ fault. IsNoMisfit fault)) }
    ensures held { OnOk result (HoldsFrom block.new spot.now.place spot.now.end total) }
    ensures part { OnFile S.Store store.old name.now block.old (λ file. IsPart file block.new) }
    ensures same { ChangesNothing S.tells S.seen S.moment S.may_leave store.old store.new }
    ensures cause { HasCause (S.faults store.old) (S.faults store.new) (result ≡ Err r.Fault) }
{
    block.fill(store, name, spot.place, total as usize)?;
    let held = block.window(spot.place, spot.end).len() as u64;
    if held < total {
        return Err(RowFault::Mismatch(Mismatch {
            place: spot.place,
            found: spot.place.wrapping_add(total),
            expected: spot.place.wrapping_add(held),
        }));
    }
    Ok(())
}

/// Reads the element that is wanted there, so that the block holds it, and gives how many bytes it has.
fn read_whole<S: Store>(
    store: &mut S,
    name: &str,
    block: &mut PageBuffer,
    spot: &ElementPosition,
) -> Result<u64, RowFault>
    requires { spot.now.place ≤ spot.now.end }
    ensures total { OnFile S.Store store.old name.now block.old (λ file.
        spot.now.end ≤ length file
        → Tells (λ total. total) result (head_at spot.now.number spot.now.place
        (spot.now.end - spot.now.place)
        (left_of file spot.now.place spot.now.end))) }
    ensures frame { IfOk result (λ total. OnFile S.Store store.old name.now block.old (λ file.
        spot.now.end ≤ length file
        → take total (window_of block.new spot.now.place spot.now.end)
        ≡ take total (left_of file spot.now.place spot.now.end))) }
    ensures within { IfOk result (λ total. (16 ≤ total) × (spot.now.place + total ≤ spot.now.end)) }
    ensures held { IfOk result (λ total.
        HoldsFrom block.new spot.now.place spot.now.end total) }
    ensures part { OnFile S.Store store.old name.now block.old (λ file. IsPart file block.new) }
    ensures same { ChangesNothing S.tells S.seen S.moment S.may_leave store.old store.new }
    ensures cause { HasCause (S.faults store.old) (S.faults store.new) (result ≡ Err r.Fault) }
{
    let total = read_total(store, name, block, spot)?;
    read_frame(store, name, block, spot, total)?;
    Ok(total)
}

/// Reads the element that is wanted there.
pub(crate) fn read_element<S: Store>(
    alloc: Global,
    store: &mut S,
    name: &str,
    block: &mut PageBuffer,
    spot: &ElementPosition,
) -> Result<PageRow, RowFault>
    requires { spot.now.place ≤ spot.now.end }
    ensures row { OnFile S.Store store.old name.now block.old (λ file.
        spot.now.end ≤ length file
        → Tells (λ row. row) result (element_at spot.now.version spot.now.number spot.now.place
        (left_of file spot.now.place spot.now.end))) }
    ensures next { IfOk result (λ row. (spot.now.place + 16 ≤ row.next)
        × (row.next ≤ spot.now.end)) }
    ensures bytes { IfOk result (λ row. OnFile S.Store store.old name.now block.old (λ file.
        spot.now.end ≤ length file → AreBytesIn spot.now.place row.next file)) }
    ensures part { OnFile S.Store store.old name.now block.old (λ file. IsPart file block.new) }
    ensures same { ChangesNothing S.tells S.seen S.moment S.may_leave store.old store.new }
    ensures cause { HasCause (S.faults store.old) (S.faults store.new) (result ≡ Err r.Fault) }
{
    let total = read_whole(store, name, block, spot)?;
    let bytes = block.window(spot.place, spot.end);
    row_in(alloc, spot, &bytes[..total as usize])
}

/// Tests the element that is wanted there as `read_element` reads it, but no row is made of it, and gives
/// the place behind it.
pub(crate) fn test_element<S: Store>(
    store: &mut S,
    name: &str,
    block: &mut PageBuffer,
    spot: &ElementPosition,
) -> Result<u64, RowFault>
    requires { spot.now.place ≤ spot.now.end }
    ensures next { OnFile S.Store store.old name.now block.old (λ file.
        spot.now.end ≤ length file
        → Tells (λ next. next) result (next_of (element_at spot.now.version spot.now.number
        spot.now.place (left_of file spot.now.place spot.now.end)))) }
    ensures within { IfOk result (λ next. (spot.now.place + 16 ≤ next)
        × (next ≤ spot.now.end)) }
    ensures bytes { IfOk result (λ next. OnFile S.Store store.old name.now block.old (λ file.
        spot.now.end ≤ length file → AreBytesIn spot.now.place next file)) }
    ensures part { OnFile S.Store store.old name.now block.old (λ file. IsPart file block.new) }
    ensures same { ChangesNothing S.tells S.seen S.moment S.may_leave store.old store.new }
    ensures cause { HasCause (S.faults store.old) (S.faults store.new) (result ≡ Err r.Fault) }
{
    let total = read_whole(store, name, block, spot)?;
    let bytes = block.window(spot.place, spot.end);
    Ok(next_in(spot, &bytes[..total as usize])?)
}

/// Reads the number of the element that stands there.
pub(crate) fn read_number<S: Store>(
    store: &mut S,
    name: &str,
    block: &mut PageBuffer,
    place: u64,
    end: u64,
) -> Result<u64, RowFault>
    requires { place ≤ end }
    ensures number { OnFile S.Store store.old name.now block.old (λ file. end ≤ length file
        → Tells (λ number. number) result (Ok (number_of (left_of file place end)))) }
    ensures part { OnFile S.Store store.old name.now block.old (λ file. IsPart file block.new) }
    ensures same { ChangesNothing S.tells S.seen S.moment S.may_leave store.old store.new }
    ensures cause { HasCause (S.faults store.old) (S.faults store.new) (result ≡ Err r.Fault) }
{
    block.fill(
        store,
        name,
        place,
        (end - place).min(HEAD_LEN as u64) as usize,
    )?;
    Ok(number_in(block.window(place, end)))
}
