// A page that is opened: what stands within its recorded extent, and behind it.
ghost use Rattle.std.specs.Prelude.{◌≡◌, ◌≤◌, ◌<◌, ◌+◌, ◌-◌, ◌^◌, length, take, IfOk, Ok, Err, true, Bool};
ghost use Rattle.io_traits.specs.Counts.{HasCause};
ghost use Rattle.io_traits.specs.Calls.{ChangesNothing};
ghost use Rattle.queue_page.specs.Answers.{Tells};
ghost use Rattle.queue_page.specs.Blocks.{AreBytesIn, IsPart, OnFile};
ghost use Rattle.queue_page.specs.Pages.{IsGrown, version_of, is_version, recorded_view, opened_view, counted_view, room_of, behind_view};
ghost use Rattle.queue_page.specs.declared.fault.RowFault.TheVariants as r;

use crate::element::ElementPosition;
use crate::fault::{Mismatch, RowFault};
use crate::page::Page;
use crate::page_buffer::PageBuffer;
use crate::run::read_run;
use io_traits::{PageState, Store};

/// The version of a page whose rows name no input.
const FIRST_VERSION: u8 = 1;

/// The version of a page whose rows name their inputs.
pub(crate) const LAST_VERSION: u8 = 2;

/// The number that no row has any more: 2^63 - 1.
const NUMBERS_END: u64 = 0x7FFF_FFFF_FFFF_FFFF;

/// The version of a page, from its first byte; 0 where its extent has none.
fn read_version<S: Store>(
    store: &mut S,
    name: &str,
    block: &mut PageBuffer,
    end: u64,
) -> Result<u8, RowFault>
    ensures version { OnFile S.Store store.old name.now block.old (λ file. end ≤ length file
        → Tells (λ version. version) result (Ok (version_of (take end file)))) }
    ensures some { IfOk result (λ version. 0 < version → 0 < end) }
    ensures part { OnFile S.Store store.old name.now block.old (λ file. IsPart file block.new) }
    ensures same { ChangesNothing S.tells S.seen S.moment S.may_leave store.old store.new }
    ensures cause { HasCause (S.faults store.old) (S.faults store.new) (result ≡ Err r.Fault) }
{
    block.fill(store, name, 0, end.min(1) as usize)?;
    let bytes = block.window(0, end);
    Ok(if bytes.is_empty() { 0 } else { bytes[0] })
}

/// Whether pages have this version.
pub(crate) fn is_version(version: u8) -> bool
    ensures { result ≡ is_version version }
{
    version == FIRST_VERSION || version == LAST_VERSION
}

/// The elements of a page of this version, within its recorded extent.
fn read_elements<S: Store>(
    store: &mut S,
    name: &str,
    block: &mut PageBuffer,
    state: &PageState,
    version: u8,
) -> Result<Page, RowFault>
    requires some { 0 < state.now.length }
    requires numbers { state.now.least < 2 ^ 63 }
    ensures page { OnFile S.Store store.old name.now block.old (λ file.
        state.now.length ≤ length file → Tells (λ page. page) result
        (counted_view state.now version (take state.now.length file))) }
    ensures part { OnFile S.Store store.old name.now block.old (λ file. IsPart file block.new) }
    ensures same { ChangesNothing S.tells S.seen S.moment S.may_leave store.old store.new }
    ensures cause { HasCause (S.faults store.old) (S.faults store.new) (result ≡ Err r.Fault) }
    ensures state { IfOk result (λ page. page ≡ record { version = version; state = state.now }) }
    ensures bytes { IfOk result (λ page. OnFile S.Store store.old name.now block.old (λ file.
        state.now.length ≤ length file → AreBytesIn 1 state.now.length file)) }
{
    let first = ElementPosition {
        version,
        number: state.least,
        place: 1,
        end: state.length,
    };
    let found = read_run(store, name, block, first, state.length)?;
    if let Some(misfit) = found.stop {
        return Err(RowFault::Mismatch(misfit));
    }
    if found.count != u64::from(state.count) {
        return Err(RowFault::Mismatch(Mismatch {
            place: 0,
            found: found.count,
            expected: u64::from(state.count),
        }));
    }
    Ok(Page::of(version, *state))
}

/// The page within its recorded extent, in a file of so many bytes.
pub(crate) fn read_recorded<S: Store>(
    store: &mut S,
    name: &str,
    block: &mut PageBuffer,
    state: &PageState,
    len: u64,
) -> Result<Page, RowFault>
    requires numbers { state.now.least < 2 ^ 63 }
    ensures page { OnFile S.Store store.old name.now block.old (λ file. len ≡ length file
        → Tells (λ page. page) result (recorded_view state.now file)) }
    ensures state { IfOk result (λ page. (page.state ≡ state.now) × (state.now.length ≤ len)) }
    ensures bytes { IfOk result (λ page. OnFile S.Store store.old name.now block.old (λ file.
        len ≡ length file → AreBytesIn 0 state.now.length file)) }
    ensures part { OnFile S.Store store.old name.now block.old (λ file. IsPart file block.new) }
    ensures same { ChangesNothing S.tells S.seen S.moment S.may_leave store.old store.new }
    ensures cause { HasCause (S.faults store.old) (S.faults store.new) (result ≡ Err r.Fault) }
{
    if len < state.length {
        return Err(RowFault::Mismatch(Mismatch {
            place: len,
            found: len,
            expected: state.length,
        }));
    }
    let version = read_version(store, name, block, state.length)?;
    if !is_version(version) {
        return Err(RowFault::Mismatch(Mismatch {
            place: 0,
            found: u64::from(version),
            expected: u64::from(LAST_VERSION),
        }));
    }
    read_elements(store, name, block, state, version)
}

/// How many more elements a page may take.
fn room_of(state: &PageState) -> u64
    requires { state.now.least + state.now.count ≤ 2 ^ 63 - 1 }
    ensures room { result ≡ room_of state.now }
    ensures few { result + state.now.count < 2 ^ 32 }
    ensures numbers { state.now.least + state.now.count + result ≤ 2 ^ 63 - 1 }
{
    let rows = u64::from(u32::MAX - state.count);
    let numbers = NUMBERS_END - (state.least + u64::from(state.count));
    rows.min(numbers)
}

/// The page with the run of elements behind its recorded extent, in a file of so many bytes.
pub(crate) fn read_behind<S: Store>(
    store: &mut S,
    name: &str,
    block: &mut PageBuffer,
    page: Page,
    len: u64,
) -> Result<Page, RowFault>
    requires numbers { page.state.least + page.state.count ≤ 2 ^ 63 - 1 }
    requires within { page.state.length ≤ len }
    ensures page { OnFile S.Store store.old name.now block.old (λ file. len ≡ length file
        → Tells (λ page. page) result (Ok (behind_view page file))) }
    ensures within { IfOk result (λ page. page.state.length ≤ len) }
    ensures grown { IfOk result (λ grown. IsGrown true page.state grown.state) }
    ensures bytes { IfOk result (λ grown. OnFile S.Store store.old name.now block.old (λ file.
        len ≡ length file → AreBytesIn page.state.length grown.state.length file)) }
    ensures part { OnFile S.Store store.old name.now block.old (λ file. IsPart file block.new) }
    ensures same { ChangesNothing S.tells S.seen S.moment S.may_leave store.old store.new }
    ensures cause { HasCause (S.faults store.old) (S.faults store.new) (result ≡ Err r.Fault) }
{
    let state = *page.state();
    let first = ElementPosition {
        version: page.version(),
        number: state.least + u64::from(state.count),
        place: state.length,
        end: len,
    };
    let found = read_run(store, name, block, first, room_of(&state))?;
    Ok(page.extended(found.count as u32, found.end))
}

/// The page in a file of so many bytes; of the head page with the run behind its recorded extent.
pub(crate) fn read_page<S: Store>(
    store: &mut S,
    name: &str,
    block: &mut PageBuffer,
    state: &PageState,
    head: bool,
    len: u64,
) -> Result<Page, RowFault>
    requires { state.now.least + state.now.count ≤ 2 ^ 63 - 1 }
    ensures page { OnFile S.Store store.old name.now block.old (λ file. len ≡ length file
        → Tells (λ page. page) result (opened_view head state.now file)) }
    ensures within { IfOk result (λ page. page.state.length ≤ len) }
    ensures grown { IfOk result (λ page. IsGrown head state.now page.state) }
    ensures bytes { IfOk result (λ page. OnFile S.Store store.old name.now block.old (λ file.
        len ≡ length file → AreBytesIn 0 page.state.length file)) }
    ensures same { ChangesNothing S.tells S.seen S.moment S.may_leave store.old store.new }
    ensures cause { HasCause (S.faults store.old) (S.faults store.new) (result ≡ Err r.Fault) }
{
    let page = read_recorded(store, name, block, state, len)?;
    if !head {
        return Ok(page);
    }
    read_behind(store, name, block, page, len)
}
