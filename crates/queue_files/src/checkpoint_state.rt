// What a checkpoint tells of its page, or how it is damaged.
ghost use Rattle.std.specs.Prelude.{◌≡◌, ◌≤◌, ◌+◌, ◌-◌, ◌^◌, Some, IfOk};
ghost use Rattle.queue_files.specs.Checkpoints.{no_intact_slot, bounded, told_by};
ghost use Rattle.slot_files.specs.Checkpoints.{FitsSlot};
ghost use Rattle.queue_files.specs.Telling.{misfit_of, as_told};

use io_traits::PageState;
use slot_files::Slots;

/// How many bytes a slot has.
pub(crate) const SLOT_LEN: u64 = 48;

/// The version of slots.
const VERSION: u16 = 1;

/// The greatest number of a page.
const LAST_PAGE: u32 = 0xFFFF_FFFE;

/// The number that no row has any more: 2^63 - 1.
const NUMBERS_END: u64 = 0x7FFF_FFFF_FFFF_FFFF;

/// Two numbers that differ: what stands in a checkpoint, and what ought to.
#[derive(Clone, Copy)]
pub(crate) struct Differing {
    pub(crate) found: u64,
    pub(crate) expected: u64,
}

/// The turn of the newest slot, and how the page stands of which it speaks.
pub(crate) fn told(slots: &Slots) -> Result<(u64, PageState), Differing>
    ensures told { as_told result ≡ told_by slots.now slots.now.newest }
    ensures newest { IfOk result (λ newest. slots.now.newest ≡ Some newest) }
    ensures numbers { IfOk result (λ newest. newest.1.least + newest.1.count ≤ 2 ^ 63 - 1) }
    ensures fits { IfOk result (λ newest. FitsSlot newest.0 newest.1) }
{
    let Some((turn, state)) = slots.newest else {
        return Err(no_intact_slot(slots));
    };
    if slots.version != VERSION {
        return Err(Differing {
            found: slots.version as u64,
            expected: VERSION as u64,
        });
    }
    bounded(turn, state)
}

/// Why no slot is intact.
#[tactic(auto, unfolding(crate::specs::Checkpoints::no_intact_slot))]
fn no_intact_slot(slots: &Slots) -> Differing
    ensures { misfit_of result ≡ no_intact_slot slots.now }
{
    if slots.length < SLOT_LEN {
        return Differing {
            found: slots.length,
            expected: SLOT_LEN,
        };
    }
    if slots.stored == slots.computed {
        return Differing {
            found: slots.turn,
            expected: slots.turn.saturating_sub(1),
        };
    }
    Differing {
        found: slots.stored as u64,
        expected: slots.computed as u64,
    }
}

/// What the slot of a turn says, if it is within its bounds.
#[tactic(auto, unfolding(crate::specs::Checkpoints::bounded))]
fn bounded(turn: u64, state: PageState) -> Result<(u64, PageState), Differing>
    ensures told { as_told result ≡ bounded state }
    ensures same { IfOk result (λ newest. newest ≡ (turn, state)) }
    ensures numbers { IfOk result (λ newest. newest.1.least + newest.1.count ≤ 2 ^ 63 - 1) }
    ensures fits { IfOk result (λ newest. FitsSlot newest.0 newest.1) }
{
    if state.page > LAST_PAGE {
        return Err(Differing {
            found: state.page as u64,
            expected: LAST_PAGE as u64,
        });
    }
    if state.least == 0 {
        return Err(Differing {
            found: 0,
            expected: 1,
        });
    }
    let most = NUMBERS_END - state.count as u64;
    if state.least > most {
        return Err(Differing {
            found: state.least,
            expected: most,
        });
    }
    Ok((turn, state))
}
