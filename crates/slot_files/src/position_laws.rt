//! What holds of position files as bytes. Each function here does nothing: its clauses are theorems.
ghost use Rattle.slot_files.specs.Names.{NamesDiffer};
ghost use Rattle.slot_files.specs.Positions.{SlotsAreReadBack, SlotsAreSpelled, NoSlotBeginsAnother, DamagesDiffer, PositionsHaveRoom};

/// Each slot has one spelling, and bytes are the spelling of at most one slot.
pub fn slots_have_one_spelling()
    ensures read_back { SlotsAreReadBack }
    ensures spelled { SlotsAreSpelled }
{}

/// No slot begins another.
pub fn no_slot_begins_another()
    ensures { NoSlotBeginsAnother }
{}

/// Where a file is damaged, what stands there differs from what ought to stand there.
pub fn damages_differ()
    ensures { DamagesDiffer }
{}

/// A file that records a position is long enough for each slot that comes next.
pub fn positions_have_room()
    ensures { PositionsHaveRoom }
{}

/// No two paths have one name.
pub fn names_differ()
    ensures { NamesDiffer }
{}
