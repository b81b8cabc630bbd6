//! What holds of slots as bytes. Each function here does nothing: its clauses are theorems.
ghost use Rattle.slot_files.specs.Checkpoints.{SlotsAreReadBack, SlotsAreSpelled, NoSlotBeginsAnother, MisplacedTurnIsOdd};

/// Each slot has one spelling, and bytes are the spelling of at most one slot.
pub fn slots_have_one_spelling()
    ensures read_back { SlotsAreReadBack }
    ensures spelled { SlotsAreSpelled }
{}

/// No slot begins another.
pub fn no_slot_begins_another()
    ensures { NoSlotBeginsAnother }
{}

/// Where no slot is intact though the CRC-32 of the one at 0 matches, the turn of that slot is odd, and so
/// at least 1.
pub fn the_turn_of_a_misplaced_slot_is_odd()
    ensures { MisplacedTurnIsOdd }
{}
