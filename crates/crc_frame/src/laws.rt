//! What holds of checksums, of frames and of slots as such. Each function here does nothing: its clauses are
//! theorems.

ghost use Rattle.std.specs.Prelude.{◌≡◌, [], codes};
ghost use Rattle.crc_frame.specs.Crc.{crc32};
ghost use Rattle.crc_frame.specs.Frames.{FramesAreReadBack, FramesDiffer, FramesAreRead, FramesAreReadAgain};
ghost use Rattle.crc_frame.specs.Slots.{TornSlotIsNotRead, NextSlotIsNewest, NewestSlotStandsWhole, TurnsFit, NextSlotIsOldOrNew, NextSlotIsRead, FirstSlotIsNoneOrNew, FirstSlotIsRead};

/// CRC-32 as it is defined gives what is known of it: 0 of no bytes, the check value that catalogues of
/// CRCs give for the ASCII text `123456789`, and the values of two more texts.
pub fn crcs_are_known()
    ensures none { crc32 [] ≡ 0 }
    ensures digits { crc32 (codes "123456789") ≡ 0xCBF4_3926 }
    ensures letter { crc32 (codes "a") ≡ 0xE8B7_BE43 }
    ensures sentence { crc32 (codes "The quick brown fox jumps over the lazy dog") ≡ 0x414F_A339 }
{}

/// A frame is read back, whatever bytes stand behind it, and no frame begins another one.
pub fn frames_are_read_back()
    ensures read_back { FramesAreReadBack }
    ensures differ { FramesDiffer }
{}

/// A slot of the next turn that was written whole is the newest, and one that was torn leaves the newest
/// slot as it was.
pub fn slots_are_written_in_turn()
    ensures torn { TornSlotIsNotRead }
    ensures written { NextSlotIsNewest }
{}

/// What is read stands in front as its frame, and other bytes that begin with this frame are read as the
/// same, whatever stands behind it: a frame is read again wherever it stands.
pub fn frames_are_read_wherever_they_stand()
    ensures read { FramesAreRead }
    ensures again { FramesAreReadAgain }
{}

/// The newest slot of a file stands whole in it, at the place of its turn, which has 64 bits.
pub fn the_newest_slot_stands_whole()
    ensures whole { NewestSlotStandsWhole }
    ensures turn { TurnsFit }
{}

/// A slot of the next turn that was written, be it whole or torn, leaves the newest slot as it was or is
/// the newest itself, whole; and written whole, it is the newest.
pub fn a_torn_slot_leaves_the_old_or_the_new_one()
    ensures torn { NextSlotIsOldOrNew }
    ensures written { NextSlotIsRead }
{}

/// A slot of turn 0 that was written into a file without an intact slot, be it whole or torn, leaves none
/// or is the newest, whole; and written whole, it is the newest. Such a file is no longer than a slot.
pub fn a_torn_first_slot_leaves_none_or_the_new_one()
    ensures torn { FirstSlotIsNoneOrNew }
    ensures written { FirstSlotIsRead }
{}
