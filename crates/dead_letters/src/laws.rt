//! What holds of letters, of records, of what is shed and of folders of queues. Each function here does
//! nothing: its clauses are theorems.
ghost use Rattle.dead_letters.specs.Appends.{AppendedAreRead};
ghost use Rattle.dead_letters.specs.Found.{FoundDamagesDiffer};
ghost use Rattle.dead_letters.specs.Opening.{OpeningKeeps};
ghost use Rattle.dead_letters.specs.Places.{PlacesAreExact};
ghost use Rattle.dead_letters.specs.Queues.{NamesDiffer, PiecesMakeSegments};
ghost use Rattle.dead_letters.specs.Ready.{HoldsBeside, StaysReady};
ghost use Rattle.dead_letters.specs.Records.{RecordsAreReadBack, RecordsAreSpelled};
ghost use Rattle.dead_letters.specs.Rows.{LettersBySegments};
ghost use Rattle.dead_letters.specs.Segments.{CountedHaveRoom, DamagesDiffer};
ghost use Rattle.dead_letters.specs.Shedding.{FewestSegmentsLeave};

use io_traits::Store;

/// The letters of a segment have one spelling, and bytes are the records of at most one list of letters.
pub fn records_have_one_spelling()
    ensures read_back { RecordsAreReadBack }
    ensures spelled { RecordsAreSpelled }
{}

/// No more of the oldest segments leave than have to.
pub fn fewest_segments_leave()
    ensures { FewestSegmentsLeave }
{}

/// Where the file is damaged that names the segments of a queue, what was found differs from what was
/// expected.
pub fn damages_differ()
    ensures { DamagesDiffer }
{}

/// Where the folder of a queue is damaged, what was found differs from what was expected.
pub fn damages_of_folders_differ()
    ensures { FoundDamagesDiffer }
{}

/// Segments that count are in order, and the file that names them is long enough for each slot that comes
/// next.
pub fn counted_segments_have_room()
    ensures { CountedHaveRoom }
{}

/// Bytes are refused as the body of a letter exactly at the place where reading stops: so at one place at
/// most, and at none where they are one.
pub fn places_are_exact()
    ensures { PlacesAreExact }
{}

/// No two files of a queue have one name.
pub fn names_differ()
    ensures { NamesDiffer }
{}

/// The pieces into which new records are cut make the segments that the rule says.
pub fn pieces_make_segments()
    ensures { PiecesMakeSegments }
{}

/// Behind an append the letters of a queue are those of the segments that stay, and then those of the new ones
/// that are not shed.
pub fn appended_letters_are_read()
    ensures { AppendedAreRead }
{}

/// The letters of a queue are those that the records of its segments say, one segment behind the other; or the
/// first damage among these.
pub fn letters_are_read_by_segments()
    ensures { LettersBySegments }
{}

/// Whatever a stop leaves while others change files of their own, a queue that was ready holds what it held;
/// and it is ready when they are done.
pub fn others_change_nothing<S: Store>()
    ensures holds { HoldsBeside S.Store }
    ensures ready { StaysReady S.Store }
{}

/// What a folder holds whatever a stop leaves before it is opened, and as it is read then, it holds at each
/// moment of the opening.
pub fn an_opening_keeps_what_is_held<S: Store>()
    ensures { OpeningKeeps S.Store }
{}
