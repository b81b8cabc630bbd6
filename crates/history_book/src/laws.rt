//! What holds of histories. Each function here does nothing: its clauses are theorems.
ghost use Rattle.history_book.specs.Contents.{Bytes};
ghost use Rattle.history_book.specs.Holdings.{LeftIsSound, FollowingStands, OpeningStands};
ghost use Rattle.history_book.specs.Laws.{PrefixesAreLegal, AcknowledgedWereDelivered, SettledStand, AssuredStand, OpeningsFit, FoundAreUnread, DeliveriesWereTold, FilesHoldDeliveries, LettersWereAppended, RejectionsWereAppended};
ghost use Rattle.history_book.specs.Deeds.{LegalDeedsTell, FrontsOfDeedsAreLegal, DeliveriesAreAnswered};
ghost use Rattle.history_book.specs.Givings.{ToldWereDone, RunsGiveToStdout, RunsGiveToBoxes};
ghost use Rattle.history_book.specs.Links.{AssuredArrived, ArrivalsWereDue};
ghost use Rattle.event_flow.specs.Meaning.{Makes};
ghost use Rattle.history_book.specs.Queues.{KeptFits, AcceptedIsWritten, MarkedIsSettled, RolledIsOf, AcknowledgedIsOf, PurgedIsOf, OpenedIsOf, OthersLeaveIt, AcceptedComesLast, FirstAreRead, FoundComeNext, OthersLeaveUnread};
ghost use Rattle.history_book.specs.Sound.{Places, AcknowledgedEventsStand};
ghost use Rattle.history_book.specs.Turns.{AnsweredRowsStand};
ghost use Rattle.history_book.specs.Yards.{DeliveriesReach, EverythingStands};

/// A history that is legal was legal at each of its steps.
pub fn what_was_told_is_legal()
    ensures { PrefixesAreLegal }
{}

/// Of each row that is acknowledged all was told before that its configuration derives from it.
pub fn acknowledged_rows_were_delivered()
    ensures { AcknowledgedWereDelivered }
{}

/// An event that was acknowledged to its input is still in the queue, or all was told that is due of it; and so
/// is each row that is settled.
pub fn assured_events_stand()
    ensures assured { AssuredStand }
    ensures settled { SettledStand }
{}

/// What is found in a folder that fits a history may be told by an opening, behind which the folder fits still,
/// and exactly the rows that were found are read again.
pub fn openings_fit()
    ensures fits { OpeningsFit }
    ensures unread { FoundAreUnread }
{}

/// Each delivery that was due of an acknowledged batch was told, by an entry of its own, when it was next.
pub fn deliveries_were_told()
    ensures { DeliveriesWereTold }
{}

/// What was told of a file stands in it.
pub fn files_hold_what_was_told()
    ensures { FilesHoldDeliveries }
{}

/// Letters that were due and told, and letters of events that a place rejected, were appended to the dead letter
/// queue, each at a moment that the clock gave in the call, less those that its policy sheds.
pub fn letters_were_appended()
    ensures due { LettersWereAppended }
    ensures rejected { RejectionsWereAppended }
{}

/// What a pipeline did behind the entries of earlier runs, entries with parcels that it sent and answers that it heard,
/// tells a legal history where it is legal, and each front of it is legal. Behind each delivery to an address that was
/// told since the pipeline was opened an answer was heard that a parcel of exactly these events is assured.
pub fn deliveries_are_answered()
    ensures told { LegalDeedsTell }
    ensures fronts { FrontsOfDeedsAreLegal }
    ensures answered { DeliveriesAreAnswered }
{}

/// Of all pipelines of a run: what one told was told at a moment of the run; and what was told of stdout or of a
/// box, where none was opened behind it, stands in what it was given.
pub fn runs_give_what_was_told()
    ensures told { ToldWereDone }
    ensures printed { RunsGiveToStdout }
    ensures given { RunsGiveToBoxes }
{}

/// An event that was acknowledged to its input stands unacknowledged in its queue, or all that was due of it
/// was told and stands in the files to which it was delivered, or was appended to the dead letters: in whatever
/// a stop leaves that agrees with the history.
pub fn acknowledged_events_stand()
    ensures { AcknowledgedEventsStand }
{}

/// Events of which the pipeline that sent them heard that they stand with the listener arrived there: each of
/// them is still in its queue, or all was told there that is due of it. And nothing else arrives from a parcel
/// than what was due to its address when it was sent.
pub fn assured_parcels_arrived()
    ensures arrived { AssuredArrived }
    ensures due { ArrivalsWereDue }
{}

/// Each row of a parcel that is settled with its listener is found in whatever a stop leaves of the listener's queue that
/// agrees with what it told, or is acknowledged: so it is when a turn begins that answers the parcel.
pub fn answered_rows_stand()
    ensures { AnsweredRowsStand }
{}

/// The same of all pipelines of a run, whose links are sound between any two steps: what was told of a delivery to
/// an address arrived at a pipeline, whatever any of them told since.
pub fn deliveries_reach()
    ensures { DeliveriesReach }
{}

/// Whatever a stop leaves of a queue fits what its pipeline told.
pub fn what_is_kept_fits()
    ensures { KeptFits }
{}

/// What a step makes of a queue is the queue of what its pipeline told of the step, which was legal: a row
/// that is written, a mark, a new head page, rows that are acknowledged, a page that goes, and an opening.
/// No other entry changes what the queue has to be.
pub fn steps_keep_the_queue()
    ensures written { (makes : Makes) → AcceptedIsWritten makes }
    ensures marked { (makes : Makes) → MarkedIsSettled makes }
    ensures rolled { RolledIsOf }
    ensures acknowledged { (makes : Makes) → AcknowledgedIsOf makes }
    ensures purged { (makes : Makes) → PurgedIsOf makes }
    ensures opened { (makes : Makes) → OpenedIsOf makes }
    ensures others { (makes : Makes) → OthersLeaveIt makes }
{}

/// The rows that a queue gives next are those that are unread in what its pipeline told: an accepted one comes
/// last, the first of them may be read for a batch, those that an opening finds are all, and no other entry
/// changes them.
pub fn unread_rows_come_next()
    ensures accepted { (makes : Makes) → AcceptedComesLast makes }
    ensures read { (makes : Makes) → FirstAreRead makes }
    ensures found { (makes : Makes) → FoundComeNext makes }
    ensures others { (makes : Makes) → OthersLeaveUnread makes }
{}

/// What a pipeline's places hold agrees with what it told: whatever a stop leaves of them is sound, also on the
/// way of a delivery; with entries that come next they hold what these say; and what a stop left, once it is
/// opened, agrees with the history and its opening.
pub fn places_hold_what_is_told()
    ensures left { (makes : Makes) (bytes : Bytes) (places : Places) → LeftIsSound makes bytes places }
    ensures follows { (makes : Makes) (bytes : Bytes) (places : Places)
        → FollowingStands makes bytes places }
    ensures opened { (makes : Makes) (bytes : Bytes) (places : Places)
        → OpeningStands makes bytes places }
{}

/// The same of all pipelines of a run: a row that is settled stands unacknowledged in the queue of its pipeline,
/// or all stands that its configuration derives from it, in files, in the dead letters and in other pipelines.
/// So it is with an event that was acknowledged to its input.
pub fn settled_rows_stand_everywhere()
    ensures { EverythingStands }
{}
