//! What holds of all that the machine allows. Each function here does nothing: its clauses are theorems.
ghost use Rattle.event_flow.specs.Meaning.{Makes};
ghost use Rattle.history_book.specs.Contents.{Bytes};
ghost use Rattle.history_book.specs.Links.{Listening};
ghost use Rattle.history_book.specs.Sound.{Places};
ghost use Rattle.line_machine.specs.Accepting.{OpenedWaysStand, WaysStandStill};
ghost use Rattle.line_machine.specs.Answering.{AnswersStand, OpenedLinksStand};
ghost use Rattle.line_machine.specs.Boxes.{BoxesStandStill, BoxesStay, ClosedAreUnwanted, OpenedBoxesStand};
ghost use Rattle.line_machine.specs.Closing.{EndsCloseOnce, EndsFollow, FaultsCloseNone, NoneIsOut};
ghost use Rattle.line_machine.specs.Coming.{InputsStandStill, OpenedInputsStand, RecordedAreSettled};
ghost use Rattle.line_machine.specs.Covering.{MarksCoverStill, OpenedMarksCover, OpenedRowsAreCovered, RowsAreCoveredStill};
ghost use Rattle.line_machine.specs.Doing.{DoesLegallyStill, OpenedDoesLegally};
ghost use Rattle.line_machine.specs.EndsLine.{AnswersTellEnds};
ghost use Rattle.line_machine.specs.Inside.{CallsStandInside, InsideStays, StepsStandInside, StopsStandInside};
ghost use Rattle.line_machine.specs.Joining.{InputsAreSound, LinesDoLegally, PipelinesAreSound, ReleasedAreAnswered, RestIsDoneThere, StopIsStoppedThere, TakersAreSound};
ghost use Rattle.line_machine.specs.Kits.{KitsStay, KitsAreTheirs, OpenedKitsAreTheirs};
ghost use Rattle.line_machine.specs.Laws.{CallsFollow, StepsFollow, WaysLeaveNoMore};
ghost use Rattle.line_machine.specs.Openings.{OpenedLineStands, RunsStand};
ghost use Rattle.line_machine.specs.Outputs.{OutputsTookWhatWasTold};
ghost use Rattle.line_machine.specs.Lines.{CallsStandWhole, OpenedStandsWhole, StandsWholeStill};
ghost use Rattle.line_machine.specs.Positions.{RecordedPositionsStand};
ghost use Rattle.line_machine.specs.Resting.{RestIsDone, StopIsStopped};
ghost use Rattle.line_machine.specs.Settling.{OpenedLineSettles, StepsSettle};
ghost use Rattle.line_machine.specs.Sending.{OpenedParcelsWereDue, ParcelsWereDue};
ghost use Rattle.line_machine.specs.Serving.{EndsStandStill, OpenedEndsStand};

/// Whatever step a line makes, and whatever a call of it answers, its history stays legal, whatever a stop within it leaves is sound with the history
/// before or behind it, and the line stands where its history does. What its queue may be on the way of a step leaves
/// nothing else.
pub fn steps_follow()
    ensures steps { (makes : Makes) (listening : Listening) (bytes : Bytes) (places : Places)
        → StepsFollow makes bytes places listening }
    ensures calls { (makes : Makes) (listening : Listening) (bytes : Bytes) (places : Places)
        → CallsFollow makes bytes places listening }
    ensures ways { (makes : Makes) (bytes : Bytes) (places : Places) → WaysLeaveNoMore makes bytes places }
{}

/// So it is behind any steps, one behind the other, and from the opening on: a line that is opened over what a stop
/// left stands where the history with the opening does.
pub fn lines_stand()
    ensures opened { (makes : Makes) (listening : Listening) (bytes : Bytes) (places : Places)
        → OpenedLineStands makes listening bytes places }
    ensures runs { (makes : Makes) (listening : Listening) (bytes : Bytes) (places : Places)
        → RunsStand makes listening bytes places }
{}

/// No step loses a kit, doubles one or closes one that is out; and a batch is run by a kit of the generation under
/// which it was read.
pub fn kits_stay()
    ensures opened { (makes : Makes) (listening : Listening) (bytes : Bytes) (places : Places)
        → OpenedKitsAreTheirs makes listening bytes places }
    ensures counted { (makes : Makes) (listening : Listening) (bytes : Bytes) (places : Places)
        → KitsStay makes listening bytes places }
    ensures theirs { (makes : Makes) (listening : Listening) (bytes : Bytes) (places : Places)
        → KitsAreTheirs makes listening bytes places }
{}

/// What a line took from links and answered agrees with what it told, from its opening on, behind each step: it answers that a parcel is
/// assured only where all its events stand in rows that are settled, and that nobody listens only to one of which
/// no event was accepted; and rows that name a parcel are what is made of its events, in order.
pub fn answers_are_true()
    ensures opened { (makes : Makes) (listening : Listening) (bytes : Bytes) (places : Places)
        → OpenedLinksStand makes listening bytes places }
    ensures kept { (makes : Makes) (listening : Listening) (bytes : Bytes) (places : Places)
        → AnswersStand makes listening bytes places }
{}

/// A line that has nothing left to do is done: every row is acknowledged, nothing is found in its queue in whatever a
/// stop leaves, each input is at its end and was told so, and each parcel has its answer. One that was told to stop, and
/// has come to an end, has all its rows marked and assured, and has drained where it was to. What both rest on holds
/// from the opening on.
pub fn rest_is_done()
    ensures opened { (makes : Makes) (listening : Listening) (bytes : Bytes) (places : Places)
        → OpenedLineSettles makes listening bytes places }
    ensures kept { (makes : Makes) (listening : Listening) (bytes : Bytes) (places : Places)
        → StepsSettle makes listening bytes places }
    ensures stopped { (makes : Makes) (listening : Listening) (bytes : Bytes) (places : Places)
        → StopIsStopped makes listening bytes places }
    ensures done { (makes : Makes) (listening : Listening) (bytes : Bytes) (places : Places)
        → RestIsDone makes listening bytes places }
{}

/// Each parcel with events that a line sent was, when it was sent, the next delivery that was due of one of its
/// batches to the address, and parcels are numbered; so it is from the opening on, behind each step.
pub fn parcels_were_due()
    ensures opened { (makes : Makes) (listening : Listening) (bytes : Bytes) (places : Places)
        → OpenedParcelsWereDue makes listening bytes places }
    ensures kept { (makes : Makes) (listening : Listening) (bytes : Bytes) (places : Places)
        → ParcelsWereDue makes listening bytes places }
{}

/// Whatever a line tells, sends and hears is legal, from its opening on, behind each step, whatever earlier runs told:
/// each delivery to an address is told once an answer was heard, since the opening, that a parcel of exactly its events
/// is assured, and each such answer serves one.
pub fn deeds_are_legal()
    ensures opened { (makes : Makes) (listening : Listening) (bytes : Bytes) (places : Places)
        → OpenedDoesLegally makes listening bytes places }
    ensures kept { (makes : Makes) (listening : Listening) (bytes : Bytes) (places : Places)
        → DoesLegallyStill makes listening bytes places }
{}

/// What came to an input that listens on no address, since it was opened, is what it accepted of it, in order, and then
/// what it holds; and of each of its rows it was told that they are settled, or the line keeps it. Each place of a
/// watched file that is recorded stands behind a line, which is a settled row, and so is all that came before it.
pub fn inputs_give_what_came()
    ensures opened { (makes : Makes) (listening : Listening) (bytes : Bytes) (places : Places)
        → OpenedInputsStand makes listening bytes places }
    ensures kept { (makes : Makes) (listening : Listening) (bytes : Bytes) (places : Places)
        → InputsStandStill makes listening bytes places }
    ensures recorded { (makes : Makes) (listening : Listening) (bytes : Bytes) (places : Places)
        → RecordedAreSettled makes listening bytes places }
{}

/// Where nothing was written or acknowledged since the last mark, that covers each row that was accepted since the
/// opening, also those of which an input wasn't told and those of parcels that wait for an answer.
pub fn marks_cover()
    ensures opened { (makes : Makes) (listening : Listening) (bytes : Bytes) (places : Places)
        → OpenedMarksCover makes listening bytes places }
    ensures kept { (makes : Makes) (listening : Listening) (bytes : Bytes) (places : Places)
        → MarksCoverStill makes listening bytes places }
    ensures rows_opened { (makes : Makes) (listening : Listening) (bytes : Bytes) (places : Places)
        → OpenedRowsAreCovered makes listening bytes places }
    ensures rows_kept { (makes : Makes) (listening : Listening) (bytes : Bytes) (places : Places)
        → RowsAreCoveredStill makes listening bytes places }
{}

/// Each end of a link at which a line listens belongs to an input that listens, or listened, on its address, and it
/// listens while that is open; parcels are lost there only once it is closed.
pub fn ends_are_served()
    ensures opened { (makes : Makes) (listening : Listening) (bytes : Bytes) (places : Places)
        → OpenedEndsStand makes listening bytes places }
    ensures kept { (makes : Makes) (listening : Listening) (bytes : Bytes) (places : Places)
        → EndsStandStill makes listening bytes places }
{}

/// No step loses a box of an output or doubles one. The boxes of the newest configuration, and those of each batch that is
/// out, are there; a box is closed once no batch of its configuration is out any more, and no other is.
pub fn boxes_are_closed_once()
    ensures counted { (makes : Makes) (listening : Listening) (bytes : Bytes) (places : Places)
        → BoxesStay makes listening bytes places }
    ensures closed { (makes : Makes) (listening : Listening) (bytes : Bytes) (places : Places)
        → ClosedAreUnwanted makes listening bytes places }
    ensures opened { (makes : Makes) (listening : Listening) (bytes : Bytes) (places : Places)
        → OpenedBoxesStand makes listening bytes places }
    ensures kept { (makes : Makes) (listening : Listening) (bytes : Bytes) (places : Places)
        → BoxesStandStill makes listening bytes places }
{}

/// A line's end closes each kit at home and each box, once: of those that the line had and that came with configurations
/// each was closed once by then, or a kit is out with a job. None is out where the line is at rest, or was told to stop and
/// has come to an end; a step that it doesn't go on from closes none. The end tells nothing, and leaves the places as they
/// are.
pub fn ends_close_once()
    ensures counted { (makes : Makes) (listening : Listening) (bytes : Bytes) (places : Places)
        → EndsCloseOnce makes listening bytes places }
    ensures none_out { (makes : Makes) (listening : Listening) (bytes : Bytes) (places : Places)
        → NoneIsOut makes listening bytes places }
    ensures faults { (makes : Makes) (listening : Listening) (bytes : Bytes) (places : Places)
        → FaultsCloseNone makes listening bytes places }
    ensures follows { (makes : Makes) (listening : Listening) (bytes : Bytes) (places : Places)
        → EndsFollow makes listening bytes places }
{}

/// Whether a line takes further calls is told by the answer of the last one alone.
pub fn answers_tell_ends()
    ensures { (makes : Makes) (listening : Listening) (bytes : Bytes) (places : Places)
        → AnswersTellEnds makes listening bytes places }
{}

/// What a step gave to stdout and to boxes is what it tells of them.
pub fn outputs_took_what_was_told()
    ensures { (makes : Makes) (listening : Listening) (bytes : Bytes) (places : Places)
        → OutputsTookWhatWasTold makes listening bytes places }
{}

/// All of this holds of a line at once: from its opening on, behind each step that it goes on from, and behind each call.
pub fn lines_stand_whole()
    ensures opened { (makes : Makes) (listening : Listening) (bytes : Bytes) (places : Places)
        → OpenedStandsWhole makes listening bytes places }
    ensures kept { (makes : Makes) (listening : Listening) (bytes : Bytes) (places : Places)
        → StandsWholeStill makes listening bytes places }
    ensures calls { (makes : Makes) (listening : Listening) (bytes : Bytes) (places : Places)
        → CallsStandWhole makes listening bytes places }
{}

/// Each event that a line accepted since it was opened came by an input that it has; while that is open, in no parcel
/// where the input listens on no address, and else through an end that the line has for it.
pub fn events_came_by_inputs()
    ensures opened { (makes : Makes) (listening : Listening) (bytes : Bytes) (places : Places)
        → OpenedWaysStand makes listening bytes places }
    ensures kept { (makes : Makes) (listening : Listening) (bytes : Bytes) (places : Places)
        → WaysStandStill makes listening bytes places }
{}

/// A line among the pipelines of a run, by all that was done there and the links that stand behind it: what it did is
/// legal behind what it had told in earlier runs; whatever a stop leaves of its store, its inputs, by the looks that they
/// made, and the ends at which it listens agree with what it told; and where it gives an end back, each parcel with
/// events that was taken there has its answer.
pub fn lines_stand_in_runs()
    ensures legal { (makes : Makes) (listening : Listening) (bytes : Bytes) (places : Places)
        → LinesDoLegally makes listening bytes places }
    ensures pipelines { PipelinesAreSound }
    ensures inputs { (makes : Makes) (listening : Listening) (bytes : Bytes) (places : Places)
        → InputsAreSound makes listening bytes places }
    ensures takers { (makes : Makes) (listening : Listening) (bytes : Bytes) (places : Places)
        → TakersAreSound makes listening bytes places }
    ensures released { (makes : Makes) (listening : Listening) (bytes : Bytes) (places : Places)
        → ReleasedAreAnswered makes listening bytes places }
{}

/// There a line that is at rest is done, by the same words as the run; and one that was told to stop and has come to an
/// end is stopped, where no result of a batch was lost, and it goes on with each end of a link whose sender drains.
pub fn rest_is_done_in_runs()
    ensures done { (makes : Makes) (listening : Listening) (bytes : Bytes) (places : Places)
        → RestIsDoneThere makes listening bytes places }
    ensures stopped { (makes : Makes) (listening : Listening) (bytes : Bytes) (places : Places)
        → StopIsStoppedThere makes listening bytes places }
{}

/// Where recorded positions agree with what was told before a step or a call, whatever a stop within it leaves stands
/// inside a run: it agrees with what was told up to some moment, recorded positions among it, and a delivery to an
/// address counts among that only where its answer was taken before. So does whatever it leaves whose positions are
/// recorded in the call, or were before. It stands so whatever is done behind it, and however watched files grow.
pub fn stops_stand_inside()
    ensures steps { StepsStandInside }
    ensures calls { CallsStandInside }
    ensures positions { StopsStandInside }
    ensures later { InsideStays }
{}

/// Each position of a watched file that a step records, or may have recorded, agrees with what was told before the step:
/// the bytes up to it, behind where the input began to read, are paid for by settled rows of lines of that file alone.
pub fn recorded_positions_stand()
    ensures { (makes : Makes) (listening : Listening) (bytes : Bytes) (places : Places)
        → RecordedPositionsStand makes listening bytes places }
{}
