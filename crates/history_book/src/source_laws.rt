//! What holds of runs. Each function here does nothing: its clauses are theorems.
ghost use Rattle.history_book.specs.Runs.{SettledRowsStand, StdoutHolds, BoxesHold};
ghost use Rattle.history_book.specs.Ends.{EmptyIsDelivered};
ghost use Rattle.history_book.specs.Premises.{RunsStandInside, StopsMeetTheStart};

/// Where all that stands around the pipelines of a run agrees with what they did, each row that was settled stands
/// unacknowledged in the queue of its pipeline, or everything stands that its configuration derives from it.
pub fn settled_rows_stand()
    ensures { SettledRowsStand }
{}

/// There stdout and boxes hold what was delivered to them since a pipeline was last opened.
pub fn outputs_hold_what_was_told()
    ensures stdout { StdoutHolds }
    ensures boxes { BoxesHold }
{}

/// Where nothing is left in the queue of a pipeline, all stands that was due of each of its rows.
pub fn empty_queues_are_delivered()
    ensures { EmptyIsDelivered }
{}

/// Of a run that agrees with what stands around it each pipeline agrees with its own store, and its deliveries to
/// addresses were answered. Wherever a stop falls, at whichever moment of each pipeline's own, so that each agrees with
/// what the stop leaves of its store, the next run may begin with that.
pub fn stops_meet_the_start()
    ensures inside { RunsStandInside }
    ensures start { StopsMeetTheStart }
{}
