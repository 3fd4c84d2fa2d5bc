//! Laws over the definitions alone: of the objects that are shown, and of what the events of a run tell.

ghost use Rattle.mv_show.specs.Shown.{RowsAreOrdered};
ghost use Rattle.mv_show.specs.TrailLaws.{EventsAreOrdered, EventsAreWritten, RecordIsTold, LogsAreTold, SubmissionsAreTold};

/// Each line that shows something is an object whose keys ascend in byte order, each once; so do those of the objects in it.
#[tactic(auto, using(crate::proofs::OrderLemmas::rows_are_ordered))]
pub fn rows_are_ordered()
    ensures { RowsAreOrdered }
{}

/// What `trail` writes to the lines of a run are the events of what the lines did, each once and in their order: those of which the other
/// laws speak.
#[tactic(auto, using(crate::proofs::TrailLemmas::events_are_written))]
pub fn events_are_written()
    ensures { EventsAreWritten }
{}

/// The events `routed` and `closed` of a run are the hub's record: each entry once, in its order, and with its stamp.
#[tactic(auto, using(crate::proofs::TrailLemmas::record_is_told))]
pub fn record_is_told()
    ensures { RecordIsTold }
{}

/// The events `applied` to a party are the log of its repository: each entry once, and in its order.
#[tactic(auto, using(crate::proofs::TrailLemmas::logs_are_told))]
pub fn logs_are_told()
    ensures { LogsAreTold }
{}

/// The events `submitted` and `asked` of a party, and the answers of those `applied` to it, are what it submitted: each message once,
/// in its order, and with its number.
#[tactic(auto, using(crate::proofs::TrailLemmas::submissions_are_told))]
pub fn submissions_are_told()
    ensures { SubmissionsAreTold }
{}

/// Each event is an object whose keys ascend in byte order, each once; so do those of the objects in it.
#[tactic(auto, using(crate::proofs::OrderLemmas::events_are_ordered))]
pub fn events_are_ordered()
    ensures { EventsAreOrdered }
{}
