//! What a run is to do, and why it has no complete outcome.

use crate::work::Work;
use mv_ends::Outcome;
use mv_hub::Parties;
use mv_machine::Limits;

/// What each party is to submit, in order.
#[derive(Drop)]
pub struct Plan {
    /// The parties, and the markets that each serves.
    pub parties: Parties,
    /// What a link keeps, how much is under way at most, and how many messages each party submits in all.
    pub limits: Limits,
    /// A list for each party, party 0 first. A query in it is asked, whether the party holds the pack or not; an answer is none
    /// that can be planned.
    pub work: Work,
}

/// Why a run has no complete outcome.
#[derive(Drop)]
pub enum WorkFault {
    /// K1: the turns were used up, or nothing more could come.
    Unfinished(Outcome),
    /// K2: memory was refused to a worker.
    Memory(Outcome),
    /// K3: memory was refused before the first worker, or a worker could not be started; nothing was submitted.
    Start,
    /// K4: the plan has another number of lists than of parties, or an answer is planned; nothing ran.
    Plan,
}
