//! Laws over the definitions alone: of the replies, and of what lines ask.

ghost use Rattle.mv_format.specs.KeyOrder.{RepliesAreOrdered};
ghost use Rattle.mv_format.specs.RequestLaws.{RequestsReadBack, ReadRequestsAreLegal};

/// Each reply is a JSON object whose keys ascend in byte order, so that there is one text of it.
#[tactic(auto, using(crate::proofs::KeyOrderLemmas::replies_are_ordered))]
pub fn replies_are_ordered()
    ensures { RepliesAreOrdered }
{}

/// The line that asks a step, or an opening, is read as just that: each party, number, pack and message stands in it where
/// the line names it.
#[tactic(auto, using(crate::proofs::RequestLawsLemmas::requests_read_back))]
pub fn requests_read_back()
    ensures { RequestsReadBack }
{}

/// What a line asks is legal: its numbers have 32 bits, its message is legal, and its pack and its markets are those of
/// readers. So the lines of `requests_read_back` ask all that any line does.
#[tactic(auto, using(crate::proofs::RequestLawsLemmas::read_requests_are_legal))]
pub fn read_requests_are_legal()
    ensures { ReadRequestsAreLegal }
{}
