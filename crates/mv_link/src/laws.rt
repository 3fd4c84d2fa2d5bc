//! Laws of links, over the definitions alone.

ghost use Rattle.mv_link.specs.Frames.{AcceptedIsPrefix, OneMoreFrameIsLookedAt};

/// Whatever frames of a list come, lost, repeated or out of order: what is accepted of them is a prefix of the list, in
/// order and each item once.
#[tactic(auto, using(crate::proofs::LinkLemmas::accepted_front))]
pub fn accepted_is_prefix()
    ensures { AcceptedIsPrefix }
{}

/// Whatever frames came before, one more is accepted where its number is the next; where it is old, or behind a gap, what is
/// accepted stays as it was. So a receiving end that looks at each frame, and advances at each that is next, counts what is
/// accepted.
#[tactic(auto, using(crate::proofs::LinkLemmas::one_more))]
pub fn one_more_frame_is_looked_at()
    ensures { OneMoreFrameIsLookedAt }
{}
