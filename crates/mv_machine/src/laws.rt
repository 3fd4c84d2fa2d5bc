//! Laws of the list machine, over the definitions alone.
#![tactic(auto, using(crate::proofs::HeadlineLemmas::laws))]

ghost use Rattle.std.specs.Prelude.{◌≡◌, IsTrue};
ghost use Rattle.mv_machine.specs.Replies.{changes_nothing};
ghost use Rattle.mv_machine.specs.State.{State};
ghost use Rattle.mv_machine.specs.Lawful.{IsLawful, IsWellFormed};
ghost use Rattle.mv_machine.specs.Stamps.{StampsAreDistinct};
ghost use Rattle.mv_machine.specs.Headline.{Follows, AppliedIsSubmitted, NumbersRise, HeadlineHolds};
ghost use Rattle.mv_machine.specs.Bounded.{KeepsLimits};
ghost use Rattle.mv_machine.specs.Laws.{InRuns, InLawfulStates, InSteps, ClosedLinksStayClosed, StampsSuffice, NumbersSuffice, IsTransitive};

/// Whatever the steps and whatever their order: what each repository applied from each sender is a prefix of what the record
/// put on their link, in order and each once, and what was routed is a prefix of what its sender submitted.
pub fn runs_are_lawful()
    ensures well_formed { InRuns IsWellFormed }
    ensures lawful { InRuns IsLawful }
{}

/// Whatever steps are run and then others: over a link that stood closed in between, nothing is applied that was submitted after
/// that; and over no link is anything applied that was routed after its closing.
pub fn closed_links_stay_closed()
    ensures { ClosedLinksStayClosed }
{}

/// The numbers of 32 bits suffice, where there are at most 64 parties, each of which submitted at most 1,000,000 messages: for the stamps of
/// every lawful record, and in every lawful state for the items of a link, so that it is busy for a message only where its window has no room.
pub fn numbers_suffice()
    ensures stamps { StampsSuffice }
    ensures numbers { NumbersSuffice }
{}

/// In every lawful state, no stamp stands twice in a log.
pub fn stamps_are_distinct()
    ensures { InLawfulStates StampsAreDistinct }
{}

/// In every lawful state, item `k` in the log of a repository from a sender is the `k`-th message that the sender submitted, and its
/// stamp is the place of the record where it was routed; the repository was a target of it then, over an open link; and the numbers
/// rise along each link.
pub fn items_are_submitted()
    ensures submitted { InLawfulStates AppliedIsSubmitted }
    ensures rising { InLawfulStates NumbersRise }
{}

/// Of two lawful states, of which one follows the other and is well formed, the headline holds: what was applied was submitted, in order and each
/// once; over a link that was closed in the first nothing is applied in the second that was submitted since; and repositories
/// with the same messages about a pack agree on it.
pub fn lawful_states_keep_headline()
    ensures { (old new : State) → IsLawful old → IsWellFormed new → IsLawful new → Follows old new
        → HeadlineHolds old new }
{}

/// The headline holds over two calls, one after the other, where it holds over each.
pub fn headlines_join()
    ensures { IsTransitive HeadlineHolds }
{}

/// The headline holds over each step, and over each query that is asked, where the state before it is well formed and lawful.
pub fn steps_keep_headline()
    ensures { InSteps (λ old reply new. IsWellFormed old → IsLawful old → HeadlineHolds old new) }
{}

/// A step or a query that is refused has changed nothing, nor has one that is answered by a verdict.
pub fn refusals_change_nothing()
    ensures { InSteps (λ old reply new. IsTrue (changes_nothing reply) → new ≡ old) }
{}

/// Whatever the steps and whatever their order: no party submits more than it may, nor waits for more than its uplink takes; no link
/// has more under way than its wire takes, nor more waiting to be relayed than its window; and what is under way was relayed.
pub fn limits_are_kept()
    ensures { InRuns KeepsLimits }
{}
