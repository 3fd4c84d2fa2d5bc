//! Laws of the ends, over the definitions alone.

ghost use Rattle.mv_machine.specs.Laws.{IsTransitive};
ghost use Rattle.mv_ends.specs.HubEnd.{SameHubEnd};
ghost use Rattle.mv_ends.specs.RepoEnd.{SameRepoEnd};
ghost use Rattle.mv_ends.specs.Laws.{AreSameRepos, EndsStayEnds, IsSameItself, IsSameByOne};

/// The ends of one opening stay such: each call keeps what it says of its end, and that is enough.
#[tactic(auto, using(crate::proofs::CallerLemmas::ends_kept))]
pub fn ends_stay_ends()
    ensures { EndsStayEnds }
{}

/// The hub's end is the same over no call, and over calls that follow one another.
pub fn hub_end_stays()
    ensures itself { IsSameItself SameHubEnd }
    ensures further { IsTransitive SameHubEnd }
{}

/// A repository's end is the same over no call, and over calls that follow one another.
pub fn repo_end_stays()
    ensures itself { IsSameItself SameRepoEnd }
    ensures further { IsTransitive SameRepoEnd }
{}

/// The ends of all repositories are the same over no call, over calls of one of them after another, and over what follows these.
#[tactic(auto, using(crate::proofs::CallerLemmas::same_by_one))]
pub fn repo_ends_stay()
    ensures itself { IsSameItself AreSameRepos }
    ensures further { IsTransitive AreSameRepos }
    ensures one { IsSameByOne }
{}
