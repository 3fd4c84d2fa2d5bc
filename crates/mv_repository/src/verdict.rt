//! Verdicts on packs: authentic or not.

ghost use Rattle.std.specs.Prelude.{◌≡◌};
ghost use Rattle.mv_repository.specs.Clauses.{found_active, found_explained, verdict_when};

use crate::state::is_active;
use mv_message::{Found, Standing};

/// Whether a pack is authentic.
#[derive(Clone, Copy, PartialEq, Eq)]
pub enum Verdict {
    /// The pack stands active: its identifier is a right one. A recall of its batch, or a withdrawal of its product, does not change that.
    Authentic,
    /// The pack may not be supplied; `falsification` says that nothing else than a falsification explains it.
    NotAuthentic { falsification: bool },
}

/// What one repository says of a pack.
#[derive(Clone, Copy, PartialEq, Eq)]
pub enum Local {
    /// It holds the pack, and this is its verdict.
    Known(Verdict),
    /// It does not hold the pack.
    Absent,
}

/// What all repositories that were asked say of a pack.
#[derive(Clone, Copy, PartialEq, Eq)]
pub enum Joint {
    /// No receipt of such a query was applied.
    NotAsked,
    /// That many of the parties that were asked have not answered yet.
    Pending { left: u32 },
    /// All have answered, and this is the verdict.
    Decided(Verdict),
}

/// Whether a pack was found active.
pub(crate) fn found_active(found: &Found) -> bool
    ensures { result ≡ found_active found.now }
{
    matches!(found, Found::Present { standing, .. } if is_active(*standing))
}

/// Whether a pack was found recalled, withdrawn, or to be destroyed: something other than a falsification explains it.
pub(crate) fn found_explained(found: &Found) -> bool
    ensures { result ≡ found_explained found.now }
{
    matches!(
        found,
        Found::Present { standing, recalled, withdrawn, .. }
            if *recalled || *withdrawn || matches!(standing, Standing::Destruction)
    )
}

/// The verdict where a pack was found active or not, and explained or not by something other than a falsification.
pub(crate) fn verdict_when(active: bool, explained: bool) -> Verdict
    ensures { result ≡ verdict_when active explained }
{
    if active {
        Verdict::Authentic
    } else {
        Verdict::NotAuthentic {
            falsification: !explained,
        }
    }
}
