//! The histories of a pack in two repositories.

ghost use Rattle.std.specs.Prelude.{◌↔◌, IsTrue};
ghost use Rattle.mv_repository.specs.Agreement.{AgreeOn, HaveSameHistory};

use mv_pack::PackKey;
use mv_repository::{Repository, same_histories_agree};

/// Whether two repositories have the same history of a pack. Where they do, they agree on it, whatever else they have and in whatever
/// order it came.
pub fn have_same_history(one: &Repository, other: &Repository, pack: &PackKey) -> bool
    ensures same { IsTrue result ↔ HaveSameHistory pack.now one.now.log other.now.log }
    ensures agreed { IsTrue result → AgreeOn pack.now one.now.log other.now.log }
{
    same_histories_agree();
    one.history(pack).is_same(&other.history(pack))
}
