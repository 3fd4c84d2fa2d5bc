//! The verdicts of two repositories that agree on a pack.

ghost use Rattle.std.specs.Prelude.{◌≡◌, IsTrue};
ghost use Rattle.mv_repository.specs.Agreement.{HasDistinctStamps, HaveSameAbout};
ghost use Rattle.mv_repository.specs.Verdict.{local_verdict};
ghost use Rattle.mv_machine.specs.State.{is_party, log_of};

use mv_machine::stamps_are_distinct;
use mv_message::Party;
use mv_pack::PackKey;
use mv_repository::{Local, same_messages_agree};
use mv_system::World;

/// The verdict of a party's repository on a pack, in whose log no stamp stands twice.
fn verdict_of(world: &World, party: Party, pack: &PackKey) -> Local
    requires { IsTrue (is_party world.now party) }
    ensures verdict { result ≡ local_verdict pack.now (log_of world.now party) }
    ensures distinct { HasDistinctStamps (log_of world.now party) }
{
    stamps_are_distinct();
    let _ = world.record();
    world.repository(party).verify(pack)
}

/// The verdicts of two repositories of one system on a pack: where both have the same messages about it, in whatever order these
/// came, they are one.
pub fn verdicts_in_one_system(
    world: &World,
    one: Party,
    other: Party,
    pack: &PackKey,
) -> (Local, Local)
    requires one { IsTrue (is_party world.now one) }
    requires other { IsTrue (is_party world.now other) }
    ensures first { result.0 ≡ local_verdict pack.now (log_of world.now one) }
    ensures second { result.1 ≡ local_verdict pack.now (log_of world.now other) }
    ensures agreed { HaveSameAbout pack.now (log_of world.now one) (log_of world.now other) → result.0 ≡ result.1 }
{
    same_messages_agree();
    (verdict_of(world, one, pack), verdict_of(world, other, pack))
}

/// The verdicts of two repositories of two systems on a pack: where both have the same messages about it, they are one.
pub fn verdicts_in_two_systems(
    left: &World,
    one: Party,
    right: &World,
    other: Party,
    pack: &PackKey,
) -> (Local, Local)
    requires one { IsTrue (is_party left.now one) }
    requires other { IsTrue (is_party right.now other) }
    ensures first { result.0 ≡ local_verdict pack.now (log_of left.now one) }
    ensures second { result.1 ≡ local_verdict pack.now (log_of right.now other) }
    ensures agreed { HaveSameAbout pack.now (log_of left.now one) (log_of right.now other) → result.0 ≡ result.1 }
{
    same_messages_agree();
    (verdict_of(left, one, pack), verdict_of(right, other, pack))
}
