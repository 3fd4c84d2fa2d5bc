//! A system is opened, and steps are run.

ghost use Rattle.std.specs.Prelude.{IfOk};
ghost use Rattle.mv_machine.specs.Headline.{HeadlineHolds};
ghost use Rattle.mv_machine.specs.Runs.{Runs};
ghost use Rattle.mv_machine.specs.State.{opening};

use mv_hub::Parties;
use mv_system::{Limits, Reply, Step, World};
use std::alloc::{AllocError, Global};

/// Opens a system and runs steps in it: what it is then, and the replies. An error where memory is refused.
pub fn run_from_opening(
    alloc: Global,
    parties: Parties,
    limits: Limits,
    steps: &[Step],
) -> Result<(World, Vec<Reply>), AllocError>
    ensures ran { IfOk result (λ end. Runs (opening parties limits) steps.now end.1.items end.0) }
    ensures headline { IfOk result (λ end. HeadlineHolds (opening parties limits) end.0) }
{
    let mut world = World::open(alloc, parties, limits)?;
    let replies = world.run(steps)?;
    Ok((world, replies))
}
