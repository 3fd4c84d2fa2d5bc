//! Two calls in a row.

ghost use Rattle.std.specs.Prelude.{◌∷◌, [], IfOk};
ghost use Rattle.mv_machine.specs.State.{State};
ghost use Rattle.mv_machine.specs.Steps.{ask};
ghost use Rattle.mv_machine.specs.Runs.{Meets, Runs};
ghost use Rattle.mv_machine.specs.Closing.{NothingSubmittedLater};
ghost use Rattle.mv_machine.specs.Headline.{HeadlineHolds};

use mv_machine::{Reply, Step, headlines_join};
use mv_message::Party;
use mv_pack::PackKey;
use mv_system::World;
use std::alloc::AllocError;

/// Takes a step, and then another. They are one run; and over a link that was closed before the first, nothing is applied after
/// the second that was submitted since.
pub fn step_twice(world: &mut World, first: &Step, second: &Step) -> (Reply, Reply)
    ensures ran { Runs world.old (first.now ∷ second.now ∷ []) (result.0 ∷ result.1 ∷ []) world.new }
    ensures closed { NothingSubmittedLater world.old world.new }
    ensures headline { HeadlineHolds world.old world.new }
{
    headlines_join();
    let one = world.step(first);
    let two = world.step(second);
    (one, two)
}

/// Asks the others about a pack, and then takes steps: over a link that was closed before the question, nothing is applied behind
/// the steps that was submitted since, the question itself included.
pub fn ask_and_run(
    world: &mut World,
    party: Party,
    key: &PackKey,
    steps: &[Step],
) -> Result<(Reply, Vec<Reply>), AllocError>
    ensures ran { IfOk result (λ replies. (between : State) × Meets world.old (ask world.old party key.now) replies.0 between
        × Runs between steps.now replies.1.items world.new) }
    ensures closed { NothingSubmittedLater world.old world.new }
    ensures headline { HeadlineHolds world.old world.new }
{
    headlines_join();
    let asked = world.ask(party, key);
    let replies = world.run(steps)?;
    Ok((asked, replies))
}

/// Takes steps, and then others: over a link that was closed before the first, nothing is applied behind the last that was
/// submitted since.
pub fn run_twice(
    world: &mut World,
    first: &[Step],
    second: &[Step],
) -> Result<(Vec<Reply>, Vec<Reply>), AllocError>
    ensures ran { IfOk result (λ replies. (between : State) × Runs world.old first.now replies.0.items between
        × Runs between second.now replies.1.items world.new) }
    ensures closed { NothingSubmittedLater world.old world.new }
    ensures headline { HeadlineHolds world.old world.new }
{
    headlines_join();
    let one = world.run(first)?;
    let two = world.run(second)?;
    Ok((one, two))
}
