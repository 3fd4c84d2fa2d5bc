//! A refusal changed nothing, so a call may be made again.

ghost use Rattle.std.specs.Prelude.{◌≡◌, OnOk, OnErr};
ghost use Rattle.mv_party.specs.Site.{with_submission};
ghost use Rattle.mv_machine.specs.Steps.{ask};
ghost use Rattle.mv_machine.specs.Runs.{Meets, Allows};

use mv_machine::{Reply, Step};
use mv_message::{Message, Party, Shared};
use mv_pack::PackKey;
use mv_party::{Site, SiteFault};
use mv_system::World;

/// Takes a step, and where it is refused takes it once more. What comes of it is what one step may come to: the refused one has
/// changed nothing.
pub fn step_twice_at_most(world: &mut World, step: &Step) -> Reply
    ensures { Allows world.old step.now result world.new }
{
    match world.step(step) {
        Reply::Refused(_) => world.step(step),
        reply => reply,
    }
}

/// Asks the others about a pack, and where that is refused asks once more. What comes of it is what asking once may come to.
pub fn ask_twice_at_most(world: &mut World, party: Party, key: &PackKey) -> Reply
    ensures { Meets world.old (ask world.old party key.now) result world.new }
{
    match world.ask(party, key) {
        Reply::Refused(_) => world.ask(party, key),
        reply => reply,
    }
}

/// Submits a message of a party, and where that is refused submits it once more. It is submitted once, or nothing has changed.
pub fn submit_twice_at_most(site: &mut Site, message: &Shared<Message>) -> Result<u32, SiteFault>
    ensures ok { OnOk result (site.new ≡ with_submission site.old message.now) }
    ensures err { OnErr result (site.new ≡ site.old) }
{
    match site.submit(message, false) {
        Err(_) => site.submit(message, false),
        submitted => submitted,
    }
}
