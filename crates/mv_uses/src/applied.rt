//! What a repository applied is what its sender submitted.

ghost use Rattle.std.specs.Prelude.{◌≡◌, ℕ, Some, slice_get, IsTrue};
ghost use Rattle.std.specs.Option.{option_copied};
ghost use Rattle.mv_link.specs.declared.item.Item.TheVariants.{Carried};
ghost use Rattle.mv_message.specs.declared.message.Message.{Message as AMessage};
ghost use Rattle.mv_machine.specs.State.{is_party, log_of};
ghost use Rattle.mv_machine.specs.Lawful.{IsLawful, IsWellFormed};
ghost use Rattle.mv_machine.specs.Headline.{AppliedIsSubmitted, HeadlineHolds, NumbersRise};

use mv_link::Item;
use mv_machine::{items_are_submitted, lawful_states_keep_headline};
use mv_message::{Message, Party, Shared};
use mv_system::World;

/// Whoever has a system lent knows that it is lawful, whatever was done with it: so that what each repository applied is what its
/// senders submitted, for a party that was a target over an open link, and that the numbers rise along each link. So the headline holds,
/// with nothing done: over a closed link nothing was applied that was routed after its closing.
pub fn know_lawful(world: &World)
    ensures well_formed { IsWellFormed world.now }
    ensures lawful { IsLawful world.now }
    ensures submitted { AppliedIsSubmitted world.now }
    ensures rising { NumbersRise world.now }
    ensures headline { HeadlineHolds world.now world.now }
{
    items_are_submitted();
    lawful_states_keep_headline();
    let _ = world.record();
}

/// The message that the entry at a place of a log carries, looked up among what its sender submitted: item `k` from a sender is the
/// `k`-th message of that sender, and there is one.
pub fn submission_at(world: &World, party: Party, place: usize) -> Option<&Shared<Message>>
    requires { IsTrue (is_party world.now party) }
    ensures { (sender k stamp : ℕ) (message : AMessage)
        → slice_get (log_of world.now party) place ≡ Some (record { sender = sender; item = Carried k stamp message })
        → option_copied result ≡ Some message }
{
    know_lawful(world);
    let entry = world.log(party).get(place)?;
    match &entry.item {
        Item::Carried { k, .. } => world.sub(entry.sender).get(*k as usize - 1),
        Item::Receipt { .. } => None,
    }
}
