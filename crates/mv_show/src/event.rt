//! Writes events, each as the canonical text of one JSON object.

ghost use Rattle.std.specs.Prelude.{◌≡◌, Some};
ghost use Rattle.std.specs.Option.{option_copied};
ghost use Rattle.serde_json.specs.Data.{object};
ghost use Rattle.mv_machine.specs.State.{submissions_of, log_of};
ghost use Rattle.mv_format.specs.Writing.{members_of};
ghost use Rattle.mv_show.specs.Events.{last_of, asked_about, event_of_step, event_of, opened};
ghost use Rattle.mv_show.specs.EventValues.{new_packs, old_packs, suspicion, verdict_name};
ghost use Rattle.mv_show.specs.inside.Trail.{Tells, Says};

use mv_hub::Entry;
use mv_lines::{Answered, Member, append_object};
use mv_link::Item;
use mv_machine::{Reply, Step};
use mv_message::{Message, Party};
use mv_pack::PackKey;
use mv_repository::{Effect, Joint, LogEntry, Verdict};
use mv_system::World;
use std::alloc::{AllocError, Global};

/// Writes the event of a line behind what the buffer holds, where it has one, and says whether it has. What is open after the line
/// is `world`. Where memory is refused the buffer is as it was.
pub(crate) fn append_event<'a>(
    alloc: Global,
    out: &mut Vec<u8>,
    line: u32,
    answered: &'a Answered,
    world: Option<&'a World>,
) -> Told
    ensures { Tells result out.old.items out.new.items line (event_of answered.now (option_copied world.entry)) }
{
    let Some(world) = world else {
        return Ok(false);
    };
    let teller = Teller { alloc, line, world };
    match answered {
        Answered::Opened { .. } => teller.tell_opened(out),
        Answered::Stepped { step, reply } => teller.tell_step(step, reply, out),
        Answered::Unread(_) | Answered::NotTaken(_) => Ok(false),
    }
}

/// Whether there was an event to tell; or memory was refused.
type Told = Result<bool, AllocError>;

/// Tells the event of a line.
#[derive(Clone, Copy, Drop)]
struct Teller<'a> {
    /// What memory is got from.
    alloc: Global,
    /// The number of the line.
    line: u32,
    /// What is open after it.
    world: &'a World,
}

impl<'a> Teller<'a> {
    /// Tells that a system was opened: its parties and limits.
    fn tell_opened(&self, out: &mut Vec<u8>) -> Told
        ensures { Tells result out.old.items out.new.items self.now.line
            (Some (opened self.now.world.now.hub.parties self.now.world.now.limits)) }
    {
        let limits = self.world.limits();
        let members = [
            Member::Text("event", "opened"),
            Member::Number("line", self.line as u64),
            Member::Markets("parties", self.world.hub().parties().lists()),
            Member::Number("submissions", limits.submissions() as u64),
            Member::Number("uplink", limits.uplink() as u64),
            Member::Number("window", limits.window() as u64),
            Member::Number("wire", limits.wire() as u64),
        ];
        self.say(&members, out)
    }

    /// Tells what a step did, by its reply.
    fn tell_step(&self, step: &'a Step, reply: &'a Reply, out: &mut Vec<u8>) -> Told
        ensures { Tells result out.old.items out.new.items self.now.line
            (event_of_step step.now reply.now self.now.world.now) }
    {
        match step {
            Step::Submit { from, message } => self.tell_submit(*from, message.get(), reply, out),
            Step::Verify { party, key } => self.tell_verify(*party, key, reply, out),
            Step::Route { from } => self.tell_route(*from, reply, out),
            Step::Apply { from, to } => self.tell_apply(*from, *to, reply, out),
            Step::Close { from, to } => self.tell_close(*from, *to, reply, out),
            Step::Verdict { party, q } => self.tell_verdict(*party, *q, reply, out),
            Step::Relay { .. } | Step::Repeat { .. } | Step::Lose { .. } => Ok(false),
        }
    }

    /// Tells what a submission did.
    fn tell_submit(&self, from: Party, message: &Message, reply: &Reply, out: &mut Vec<u8>) -> Told
        ensures { Tells result out.old.items out.new.items self.now.line
            (event_of_step (Step.Submit from message.now) reply.now self.now.world.now) }
    {
        let Reply::Submitted { k } = reply else {
            return Ok(false);
        };
        let members = [
            Member::Text("event", "submitted"),
            Member::Number("from", from as u64),
            Member::Number("k", *k as u64),
            Member::Number("line", self.line as u64),
            Member::Message("message", message),
        ];
        self.say(&members, out)
    }

    /// Tells what a verification did.
    fn tell_verify(&self, party: Party, key: &PackKey, reply: &Reply, out: &mut Vec<u8>) -> Told
        ensures { Tells result out.old.items out.new.items self.now.line
            (event_of_step (Step.Verify party key.now) reply.now self.now.world.now) }
    {
        match reply {
            Reply::Asked { q } => self.say(
                &[
                    Member::Text("event", "asked"),
                    Member::Text("gtin", key.gtin.as_str()),
                    Member::Number("line", self.line as u64),
                    Member::Number("party", party as u64),
                    Member::Number("q", *q as u64),
                    Member::Text("serial", key.serial.as_str()),
                ],
                out,
            ),
            Reply::Known(verdict) => self.say(
                &[
                    Member::Text("event", "verified"),
                    Member::FlagOrNone("falsification", suspicion(*verdict)),
                    Member::Text("gtin", key.gtin.as_str()),
                    Member::Number("line", self.line as u64),
                    Member::Number("party", party as u64),
                    Member::Text("serial", key.serial.as_str()),
                    Member::Text("verdict", verdict_name(*verdict)),
                ],
                out,
            ),
            _ => Ok(false),
        }
    }

    /// Tells what a routing did, by the last entry of the record.
    fn tell_route(&self, from: Party, reply: &'a Reply, out: &mut Vec<u8>) -> Told
        ensures { Tells result out.old.items out.new.items self.now.line
            (event_of_step (Step.Route from) reply.now self.now.world.now) }
    {
        let Reply::Routed { reach, .. } = reply else {
            return Ok(false);
        };
        let record = self.world.hub().record();
        let Some(Entry::Routed { from, k, message }) = record.last() else {
            return Ok(false);
        };
        let members = [
            Member::Text("event", "routed"),
            Member::Number("from", *from as u64),
            Member::Number("k", *k as u64),
            Member::Number("line", self.line as u64),
            Member::Message("message", message.get()),
            Member::Parties("reach", reach),
            Member::Number("stamp", record.len() as u64),
        ];
        self.say(&members, out)
    }

    /// Tells what the application of a frame did, by the last entry of the log.
    fn tell_apply(&self, from: Party, to: Party, reply: &'a Reply, out: &mut Vec<u8>) -> Told
        ensures { Tells result out.old.items out.new.items self.now.line
            (event_of_step (Step.Apply from to) reply.now self.now.world.now) }
    {
        let Some(entry) = last_applied(self.world, to) else {
            return Ok(false);
        };
        match (reply, &entry.item) {
            (Reply::Applied { number, effect, .. }, Item::Receipt { k, reach, query }) => self.say(
                &[
                    Member::Text("effect", effect.code()),
                    Member::Text("event", "applied"),
                    Member::Number("from", entry.sender as u64),
                    Member::Number("k", *k as u64),
                    Member::Number("line", self.line as u64),
                    Member::Number("number", *number as u64),
                    Member::Flag("query", *query),
                    Member::Parties("reach", reach),
                    Member::Number("to", to as u64),
                ],
                out,
            ),
            (
                Reply::Applied {
                    number,
                    effect,
                    answer,
                },
                Item::Carried { k, stamp, message },
            ) => self.say(
                &[
                    Member::NumberOrNone("answer", wide(*answer)),
                    Member::Text("effect", effect.code()),
                    Member::Text("event", "applied"),
                    Member::Number("from", entry.sender as u64),
                    Member::Number("k", *k as u64),
                    Member::Number("line", self.line as u64),
                    Member::Message("message", message.get()),
                    Member::NumberOrNone("new", new_packs(*effect)),
                    Member::Number("number", *number as u64),
                    Member::NumberOrNone("old", old_packs(*effect)),
                    Member::Number("stamp", *stamp as u64),
                    Member::Number("to", to as u64),
                ],
                out,
            ),
            _ => Ok(false),
        }
    }

    /// Tells what a closing did. Its entry is the last of the record.
    fn tell_close(&self, from: Party, to: Party, reply: &Reply, out: &mut Vec<u8>) -> Told
        ensures { Tells result out.old.items out.new.items self.now.line
            (event_of_step (Step.Close from to) reply.now self.now.world.now) }
    {
        let Reply::Closed = reply else {
            return Ok(false);
        };
        let members = [
            Member::Text("event", "closed"),
            Member::Number("from", from as u64),
            Member::Number("line", self.line as u64),
            Member::Number("stamp", self.world.hub().record().len() as u64),
            Member::Number("to", to as u64),
        ];
        self.say(&members, out)
    }

    /// Tells the verdict of all that were asked.
    fn tell_verdict(&self, party: Party, q: u32, reply: &Reply, out: &mut Vec<u8>) -> Told
        ensures { Tells result out.old.items out.new.items self.now.line
            (event_of_step (Step.Verdict party q) reply.now self.now.world.now) }
    {
        let Reply::Joint(Joint::Decided(verdict)) = reply else {
            return Ok(false);
        };
        let Some(key) = asked_about(self.world, party, q) else {
            return Ok(false);
        };
        let members = [
            Member::Text("event", "verdict"),
            Member::FlagOrNone("falsification", suspicion(*verdict)),
            Member::Text("gtin", key.gtin.as_str()),
            Member::Number("line", self.line as u64),
            Member::Number("party", party as u64),
            Member::Number("q", q as u64),
            Member::Text("serial", key.serial.as_str()),
            Member::Text("verdict", verdict_name(*verdict)),
        ];
        self.say(&members, out)
    }

    /// Writes the object of these members, and says that there is one.
    fn say(&self, members: &[Member<'_>], out: &mut Vec<u8>) -> Told
        ensures { Says result out.old.items out.new.items (object (members_of members.now)) }
    {
        append_object(self.alloc, out, members)?;
        Ok(true)
    }
}

/// The last entry of the log of a party; none where there is no such party, or it has applied nothing.
fn last_applied(world: &World, party: Party) -> Option<&LogEntry>
    ensures { option_copied result ≡ last_of (log_of world.now party) }
{
    // Each party has a log, and nobody else.
    let _ = world.record();
    if !world.is_party(party) {
        return None;
    }
    world.log(party).last()
}

/// The pack that a party's message of this number asks about, if it asks about one.
fn asked_about(world: &World, party: Party, q: u32) -> Option<&PackKey>
    ensures { option_copied result ≡ asked_about (submissions_of world.now party) q }
{
    // Each party has its submissions, and nobody else.
    let _ = world.record();
    if q == 0 || !world.is_party(party) {
        return None;
    }
    match world.sub(party).get(q as usize - 1)?.get() {
        Message::Query { key } => Some(key),
        _ => None,
    }
}

/// The number of an answer, if there is one.
fn wide(number: Option<u32>) -> Option<u64>
    ensures { result ≡ number }
{
    match number {
        Some(number) => Some(number as u64),
        None => None,
    }
}

/// How many packs of an upload were new.
fn new_packs(effect: Effect) -> Option<u64>
    ensures { result ≡ new_packs effect }
{
    match effect {
        Effect::Uploaded { new, .. } => Some(new),
        _ => None,
    }
}

/// How many packs of an upload were there.
fn old_packs(effect: Effect) -> Option<u64>
    ensures { result ≡ old_packs effect }
{
    match effect {
        Effect::Uploaded { old, .. } => Some(old),
        _ => None,
    }
}

/// Whether a falsification is suspected, of a pack that is not authentic.
fn suspicion(verdict: Verdict) -> Option<bool>
    ensures { result ≡ suspicion verdict }
{
    match verdict {
        Verdict::Authentic => None,
        Verdict::NotAuthentic { falsification } => Some(falsification),
    }
}

/// A verdict in words.
fn verdict_name(verdict: Verdict) -> &'static str
    ensures { result.now ≡ verdict_name verdict }
{
    match verdict {
        Verdict::Authentic => "authentic",
        Verdict::NotAuthentic { .. } => "not authentic",
    }
}
