//! The system, one step at a time and in whole runs.

ghost use Rattle.std.specs.Prelude.{◌≡◌, ◌≤◌, IfOk, OnErr, IsTrue, length, map, slice_get};
ghost use Rattle.std.specs.List.{range_with_len};
ghost use Rattle.mv_hub.specs.Hub.{are_parties};
ghost use Rattle.mv_party.specs.Site.{new_site};
ghost use Rattle.mv_party.specs.declared.limits.TheConstants.{SUBMISSIONS_LIMIT};
ghost use Rattle.mv_machine.specs.Limits.{AreBounds};
ghost use Rattle.mv_machine.specs.State.{opening, is_party, is_uplink_full, is_wire_full, log_of, submissions_of, wire_of};
ghost use Rattle.mv_machine.specs.Steps.{ask};
ghost use Rattle.mv_machine.specs.Replies.{changes_nothing};
ghost use Rattle.mv_machine.specs.Runs.{Meets, Allows, Runs};
ghost use Rattle.mv_machine.specs.Bounded.{KeepsLimits};
ghost use Rattle.mv_machine.specs.Lawful.{IsLawful, IsWellFormed};
ghost use Rattle.mv_machine.specs.Headline.{HeadlineHolds};
ghost use Rattle.mv_system.specs.inside.World.{new_wire, numbers_of};

use crate::world::steps::reply_of;
use circular_buffer::HeapCircularBuffer;
use mv_hub::{Entry, Hub, Parties};
use mv_link::Frame;
use mv_machine::{Limits, Reply, Step, refusals_change_nothing, steps_keep_headline};
use mv_message::{Message, Party, Shared};
use mv_pack::PackKey;
use mv_pairs::PairTable;
use mv_party::Site;
use mv_repository::{LogEntry, Repository};
use std::alloc::{AllocError, Global};
use std::marker::Model;

mod steps;

/// The system, seen as the state of the list machine.
pub struct World {
    /// Where the replies of a run get their memory.
    alloc: Global,
    /// How much is under way at most, and how much each party submits.
    limits: Limits,
    /// The hub, with the sending end of each link.
    hub: Hub,
    /// The parties, party 0 first.
    sites: Vec<Site>,
    /// The frames under way on each link, the front first.
    wires: PairTable<HeapCircularBuffer<Frame>>,
}

// Written here, so that the crates above prove nothing of how its parts are dropped.
impl Drop for World {
    fn drop(self) {
        let Self {
            alloc: _,
            limits: _,
            hub: _,
            sites: _,
            wires: _,
        } = self;
    }
}

impl Model for World {
    ghost use Rattle.mv_machine.specs.State.{State};
    ghost use Rattle.mv_system.specs.inside.World.{state_of, IsSystem};

    ghost Value = { State };

    ghost view = { λ w. state_of w.limits w.hub w.sites.items w.wires };

    ghost invariant = { λ w. IsSystem (state_of w.limits w.hub w.sites.items w.wires) w.wires };
}

impl World {
    /// A system where nothing has happened. Refused for want of memory.
    pub fn open(alloc: Global, parties: Parties, limits: Limits) -> Result<World, AllocError>
        ensures { IfOk result (λ world. world ≡ opening parties limits) }
    {
        let count = parties.len();
        let size = limits.wire();
        let wires = PairTable::from_fn(
            alloc,
            count,
            || -> Result<HeapCircularBuffer<Frame>, AllocError>
                ensures { IfOk result (λ wire. wire ≡ new_wire size) }
            { HeapCircularBuffer::with_capacity(alloc, size as usize) },
        )?;
        let sites = new_sites(alloc, count, limits.submissions())?;
        let hub = Hub::new(alloc, parties, limits.window())?;
        Ok(World {
            alloc,
            limits,
            hub,
            sites,
            wires,
        })
    }

    /// Whether there is a party of this number.
    pub fn is_party(&self, party: Party) -> bool
        ensures { result ≡ is_party self.now party }
    {
        party < self.hub.parties().len()
    }

    /// What a party submitted, the oldest message first.
    pub fn sub(&self, party: Party) -> &[Shared<Message>]
        requires { IsTrue (is_party self.now party) }
        ensures { result.now ≡ submissions_of self.now party }
    {
        self.sites[party as usize].submissions()
    }

    /// The hub's record, the oldest entry first. Whoever looks at it knows that the state is lawful and keeps its limits, as every state of
    /// a system does.
    pub fn record(&self) -> &[Entry]
        ensures entries { result.now ≡ self.now.hub.entries }
        ensures well_formed { IsWellFormed self.now }
        ensures lawful { IsLawful self.now }
        ensures within { KeepsLimits self.now }
    {
        self.hub.record()
    }

    /// What a repository applied, the oldest entry first.
    pub fn log(&self, party: Party) -> &[LogEntry]
        requires { IsTrue (is_party self.now party) }
        ensures { result.now ≡ log_of self.now party }
    {
        self.repository(party).log()
    }

    /// The repository of a party. What it answers is the meaning of its log.
    pub fn repository(&self, party: Party) -> &Repository
        requires { IsTrue (is_party self.now party) }
        ensures party { result.now.party ≡ party }
        ensures log { result.now.log ≡ log_of self.now party }
    {
        self.sites[party as usize].repository()
    }

    /// The hub.
    pub fn hub(&self) -> &Hub
        ensures value { result.now ≡ self.now.hub }
        ensures window { result.now.window ≡ self.now.limits.window }
    {
        &self.hub
    }

    /// Takes one step, and answers as the list machine does. A step that is refused has changed nothing, nor has one that is
    /// answered by a verdict.
    ///
    /// After each step the headline holds, whatever the system was before: see [`World::run`].
    pub fn step(&mut self, step: &Step) -> Reply
        ensures allowed { Allows self.old step.now result self.new }
        // The limits by which its parts refuse are those of the system.
        ensures well_formed { IsWellFormed self.old }
        ensures unchanged { IsTrue (changes_nothing result) → self.new ≡ self.old }
        ensures headline { HeadlineHolds self.old self.new }
    {
        refusals_change_nothing();
        steps_keep_headline();
        // The state is lawful: its record is looked at for that alone.
        let _ = self.record();
        reply_of(self.take_step(step))
    }

    /// Asks the other repositories about a pack, without a look at the party's own: the query is the last that the party
    /// submitted.
    ///
    /// The first of these that holds is the refusal, and then nothing has changed: S1, there is no such party; S3, its uplink
    /// is full; S4, it has submitted as many messages as it may; S14, memory was refused.
    pub fn ask(&mut self, party: Party, key: &PackKey) -> Reply
        ensures asked { Meets self.old (ask self.old party key.now) result self.new }
        ensures well_formed { IsWellFormed self.old }
        ensures unchanged { IsTrue (changes_nothing result) → self.new ≡ self.old }
        ensures headline { HeadlineHolds self.old self.new }
    {
        refusals_change_nothing();
        steps_keep_headline();
        let _ = self.record();
        reply_of(self.take_query(party, key))
    }

    /// Takes steps in order. Refused for want of memory, it has taken none.
    ///
    /// Whatever the steps and whatever their order, the headline holds: what each repository applied from each sender is a prefix
    /// of what the record put on their link for the markets that it serves, in order and each once, and what was routed from a
    /// sender is a prefix of what it submitted. So item `k` from a sender is the `k`-th message that the sender submitted. The
    /// answers that a party submitted are those that the log of its repository calls for, in order. Where a link was closed before
    /// these steps, nothing is applied over it that was submitted during them; and over no link is anything applied that was
    /// routed after its closing. Two repositories that applied the same messages about a pack, in whatever order these came, agree
    /// on it.
    #[tactic(auto, using(crate::proofs::SystemLemmas::headline_kept))]
    pub fn run(&mut self, steps: &[Step]) -> Result<Vec<Reply>, AllocError>
        ensures run { IfOk result (λ replies. Runs self.old steps.now replies.items self.new) }
        ensures well_formed { IsWellFormed self.old }
        ensures headline { HeadlineHolds self.old self.new }
        ensures err { OnErr result (self.new ≡ self.old) }
    {
        let _ = self.record();
        let mut replies = Vec::new(self.alloc);
        replies.reserve(steps.len())?;
        for step in steps {
            let reply = self.step(step);
            replies.push_reserved(reply);
        }
        Ok(replies)
    }

    /// The limits of the system.
    pub fn limits(&self) -> Limits
        ensures value { result ≡ self.now.limits }
        ensures bounds { AreBounds self.now.limits }
    {
        self.limits
    }

    /// Whether both are parties.
    fn are_parties(&self, from: Party, to: Party) -> bool
        ensures { result ≡ are_parties self.now.hub from to }
    {
        self.is_party(from) && self.is_party(to)
    }

    /// Whether as many messages of a party are under way to the hub as its uplink takes.
    #[tactic(auto, using(crate::proofs::SystemLemmas::routed_few))]
    fn is_uplink_full(&self, from: Party) -> bool
        requires { IsTrue (is_party self.now from) }
        ensures { result ≡ is_uplink_full self.now from }
    {
        let limits = self.limits();
        let waiting = self.sub(from).len() - self.hub.routed_count(from) as usize;
        waiting == limits.uplink() as usize
    }

    /// The wire of a link.
    #[tactic(auto, using(crate::proofs::SystemLemmas::wires_at, crate::proofs::SystemLemmas::wires_len_at))]
    fn wire(&self, from: Party, to: Party) -> &HeapCircularBuffer<Frame>
        requires { IsTrue (are_parties self.now.hub from to) }
        ensures numbers { numbers_of result.now.items ≡ wire_of self.now from to }
        ensures len { length result.now.items ≡ length (wire_of self.now from to) }
    {
        self.wires.at(from, to)
    }

    /// Whether as many frames of a link are under way as its wire takes.
    fn is_wire_full(&self, from: Party, to: Party) -> bool
        requires { IsTrue (are_parties self.now.hub from to) }
        ensures { result ≡ is_wire_full self.now from to }
    {
        let limits = self.limits();
        self.wire(from, to).len() >= limits.wire() as usize
    }

    /// The number of the frame at a place of a wire, the front at 0.
    #[tactic(auto, using(crate::proofs::SystemLemmas::number_of_frame))]
    pub fn frame_number(&self, from: Party, to: Party, place: usize) -> Option<u32>
        requires { IsTrue (are_parties self.now.hub from to) }
        ensures { result ≡ slice_get (wire_of self.now from to) place }
    {
        self.wire(from, to).get(place).map(|frame| frame.number)
    }
}

/// So many parties, party 0 first, each of which submits so many messages at most.
fn new_sites(alloc: Global, parties: u32, limit: u32) -> Result<Vec<Site>, AllocError>
    requires { limit ≤ SUBMISSIONS_LIMIT }
    ensures { IfOk result (λ sites.
        sites.items ≡ map (λ party. new_site party parties limit) (range_with_len 0 parties)) }
{
    let mut sites = Vec::new(alloc);
    for party in 0..parties {
        sites.push(Site::new(alloc, party, parties, limit)?)?;
    }
    Ok(sites)
}
