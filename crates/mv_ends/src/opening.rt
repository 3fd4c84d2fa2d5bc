//! The ends of one opening.

ghost use Rattle.std.specs.Prelude.{◌≡◌, ◌+◌, IfOk, OnOk};
ghost use Rattle.mv_machine.specs.State.{opening};
ghost use Rattle.mv_ends.specs.inside.Rings.{AreLinks};
ghost use Rattle.mv_ends.specs.Whole.{AreEnds, state_of};
ghost use Rattle.mv_ends.specs.inside.Whole.{AreOpened};

use crate::hub_end::HubEnd;
use crate::inlet::Inlet;
use crate::inlets::Inlets;
use crate::parcel::Parcel;
use crate::repo_end::RepoEnd;
use crate::wires::Wires;
use mv_hub::Parties;
use mv_link::Frame;
use mv_machine::Limits;
use mv_message::{Message, Shared};
use rtrb::{Producer, RingBuffer};
use std::alloc::{AllocError, Global};

/// The hub's ends of the links to one party, by sender.
type Outlets = Vec<Producer<Parcel<Frame>>>;

/// The ends that were opened for the parties so far, party 0 first.
#[derive(Drop)]
struct Opened {
    /// The hub's ends of the uplinks.
    uplinks: Vec<Inlet<Shared<Message>>>,
    /// The hub's ends of the links to each.
    rows: Vec<Outlets>,
    /// Their own ends.
    repos: Vec<RepoEnd>,
}

/// The ends of a system where nothing has happened: the hub's, and that of each repository, in order of party. There is a ring
/// for the uplink of each party, and one for each ordered pair, of the sizes that the limits give. Refused for want of memory.
#[tactic(auto, using(crate::proofs::OpeningLemmas::ends_of, crate::proofs::OpeningLemmas::fresh_of, crate::proofs::OpeningLemmas::square_of))]
pub fn open(
    alloc: Global,
    parties: Parties,
    limits: Limits,
) -> Result<(HubEnd, Vec<RepoEnd>), AllocError>
    ensures ends { IfOk result (λ ends. AreEnds ends.0 ends.1.items) }
    ensures fresh { IfOk result (λ ends. state_of ends.0 ends.1.items ≡ opening parties limits) }
{
    let mut opened = Opened {
        uplinks: Vec::new(alloc),
        rows: Vec::new(alloc),
        repos: Vec::new(alloc),
    };
    for party in 0..parties.len() {
        opened.add(alloc, party, &parties, limits)?;
    }
    let (uplinks, wires) = (Inlets::new(opened.uplinks), Wires::new(opened.rows));
    let hub = HubEnd::new(alloc, parties, limits, uplinks, wires)?;
    Ok((hub, opened.repos))
}

impl Opened {
    /// Opens the ends of the next party: its own, and the hub's of its uplink and of the links to it.
    fn add(
        &mut self,
        alloc: Global,
        party: u32,
        parties: &Parties,
        limits: Limits,
    ) -> Result<(), AllocError>
        requires { AreOpened parties.now limits party self.old.uplinks.items self.old.rows.items self.old.repos.items }
        ensures { OnOk result (AreOpened parties.now limits (party + 1) self.new.uplinks.items self.new.rows.items self.new.repos.items) }
    {
        self.uplinks.reserve(1)?;
        self.rows.reserve(1)?;
        self.repos.reserve(1)?;
        let count = parties.len();
        let (row, inlets) = open_links(alloc, count, limits.wire())?;
        let room = limits.uplink() as usize;
        let (producer, uplink) = RingBuffer::<Parcel<Shared<Message>>>::new(alloc, room)?;
        let repo = RepoEnd::new(alloc, party, count, limits, producer, inlets)?;
        // Nothing fails from here on.
        self.uplinks.push_reserved(Inlet::new(uplink));
        self.rows.push_reserved(row);
        self.repos.push_reserved(repo);
        Ok(())
    }
}

/// The two ends of the links to one party from so many.
#[tactic(auto, using(crate::proofs::OpeningLemmas::links_more))]
fn open_links(alloc: Global, count: u32, room: u32) -> Result<(Outlets, Inlets<Frame>), AllocError>
    ensures { IfOk result (λ ends. AreLinks count room ends.0.items ends.1) }
{
    let mut outlets = Vec::with_capacity(alloc, count as usize)?;
    let mut inlets = Vec::with_capacity(alloc, count as usize)?;
    for _from in 0..count {
        let (producer, consumer) = RingBuffer::<Parcel<Frame>>::new(alloc, room as usize)?;
        outlets.push(producer)?;
        inlets.push(Inlet::new(consumer))?;
    }
    Ok((outlets, Inlets::new(inlets)))
}
