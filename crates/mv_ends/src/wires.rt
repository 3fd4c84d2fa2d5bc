//! The hub's ends of all links: a ring for each ordered pair of parties.

ghost use Rattle.std.specs.Prelude.{◌≡◌, ◌<◌, ℕ, [], length, slice_index_or, IsTrue, IsFalse};
ghost use Rattle.mv_ends.specs.Words.{IsPrefix, cell};
ghost use Rattle.mv_ends.specs.Rings.{WireTable, with_frame, HasRoomOn, IsFullOn};
ghost use Rattle.mv_ends.specs.inside.Rings.{table_of};

use crate::inlets::Inlets;
use crate::parcel::Parcel;
use mv_link::Frame;
use mv_message::Party;
use rtrb::Producer;
use std::marker::Model;

/// The hub's ends of all links, by the party that they go to and the one that they come from. Contracts see what they show.
#[derive(Drop)]
pub struct Wires {
    /// The ends of the links to each party, party 0 first, that of the link from party 0 first.
    rows: Vec<Vec<Producer<Parcel<Frame>>>>,
}

impl Model for Wires {
    ghost Value = { WireTable };

    ghost view = { λ wires. table_of wires.rows.items };
}

impl Wires {
    /// The ends of these links.
    pub(crate) fn new(rows: Vec<Vec<Producer<Parcel<Frame>>>>) -> Wires
        ensures { result ≡ table_of rows.items }
    {
        Wires { rows }
    }

    /// Whether the ring of a link has no room. The repository may make room at any time.
    #[tactic(auto, using(crate::proofs::RingLemmas::cell_same, crate::proofs::RingLemmas::cell_after))]
    pub(crate) fn is_full(&mut self, from: Party, to: Party) -> bool
        requires to { to < length self.old.put }
        requires from { from < length (slice_index_or self.old.put to []) }
        ensures same { self.new.rings ≡ self.old.rings }
        ensures nothing { self.new.put ≡ self.old.put }
        ensures room { IsFalse result → HasRoomOn self.new from to }
        ensures full { IsTrue result → IsFullOn self.new from to }
    {
        self.rows[to as usize][from as usize].is_full()
    }

    /// Puts a frame on the ring of a link.
    #[tactic(auto, using(crate::proofs::RingLemmas::cell_same, crate::proofs::RingLemmas::cell_more))]
    pub(crate) fn put(&mut self, from: Party, to: Party, parcel: Parcel<Frame>)
        requires to { to < length self.old.put }
        requires from { from < length (slice_index_or self.old.put to []) }
        requires room { HasRoomOn self.old from to }
        ensures same { self.new.rings ≡ self.old.rings }
        ensures puts { self.new.put ≡ with_frame self.old.put from to parcel }
    {
        self.rows[to as usize][from as usize].push_reserved(parcel);
    }

    /// Looks at both ends of the rings of the links to a party from all, so many: what it took from each is a front of what was put there.
    pub(crate) fn look_beside(&mut self, to: Party, count: u32, inlets: &mut Inlets<Frame>)
        requires to { to < length self.old.put }
        requires count { count ≡ length inlets.old.taken }
        requires wide { count ≡ length (slice_index_or self.old.put to []) }
        requires pairs { slice_index_or self.old.rings to [] ≡ inlets.old.rings }
        ensures same { self.new.rings ≡ self.old.rings }
        ensures nothing { self.new.put ≡ self.old.put }
        ensures inlets { inlets.new.rings ≡ inlets.old.rings }
        ensures taken { inlets.new.taken ≡ inlets.old.taken }
        ensures in_hand { inlets.new.in_hand ≡ inlets.old.in_hand }
        ensures front { (from : ℕ) → from < length inlets.old.taken
            → IsPrefix (slice_index_or inlets.old.taken from []) (cell self.old.put to from []) }
    {
        for from in 0..count {
            inlets.look_beside(from, &mut self.rows[to as usize][from as usize]);
        }
    }
}
