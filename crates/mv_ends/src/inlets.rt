//! The ends of rings that are taken from, one for each party.
//!
//! The hub takes messages from the uplinks, and each repository frames from the links to it. Of what is in a parcel an end is lent
//! plain values alone. It opens the parcel where nothing but want of memory can refuse what it does with that. Where memory is refused,
//! what it opened stays in hand, and is the first that it takes.

ghost use Rattle.std.specs.Prelude.{◌≡◌, ◌<◌, ◌++◌, ◌∷◌, [], true, false, is_some, length, slice_index_or, IsTrue, IsFalse};
ghost use Rattle.mv_ends.specs.Words.{Frame as AFrame, IsPrefix, sent};
ghost use Rattle.mv_ends.specs.Rings.{Inflow, ring_put, with_item, IsEmptyFrom, IsFront, KeepsOthers};
ghost use Rattle.mv_ends.specs.inside.Fronts.{IsFrontOf};
ghost use Rattle.mv_ends.specs.inside.Rings.{inflow_of, HasFront, ring_taken, taken_by, waits_at};

use crate::front::Front;
use crate::inlet::Inlet;
use crate::parcel::{Parcel, front_of};
use mv_link::Frame;
use mv_message::{Message, Party, Shared};
use rtrb::Producer;
use std::marker::Model;

/// The ends of rings of parcels that are taken from, by the party that puts there. Contracts see what they show.
#[derive(Drop)]
pub struct Inlets<T> {
    /// The ends, that of the ring from party 0 first.
    ends: Vec<Inlet<T>>,
}

impl<T> Model for Inlets<T> {
    ghost Value = { Inflow T };

    ghost view = { λ inlets. inflow_of inlets.ends.items };
}

impl<T: Drop> Inlet<T> {
    /// Opens the parcel at the front of the ring, unless one is open.
    #[tactic(auto, using(crate::proofs::HandLemmas::opened))]
    fn open(&mut self)
        requires { 0 < length (waits_at self.old) }
        ensures ring { ring_taken self.new ≡ ring_taken self.old }
        ensures taken { taken_by self.new ≡ taken_by self.old }
        ensures waits { waits_at self.new ≡ waits_at self.old }
        ensures hand { is_some self.new.hand ≡ true }
    {
        if self.hand.is_none() {
            self.hand = Some(self.ring.pop_known().open());
        }
    }

    /// Takes what is in hand.
    #[tactic(auto, using(crate::proofs::HandLemmas::given))]
    fn take(&mut self) -> T
        requires { is_some self.old.hand ≡ true }
        ensures ring { ring_taken self.new ≡ ring_taken self.old }
        ensures taken { taken_by self.new ≡ taken_by self.old ++ result ∷ [] }
        ensures front { waits_at self.old ≡ result ∷ waits_at self.new }
    {
        match self.hand.take() {
            Some(item) => item,
            None => unreachable!(),
        }
    }

    /// Looks at both ends of the ring: what was taken is a front of what was put.
    #[tactic(auto, using(crate::proofs::HandLemmas::front_taken))]
    fn look_beside(&mut self, producer: &mut Producer<Parcel<T>>)
        requires { ring_put producer.old ≡ ring_taken self.old }
        ensures ring { ring_taken self.new ≡ ring_taken self.old }
        ensures taken { taken_by self.new ≡ taken_by self.old }
        ensures hand { self.new.hand ≡ self.old.hand }
        ensures producer { ring_put producer.new ≡ ring_put producer.old }
        ensures put { sent producer.new ≡ sent producer.old }
        ensures front { IsPrefix (taken_by self.old) (sent producer.old) }
    {
        self.ring.slots_beside(producer);
    }
}

impl<T: Drop> Inlets<T> {
    /// The ends of these rings.
    pub(crate) fn new(ends: Vec<Inlet<T>>) -> Inlets<T>
        ensures { result ≡ inflow_of ends.items }
    {
        Inlets { ends }
    }

    /// Whether nothing is in hand of a party, nor seen on the ring from it. The party may put something there at any time.
    #[tactic(auto, using(crate::proofs::RingLemmas::has_place, crate::proofs::RingLemmas::shows_same, crate::proofs::RingLemmas::shown_after))]
    pub(crate) fn is_empty(&mut self, from: Party) -> bool
        requires { from < length self.old.taken }
        ensures same { self.new.rings ≡ self.old.rings }
        ensures nothing { self.new.taken ≡ self.old.taken }
        ensures in_hand { self.new.in_hand ≡ self.old.in_hand }
        ensures front { IsFalse result → HasFront self.new from }
        ensures empty { IsTrue result → IsEmptyFrom self.new from }
    {
        let end = &mut self.ends[from as usize];
        end.hand.is_none() && end.ring.is_empty()
    }

    /// Opens the parcel at the front of the ring from a party, unless one is open. What was in it is in hand then.
    #[tactic(auto, using(crate::proofs::RingLemmas::has_place, crate::proofs::RingLemmas::shows_same, crate::proofs::RingLemmas::shown_at, crate::proofs::RingLemmas::shown_after, crate::proofs::RingLemmas::shown_other))]
    pub(crate) fn open(&mut self, from: Party)
        requires from { from < length self.old.taken }
        requires some { HasFront self.old from }
        ensures same { self.new.rings ≡ self.old.rings }
        ensures nothing { self.new.taken ≡ self.old.taken }
        ensures known { self.new.known ≡ self.old.known }
        ensures in_hand { slice_index_or self.new.in_hand from false ≡ true }
        ensures others { KeepsOthers from self.old self.new }
    {
        self.ends[from as usize].open();
    }

    /// What is in hand of a party: it is the first that waits.
    pub(crate) fn in_hand(&self, from: Party) -> &T
        requires from { from < length self.now.taken }
        requires some { slice_index_or self.now.in_hand from false ≡ true }
        ensures { IsFront self.now from result.now }
    {
        match &self.ends[from as usize].hand {
            Some(item) => item,
            None => unreachable!(),
        }
    }

    /// Takes what is in hand of a party.
    #[tactic(auto, using(crate::proofs::RingLemmas::has_place, crate::proofs::RingLemmas::shows_same, crate::proofs::RingLemmas::shows_more, crate::proofs::RingLemmas::shown_at, crate::proofs::RingLemmas::shown_other))]
    pub(crate) fn take(&mut self, from: Party) -> T
        requires from { from < length self.old.taken }
        requires some { slice_index_or self.old.in_hand from false ≡ true }
        ensures same { self.new.rings ≡ self.old.rings }
        ensures takes { self.new.taken ≡ with_item self.old.taken from result }
        ensures others { KeepsOthers from self.old self.new }
        ensures first { IsFront self.old from result }
        ensures front { (front : T) → IsFront self.old from front → result ≡ front }
    {
        self.ends[from as usize].take()
    }

    /// Looks at both ends of the ring from a party: what was taken is a front of what was put.
    #[tactic(auto, using(crate::proofs::RingLemmas::has_place, crate::proofs::RingLemmas::shows_same, crate::proofs::RingLemmas::shown_at))]
    pub(crate) fn look_beside(&mut self, from: Party, producer: &mut Producer<Parcel<T>>)
        requires from { from < length self.old.taken }
        requires pair { ring_put producer.old ≡ slice_index_or self.old.rings from (ring_put producer.old) }
        ensures same { self.new.rings ≡ self.old.rings }
        ensures nothing { self.new.taken ≡ self.old.taken }
        ensures in_hand { self.new.in_hand ≡ self.old.in_hand }
        ensures producer { ring_put producer.new ≡ ring_put producer.old }
        ensures put { sent producer.new ≡ sent producer.old }
        ensures front { IsPrefix (slice_index_or self.old.taken from []) (sent producer.old) }
    {
        self.ends[from as usize].look_beside(producer);
    }
}

impl Inlets<Shared<Message>> {
    /// The message at the front of the ring from a party. It cannot be shared.
    #[tactic(auto, using(crate::proofs::RingLemmas::has_place, crate::proofs::RingLemmas::shown_at))]
    pub(crate) fn message(&self, from: Party) -> &Message
        requires from { from < length self.now.taken }
        requires some { HasFront self.now from }
        ensures { IsFront self.now from result.now }
    {
        let end = &self.ends[from as usize];
        match &end.hand {
            Some(message) => message.get(),
            None => end.ring.peek_known().message(),
        }
    }
}

impl Inlets<Frame> {
    /// What is seen of the frame at the front of the ring from a party.
    #[tactic(auto, using(crate::proofs::RingLemmas::has_place, crate::proofs::RingLemmas::shown_at))]
    pub(crate) fn front(&self, from: Party) -> Front
        requires from { from < length self.now.taken }
        requires some { HasFront self.now from }
        ensures { (frame : AFrame) × IsFront self.now from frame × IsFrontOf frame result }
    {
        let end = &self.ends[from as usize];
        match &end.hand {
            Some(frame) => front_of(frame),
            None => end.ring.peek_known().front(),
        }
    }
}
