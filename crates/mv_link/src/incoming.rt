//! The end of a link that frames come to: it takes each item once and in order.

ghost use Rattle.std.specs.Prelude.{◌≡◌, ◌+◌, ◌<◌};
ghost use Rattle.mv_link.specs.declared.limits.TheConstants.{NUMBER_LIMIT};
ghost use Rattle.mv_link.specs.Receiving.{look_at, IsAcceptedAs, AcceptsNext};

use crate::Frame;
use std::marker::Model;

/// How the number of a frame stands to what was accepted.
#[derive(Clone, Copy, Debug, PartialEq, Eq)]
pub enum Look {
    /// It is the next: it is to be accepted.
    Next,
    /// It was accepted before.
    Old,
    /// Frames before it are missing.
    Gap {
        /// The number of the frame that is the next.
        expected: u32,
    },
}

/// The receiving end of one link, seen as how many frames it accepted.
#[derive(Clone, Copy, PartialEq, Eq)]
pub struct Incoming {
    /// How many frames were accepted.
    count: u32,
}

impl Model for Incoming {
    ghost use Rattle.std.specs.Prelude.{ℕ};

    ghost Value = { ℕ };

    ghost view = { λ end. end.count };

    ghost inverse = { λ count. record { count = count } };
}

impl Incoming {
    /// A receiving end that accepted nothing.
    pub fn new() -> Incoming
        ensures { result ≡ 0 }
    {
        Incoming { count: 0 }
    }

    /// How many frames were accepted.
    pub fn count(&self) -> u32
        ensures { result ≡ self.now }
    {
        self.count
    }

    /// How a frame stands to what was accepted. Nothing changes.
    #[tactic(auto, using(crate::proofs::LinkLemmas::old_kept, crate::proofs::LinkLemmas::next_taken, crate::proofs::LinkLemmas::gap_kept))]
    pub fn look(&self, frame: &Frame) -> Look
        ensures value { result ≡ look_at self.now frame.now.number }
        // Where it is the next it is accepted behind what was; where it is not, what is accepted stays as it was.
        ensures accepted { IsAcceptedAs self.now frame.now result }
        // Where it is the next there is one more number for it.
        ensures next { result ≡ Look.Next → frame.now.number ≡ self.now + 1 }
        ensures counted { result ≡ Look.Next → self.now < NUMBER_LIMIT }
    {
        self.look_at(frame.number)
    }

    /// How a frame of this number stands to what was accepted. Nothing changes.
    pub fn look_at(&self, number: u32) -> Look
        ensures value { result ≡ look_at self.now number }
        // Where it is the next there is one more number for it.
        ensures counted { result ≡ Look.Next → self.now < NUMBER_LIMIT }
    {
        if number <= self.count {
            return Look::Old;
        }
        let expected = self.count + 1;
        if number == expected {
            Look::Next
        } else {
            Look::Gap { expected }
        }
    }

    /// Accepts the next frame.
    #[tactic(auto, using(crate::proofs::LinkLemmas::accepts_next))]
    pub fn advance(&mut self)
        requires { self.old < NUMBER_LIMIT }
        ensures count { self.new ≡ self.old + 1 }
        // It counts what is accepted, with one more frame that is the next.
        ensures accepted { AcceptsNext self.old self.new }
    {
        self.count += 1;
    }
}
