//! The replies to steps.

ghost use Rattle.std.specs.Prelude.{◌≡◌};
ghost use Rattle.mv_machine.specs.Replies.{code_of, hub_refusal_of, refusal_of, reply_to, route_refusal_of};

use mv_hub::{HubFault, RouteFault};
use mv_link::Reached;
use mv_message::Party;
use mv_party::{SiteFault, Taken};
use mv_repository::{Effect, Joint, Verdict};
use thiserror::Error;

/// What a step is answered.
#[derive(PartialEq, Eq, Drop)]
pub enum Reply {
    /// The message is the `k`-th that the party submitted, counted from one.
    Submitted {
        /// Its number among the messages of the party.
        k: u32,
    },
    /// The repository of the party holds the pack, and this is its verdict.
    Known(Verdict),
    /// The `q`-th message of the party is a query about the pack, which waits to be routed to the other repositories.
    Asked {
        /// The number of the query among the messages of the party, counted from one.
        q: u32,
    },
    /// The `k`-th message of the party was routed to these parties.
    Routed {
        /// Its number among the messages of the party, counted from one.
        k: u32,
        /// The parties that it was routed to.
        reach: Reached,
    },
    /// The frame of this number went on the wire.
    Relayed {
        /// The number of the frame on its link, counted from one.
        number: u32,
    },
    /// The frame of this number was applied, with this effect; the answer that it called for is the message of this number
    /// that the party of the repository submitted.
    Applied {
        /// The number of the frame on its link, counted from one.
        number: u32,
        /// What the frame did in the repository.
        effect: Effect,
        /// The number of the answer among the messages of the party; none where none was called for.
        answer: Option<u32>,
    },
    /// The frame of this number was applied before, and was dropped.
    Old {
        /// The number of the frame on its link, counted from one.
        number: u32,
    },
    /// The frame of this number was dropped, since the frame `expected` has not been applied.
    Gap {
        /// The number of the frame on its link, counted from one.
        number: u32,
        /// The number of the frame that is to be applied next.
        expected: u32,
    },
    /// The frame of this number went on the wire again.
    Repeated {
        /// The number of the frame on its link, counted from one.
        number: u32,
    },
    /// The link is closed from now on.
    Closed,
    /// The frame of this number, the front one of its wire, is lost.
    Lost {
        /// The number of the frame on its link, counted from one.
        number: u32,
    },
    /// The verdict of all that were asked.
    Joint(Joint),
    /// The step was refused, and nothing changed.
    Refused(Refusal),
}

impl Reply {
    /// The reply to a frame of a number that a party took.
    pub fn of_taken(number: u32, taken: Taken) -> Reply
        ensures { result ≡ reply_to number taken }
    {
        match taken {
            Taken::Applied { effect, answer } => Reply::Applied {
                number,
                effect,
                answer,
            },
            Taken::Old => Reply::Old { number },
            Taken::Gap { expected } => Reply::Gap { number, expected },
        }
    }
}

/// Why a step was refused. Nothing has changed then.
#[derive(Clone, Copy, Debug, PartialEq, Eq, Error)]
pub enum Refusal {
    /// S1: a party that the step names does not exist.
    #[error("there is no such party")]
    Party,
    /// S2: the message is none that a party submits.
    #[error("the message is none that a party submits")]
    NotYours,
    /// S3: as many messages of the party are under way to the hub as the uplink takes.
    #[error("the uplink is full")]
    UplinkFull,
    /// S4: the party has submitted as many messages as it may.
    #[error("the party submitted as many messages as it may")]
    SenderFull,
    /// S5: no message of the party waits to be routed.
    #[error("no message of the party waits to be routed")]
    UplinkEmpty,
    /// S6: the link to this party, the least such, has no room for what the message would put on it.
    #[error("the link to party {0} has no room")]
    Busy(Party),
    /// S7: as many frames are under way on the link as the wire takes.
    #[error("the wire of the link is full")]
    WireFull,
    /// S8: no frame is under way on the link.
    #[error("no frame is under way on the link")]
    WireEmpty,
    /// S9: no frame of this number was relayed on the link.
    #[error("no frame of this number was relayed on the link")]
    NotSent,
    /// S10: the frame of this number is kept no longer.
    #[error("the frame of this number is kept no longer")]
    Gone,
    /// S11: every item of the link has been relayed.
    #[error("every item of the link has been relayed")]
    Nothing,
    /// S12: the link is closed already.
    #[error("the link is closed already")]
    AlreadyClosed,
    /// S13: the next frame carries a query, and the party can submit no answer now.
    #[error("the next frame carries a query, and the party can submit no answer now")]
    AnswerBusy,
    /// S14: memory was refused.
    #[error("out of memory")]
    Memory,
}

impl Refusal {
    /// The number of the refusal, as `S5`.
    pub fn code(self) -> &'static str
        ensures { result.now ≡ code_of self }
    {
        match self {
            Refusal::Party => "S1",
            Refusal::NotYours => "S2",
            Refusal::UplinkFull => "S3",
            Refusal::SenderFull => "S4",
            Refusal::UplinkEmpty => "S5",
            Refusal::Busy(_) => "S6",
            Refusal::WireFull => "S7",
            Refusal::WireEmpty => "S8",
            Refusal::NotSent => "S9",
            Refusal::Gone => "S10",
            Refusal::Nothing => "S11",
            Refusal::AlreadyClosed => "S12",
            Refusal::AnswerBusy => "S13",
            Refusal::Memory => "S14",
        }
    }
}

impl From<SiteFault> for Refusal {
    ghost from_gives = { λ fault refusal. refusal ≡ refusal_of fault };

    fn from(fault: SiteFault) -> Refusal {
        match fault {
            SiteFault::NotYours => Refusal::NotYours,
            SiteFault::UplinkFull => Refusal::UplinkFull,
            SiteFault::SenderFull => Refusal::SenderFull,
            SiteFault::AnswerBusy => Refusal::AnswerBusy,
            SiteFault::Memory => Refusal::Memory,
        }
    }
}

impl From<HubFault> for Refusal {
    ghost from_gives = { λ fault refusal. refusal ≡ hub_refusal_of fault };

    fn from(fault: HubFault) -> Refusal {
        match fault {
            HubFault::StrangerParty => Refusal::Party,
            HubFault::NotSent => Refusal::NotSent,
            HubFault::Gone => Refusal::Gone,
            HubFault::Nothing => Refusal::Nothing,
            HubFault::AlreadyClosed => Refusal::AlreadyClosed,
            // Nobody meets the first three at a hub: they come of making its parties.
            HubFault::NoParty | HubFault::TooMany | HubFault::ServedTwice | HubFault::Memory =>
                Refusal::Memory,
        }
    }
}

impl From<RouteFault> for Refusal {
    ghost from_gives = { λ fault refusal. refusal ≡ route_refusal_of fault };

    fn from(fault: RouteFault) -> Refusal {
        match fault {
            RouteFault::StrangerParty => Refusal::Party,
            RouteFault::Busy(to) => Refusal::Busy(to),
            RouteFault::Memory => Refusal::Memory,
        }
    }
}
