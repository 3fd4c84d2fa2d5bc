//! Why the hub refuses a call. Each fault has its number.

ghost use Rattle.std.specs.Prelude.{◌≡◌};
ghost use Rattle.mv_hub.specs.Fault.{code_of, of_link, route_code_of};

use mv_link::LinkFault;
use mv_message::Party;
use std::alloc::AllocError;
use thiserror::Error;

/// Why parties cannot be made, why the hub gives no frame, or why it closes no link.
#[derive(Clone, Copy, Debug, PartialEq, Eq, Error)]
pub enum HubFault {
    /// H1: there is no party.
    #[error("there is no party")]
    NoParty,
    /// H2: there are more than 64 parties.
    #[error("there are more than 64 parties")]
    TooMany,
    /// H3: a market is served twice.
    #[error("a market is served twice")]
    ServedTwice,
    /// H4: there is no such party.
    #[error("there is no such party")]
    StrangerParty,
    /// H6: the link was closed before.
    #[error("the link was closed before")]
    AlreadyClosed,
    /// H7: memory was refused.
    #[error("out of memory")]
    Memory,
    /// H8: every item of the link has been relayed.
    #[error("every item of the link has been relayed")]
    Nothing,
    /// H9: no frame of this number was relayed.
    #[error("no frame of this number was relayed")]
    NotSent,
    /// H10: the frame of this number is kept no longer.
    #[error("the frame of this number is kept no longer")]
    Gone,
}

impl HubFault {
    /// The number of the fault, as `H3`.
    pub fn code(self) -> &'static str
        ensures { result.now ≡ code_of self }
    {
        match self {
            HubFault::NoParty => "H1",
            HubFault::TooMany => "H2",
            HubFault::ServedTwice => "H3",
            HubFault::StrangerParty => "H4",
            HubFault::AlreadyClosed => "H6",
            HubFault::Memory => "H7",
            HubFault::Nothing => "H8",
            HubFault::NotSent => "H9",
            HubFault::Gone => "H10",
        }
    }
}

impl From<LinkFault> for HubFault {
    ghost from_gives = { λ fault own. own ≡ of_link fault };

    fn from(fault: LinkFault) -> HubFault {
        match fault {
            LinkFault::Nothing => HubFault::Nothing,
            LinkFault::NotSent => HubFault::NotSent,
            LinkFault::Gone => HubFault::Gone,
            LinkFault::Memory => HubFault::Memory,
        }
    }
}

impl From<AllocError> for HubFault {
    ghost use Rattle.mv_hub.specs.declared.fault.HubFault.TheVariants.{Memory};

    ghost from_gives = { λ _ fault. fault ≡ Memory };

    fn from(_: AllocError) -> HubFault {
        HubFault::Memory
    }
}

/// Why the hub does not route a message.
#[derive(Clone, Copy, Debug, PartialEq, Eq, Error)]
pub enum RouteFault {
    /// H4: there is no such party.
    #[error("there is no such party")]
    StrangerParty,
    /// H5: the link to this party, the least such, has no room for what the message would put on it.
    #[error("the link to party {0} has no room")]
    Busy(Party),
    /// H7: memory was refused.
    #[error("out of memory")]
    Memory,
}

impl RouteFault {
    /// The number of the fault, as `H5`.
    pub fn code(self) -> &'static str
        ensures { result.now ≡ route_code_of self }
    {
        match self {
            RouteFault::StrangerParty => "H4",
            RouteFault::Busy(_) => "H5",
            RouteFault::Memory => "H7",
        }
    }
}

impl From<AllocError> for RouteFault {
    ghost use Rattle.mv_hub.specs.declared.fault.RouteFault.TheVariants.{Memory};

    ghost from_gives = { λ _ fault. fault ≡ Memory };

    fn from(_: AllocError) -> RouteFault {
        RouteFault::Memory
    }
}
