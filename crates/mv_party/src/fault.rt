//! Why a party refuses a call.

use std::alloc::AllocError;
use thiserror::Error;

/// Why a party refuses a call.
#[derive(Clone, Copy, Debug, PartialEq, Eq, Error)]
pub enum SiteFault {
    /// The message is a query or an answer, which the system submits by itself.
    #[error("the system submits queries and answers by itself")]
    NotYours,
    /// Its uplink is full.
    #[error("the uplink is full")]
    UplinkFull,
    /// It submitted as many messages as it may.
    #[error("the party submitted as many messages as it may")]
    SenderFull,
    /// The frame calls for an answer, and it can submit nothing now.
    #[error("the frame calls for an answer, and the party can submit nothing now")]
    AnswerBusy,
    /// Memory was refused.
    #[error("out of memory")]
    Memory,
}

impl From<AllocError> for SiteFault {
    ghost use Rattle.std.specs.Prelude.{◌≡◌};
    ghost use Rattle.mv_party.specs.declared.fault.SiteFault.TheVariants.{Memory};

    ghost from_gives = { λ _ e. e ≡ Memory };

    fn from(_refused: AllocError) -> SiteFault {
        SiteFault::Memory
    }
}
