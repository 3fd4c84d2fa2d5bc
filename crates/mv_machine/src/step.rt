//! The steps of the system.

use mv_message::{Message, Party, Shared};
use mv_pack::PackKey;

/// One step of the system.
#[derive(PartialEq, Eq, Drop)]
pub enum Step {
    /// A party submits a message to the hub.
    Submit {
        /// The party.
        from: Party,
        /// The message.
        message: Shared<Message>,
    },
    /// A party verifies a pack: by its own repository where that holds the pack, else it asks the others.
    Verify {
        /// The party.
        party: Party,
        /// The pack.
        key: PackKey,
    },
    /// The hub routes the next message of a party.
    Route {
        /// The party.
        from: Party,
    },
    /// The next frame of a link goes on its wire.
    Relay {
        /// The sender of the link.
        from: Party,
        /// Its receiver.
        to: Party,
    },
    /// A repository takes the front frame of the wire from a party.
    Apply {
        /// The sender of the wire.
        from: Party,
        /// The party of the repository.
        to: Party,
    },
    /// The frame of this number, which was relayed, goes on the wire of its link again.
    Repeat {
        /// The sender of the link.
        from: Party,
        /// Its receiver.
        to: Party,
        /// The number of the frame on its link, counted from one.
        number: u32,
    },
    /// A link is closed: nothing that the hub routes from then on goes over it, neither message nor receipt.
    Close {
        /// The sender of the link.
        from: Party,
        /// Its receiver.
        to: Party,
    },
    /// The front frame of a wire is lost.
    Lose {
        /// The sender of the wire.
        from: Party,
        /// Its receiver.
        to: Party,
    },
    /// A party takes the verdict on the query that was its `q`-th message.
    Verdict {
        /// The party.
        party: Party,
        /// The number of the query among the messages of the party, counted from one.
        q: u32,
    },
}
