//! The entries of the hub's record.

use mv_message::{Message, Party, Shared};

/// An entry of the record.
#[derive(PartialEq, Eq, Drop)]
pub enum Entry {
    /// The hub routed a message: the `k`-th of the party `from`, counted from one.
    Routed {
        /// Whose message it is.
        from: Party,
        /// Its number among the messages of the party.
        k: u32,
        /// The message.
        message: Shared<Message>,
    },
    /// The hub closed the link from one party to another, for ever.
    Closed {
        /// The sender of the link.
        from: Party,
        /// Its receiver.
        to: Party,
    },
}
