//! Messages, read again where memory was refused.

use mv_json::MessageFault;
use mv_message::{Message, Shared};
use std::alloc::Global;

/// The message that a text is, and none where it is no message. Where memory was refused once, it is read again.
pub(crate) fn message_of(alloc: Global, text: &str) -> Option<Shared<Message>> {
    match read(alloc, text) {
        Err(MessageFault::Memory) => read(alloc, text).ok(),
        first => first.ok(),
    }
}

/// Reads a message.
fn read(alloc: Global, text: &str) -> Result<Shared<Message>, MessageFault> {
    let message = mv_json::read(alloc, text.as_bytes())?;
    let Ok(message) = Shared::new(alloc, message) else {
        return Err(MessageFault::Memory);
    };
    Ok(message)
}
