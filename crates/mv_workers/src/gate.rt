//! What a worker passes before it looks for a frame.

use mv_message::Party;
use std::marker::Sync;

/// Called by the worker of a repository before each of its looks for a frame, with no lock held. A run returns only if it does.
pub trait Gate: Sync {
    /// Lets the worker of a party's repository through.
    fn pass(&self, party: Party);
}

/// A gate that stands open.
#[derive(Clone, Copy)]
pub struct NoGate;

impl Gate for NoGate {
    fn pass(&self, _party: Party) {}
}
