//! How much one party does at most.

/// The most messages that a party submits.
pub const SUBMISSIONS_LIMIT: u32 = 1_000_000;
