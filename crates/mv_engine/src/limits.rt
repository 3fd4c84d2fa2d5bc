//! What a run takes at most.

/// The bytes of a line, without its line feed.
pub(crate) const LINE_LIMIT: usize = 65_536;

/// The lines of a run.
pub(crate) const LINES_LIMIT: u32 = 1_000_000;

/// The interrupted reads at which a run ends.
pub(crate) const INTERRUPTIONS_LIMIT: u32 = 1_000;

/// The bytes that one read may give.
pub(crate) const BLOCK_LEN: usize = 65_536;
