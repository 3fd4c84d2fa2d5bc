//! The limits that links keep. Those above take them from here, in contracts too.

/// The most parties that a system has.
pub const PARTIES_LIMIT: usize = 64;

/// The fewest items that a link keeps, and so a window holds.
pub const WINDOW_LEAST: u32 = 2;

/// The most items that a link keeps.
pub const WINDOW_LIMIT: u32 = 256;

/// The greatest number that an item has on its link, or a stamp: numbers have 32 bits.
pub const NUMBER_LIMIT: u32 = u32::MAX;
