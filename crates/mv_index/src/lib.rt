//! Numbers by the hashes of what they stand for.
//!
//! A repository finds its packs by such an index: the serial number of a pack stands in the log, and the index gives the number under which
//! more is kept of the pack. So no key is kept twice. The contract: contracts see the list of the hashes, that of number 0 first. What has a
//! number is told by whoever looks for it. This crate knows nothing of what that is.
//!
//! It can be used alone: its line of crates.txt names no other crate.
//! A caller that looks for a name among those with its hash, proved in the gate (`mv_rows`):
//!
//! ```rust
//! fn number_of(index: &HashIndex, names: &[u32], name: u32, hash: u32) -> Option<usize> {
//!     index.find(hash, |number: usize| -> bool {
//!         names.get(number) == Some(&name)
//!     })
//! }
//! ```
#![tactic(auto)]

mod index;

pub use index::{HashIndex, hash_of};
