//! A value for each ordered pair of parties.
//!
//! The hub keeps its links in such a table, and the system its wires. The contract: contracts see a list of rows, one
//! for each party from which, with a value for each party to which; what is written at a pair changes that value alone.
//! This crate knows nothing of what the values are.
//!
//! It can be used alone: its line of crates.txt names no other crate.
//! A caller that makes a table and writes at one pair, proved in the gate (`mv_rows`):
//!
//! ```rust
//! fn marked(alloc: Global) -> Option<PairTable<u32>> {
//!     let mut table = PairTable::from_fn(alloc, 3, || -> Result<u32, AllocError> { Ok(7) }).ok()?;
//!     if table.parties() == 3 {
//!         *table.at_mut(0, 2) = 8;
//!     }
//!     Some(table)
//! }
//! ```
#![tactic(auto)]

mod table;

pub use table::PairTable;
