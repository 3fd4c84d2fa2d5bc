//! The hub: it routes each message to the parties that it is for, and keeps the record of what it did.
//!
//! A system and the end of the hub among running threads own one each. The contract: the hub is seen as its parties, its
//! window, its record and how many items of each link were relayed; the record says whom a message reached, what stands
//! on each link, what is known of each product and which batches are linked, by the definitions in `specs/`. A refused
//! call has changed nothing. This crate knows no JSON, no repository and no thread.
//!
//! It can be used alone, with the crates that its line of crates.txt names.
//! A caller that routes a message and looks whom it reached, proved in the gate (`mv_rows`):
//!
//! ```rust
//! fn reaches(hub: &mut Hub, from: u32, message: &Shared<Message>, k: u32, reached: &[u32]) -> bool {
//!     if hub.record().len() > 1_000 {
//!         return false;
//!     }
//!     match hub.route(from, message) {
//!         Ok((number, reach)) => number == k && reach.to_reach().as_slice() == reached,
//!         Err(_) => false,
//!     }
//! }
//! ```
#![tactic(auto)]

mod catalogue;
mod entry;
mod fault;
mod hub;
mod parties;
mod trail;

pub use catalogue::{Catalogue, MasterProduct, Pairs};
pub use entry::Entry;
pub use fault::{HubFault, RouteFault};
pub use hub::Hub;
pub use parties::Parties;
