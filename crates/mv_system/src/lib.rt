//! The system on one thread: the hub, its parties, and the wires between them, one step at a time.
//!
//! `mv_lines` is its user: it opens a system, and takes the steps that lines ask for. The contract: a `World` is seen as the
//! state of the list machine; each step is one that the list machine allows, and every run leaves a lawful state: what a
//! repository applied from each sender is a prefix of what the record put on their link, in order and each once. This crate
//! knows no JSON and no line of the program. The types of its steps, replies and limits are those of `mv_machine`, handed on.
//!
//! It can be used alone, with the crates that its line of crates.txt names.
//! A caller that opens a system, proved in the gate (`mv_cases`):
//!
//! ```rust
//! fn opened(alloc: Global, uplink: u32, submissions: u32) -> Option<World> {
//!     let parties = parties(alloc)?;
//!     let limits = Limits::of(8, 8, uplink, submissions).ok()?;
//!     World::open(alloc, parties, limits).ok()
//! }
//! ```
#![tactic(auto)]

mod world;

pub use mv_machine::{Limits, LimitsFault, Refusal, Reply, Step};
pub use world::World;
