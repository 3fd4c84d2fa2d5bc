//! What the lines of a run did, and what stands when they end.
//!
//! The program's command line is its user. The contract: [`trail`] and [`show`] take lines as `serve` of `mv_lines` does, by the
//! definitions in `specs/`. `trail` writes the event of each line, or nothing; the laws say that these events are the hub's record, the
//! log of each repository, and what each party submitted. `show` writes, when the input ends, what stands in the state of the list
//! machine that they lead to: how much each party has, what its repository holds of each product, batch and pack, and how far each
//! link is. This crate knows no thread and no word of the command line.
//!
//! It can be used alone, with the crates that its line of crates.txt names.
//! A caller that writes the trail of lines, proved in the gate (`mv_rows`):
//!
//! ```rust
//! fn are_events(alloc: Global, lines: &str, events: &str) -> bool {
//!     let mut reader = lines.as_bytes();
//!     let mut writer = Vec::new(alloc);
//!     let ended = trail(alloc, &mut reader, &mut writer);
//!     ended.is_ok() && writer.as_slice() == events.as_bytes()
//! }
//! ```
//!
//! A caller that shows what stands after lines in memory, proved in the gate (`mv_rows`):
//!
//! ```rust
//! fn is_open_after(alloc: Global, lines: &str, shown: &mut Vec<u8>) -> Result<bool, ServeFault> {
//!     let mut reader = lines.as_bytes();
//!     show(alloc, &mut reader, shown)
//! }
//! ```
#![tactic(auto)]

mod event;
mod gathering;
pub mod laws;
mod lines;
mod link_lines;
mod naming;
mod party_lines;
mod passing;
mod showing;
mod subject;
mod trailing;

pub use showing::show;
pub use trailing::trail;
