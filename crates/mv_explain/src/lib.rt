//! What a code says, in one sentence, and what to do about it.
//!
//! Codes are what replies and standard error name faults, refusals and effects by, as `P3`, `S6` or `E12`. The contract: [`sentence`] gives
//! the sentence of a code by one table, and [`explain`] writes a line for each of some codes, or names the first word that is no code.
//! The sentences are those of docs/OPERATING.md, and `tests/explained` compares the two. This crate knows no line, no message and
//! nothing of what gives a code.
//!
//! It can be used alone: its line of crates.txt names no other crate.
//! A caller that looks a code up, proved in the gate (`mv_rows`):
//!
//! ```rust
//! fn is_told(code: &str, wanted: &str) -> bool {
//!     match sentence(code) {
//!         Some(told) => told == wanted,
//!         None => false,
//!     }
//! }
//! ```
#![tactic(auto)]

mod codes;
mod explaining;
mod sentences;

pub use codes::{codes_are_listed, sentence};
pub use explaining::{ExplainFault, explain};
