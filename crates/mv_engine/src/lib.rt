//! The engine that reads the lines of an input, and writes what they are answered.
//!
//! What answers a line is an [`Answering`], whose rule the contract of [`answer_lines`] carries. The contract: what has gone out
//! are replies that this rule calls right, in order, to each line at most one, by the definitions in `specs/`: what the lines of some
//! bytes are, their limits, and what stands written where a run ended by a fault. Whether a line has a reply, the rule says; an empty
//! line has none. This crate knows bytes and lines, and nothing of what a line asks.
//!
//! It can be used alone, with the crates that its line of crates.txt names.
//! A caller that has the lines of a text answered, proved in the gate (`mv_rows`):
//!
//! ```rust
//! fn answer_text<S: Answering>(
//!     alloc: Global,
//!     answering: &mut S,
//!     text: &str,
//!     writer: &mut Tray,
//! ) -> Result<(), ServeFault> {
//!     let mut reader = text.as_bytes();
//!     answer_lines(alloc, answering, &mut reader, writer)
//! }
//! ```
#![tactic(auto)]

mod answering;
mod engine;
mod fault;
mod input;
pub mod laws;
mod limits;
mod output;

pub use answering::Answering;
pub use engine::answer_lines;
pub use fault::ServeFault;
pub use output::put_out;
