//! What a line asks, and what its reply says.
//!
//! Each line and each reply is one JSON object. The contract: [`Request::read`] gives what a line asks, or its first fault, and a
//! reply is written as the canonical text of its object, both by the definitions in `specs/`. This crate knows no system that
//! takes steps, and not where lines come from.
//!
//! It can be used alone, with the crates that its line of crates.txt names.
//! A caller that looks whether a line asks a step, proved in the gate (`mv_rows`):
//!
//! ```rust
//! fn asks_a_step(alloc: Global, line: &[u8]) -> bool {
//!     matches!(Request::read(alloc, line), Ok(Request::Step(_)))
//! }
//! ```
#![tactic(auto)]

mod answered;
mod field;
mod field_reading;
mod kind;
pub mod laws;
mod line_fault;
mod line_fields;
mod market_lists;
mod members;
mod open_fault;
mod opening;
mod reply_line;
mod request;
mod to_json;
mod token_line;

pub use answered::Answered;
pub use field::LineField;
pub use line_fault::LineFault;
pub use market_lists::MarketLists;
pub use members::{Member, append_object};
pub use open_fault::OpenFault;
pub use opening::{limits_of, parties_of};
pub use reply_line::{append_refusal, fault_text, refusal_text, reply_text};
pub use request::Request;
pub use to_json::{ToJson, append_json};
pub use token_line::read_step;
