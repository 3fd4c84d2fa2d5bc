//! Lines in, reply lines out, over any reader and writer.
//!
//! The program's command line is its user. The contract: `serve` writes the replies to the lines that it reads, which the list
//! machine may give, and `canon` the canonical texts of the messages that they are, by the definitions in `specs/`. `check` writes
//! nothing but the refusal of each message that is refused, with the number of its line. `serve_strict` writes what `serve` writes, and
//! counts the lines that were not taken. What the lines of some bytes are is `mv_engine`, which reads and writes, and what a line asks and a reply
//! says is `mv_format`: most of what these two give out can be reached here too. This crate knows no thread and no word of the command
//! line.
//!
//! It can be used alone, with the crates that its line of crates.txt names.
//! A caller that answers the lines of a reader, proved in the gate (`mv_rows`):
//!
//! ```rust
//! fn answer(
//!     alloc: Global,
//!     task: Task,
//!     reader: &mut Script<'_>,
//!     writer: &mut Tray,
//! ) -> Result<(), ServeFault> {
//!     match task {
//!         Task::Steps => serve(alloc, reader, writer),
//!         Task::Canon => canon(alloc, reader, writer),
//!     }
//! }
//! ```
//!
//! A caller that looks whether each line of a text is a message, proved in the gate (`mv_rows`):
//!
//! ```rust
//! fn are_messages(alloc: Global, lines: &str) -> bool {
//!     let mut reader = lines.as_bytes();
//!     let mut writer = Vec::new(alloc);
//!     check(alloc, &mut reader, &mut writer) == Ok(true)
//! }
//! ```
#![tactic(auto)]

mod canonical;
mod checking;
pub mod laws;
mod serving;
mod session;
mod strict;

pub use canonical::canon;
pub use checking::check;
pub use mv_engine::{Answering, ServeFault, answer_lines, put_out};
pub use mv_format::{
    Answered, LineFault, LineField, MarketLists, Member, OpenFault, Request, append_object,
    fault_text, limits_of, parties_of, refusal_text, reply_text,
};
pub use serving::{serve, serve_last};
pub use session::Session;
pub use strict::{StrictRun, Untaken, serve_strict};
