//! The JSON form of messages.
//!
//! Used by all that reads or writes lines. Its contract: a value is read as a message exactly where the definitions in `specs/` say
//! so, else the first fault in their order is answered; what is written is read back. This crate knows no link, no hub
//! and no line of the program.
//!
//! It can be used alone, with the crates that its line of crates.txt names.
//! A caller that reads a message and writes its canonical text, proved in the gate (`mv_rows`):
//!
//! ```rust
//! fn canonical_text(alloc: Global, text: &str) -> Result<String, MessageFault> {
//!     let message = mv_json::read(alloc, text.as_bytes())?;
//!     mv_json::text(alloc, &message)
//! }
//! ```
#![tactic(auto)]

mod fault;
mod field;
mod form;
mod found_reading;
pub mod laws;
mod lists;
mod member;
pub mod members;
mod message_members;
mod message_reading;
mod object;
mod part;
mod part_reading;
mod plain;
mod readers;
mod reading;
mod text_writer;
mod writing;

pub use fault::MessageFault;
pub use field::Field;
pub use lists::{MOST_MARKETS, MOST_SERIALS};
pub use message_reading::{from_value, read, read_in, take_message};
pub use reading::MOST_TEXT_BYTES;
pub use text_writer::TextWriter;
pub use writing::{text, to_value, write_message, write_text};
