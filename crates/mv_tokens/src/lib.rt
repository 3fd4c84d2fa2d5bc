//! The tokens of a JSON text, one after another.
//!
//! Used by what reads lines and messages without a value in between. The contract: a reader is seen as the tokens that are still to
//! come, and what it hands out is the first of them. It gives exactly the tokens that the reader of the library gives, and takes less time
//! for short texts: it passes over the bytes once, with no index made before. From what is seldom met on, as an escape or a number with a
//! point, the library reads. This crate knows no message and no line.
//!
//! It can be used alone, with the crates that its line of crates.txt names.
//! A caller that adds up the whole numbers of a list, proved in the gate (`mv_rows`):
//!
//! ```rust
//! fn sum_of(text: &str, scratch: &mut Scratch) -> Option<u64> {
//!     scratch.reserve(text.len()).ok()?;
//!     let mut reader = Reader::new(text, scratch);
//!     let mut sum = 0u64;
//!     while let Some(token) = reader.next() {
//!         if let Token::Number(number) = token {
//!             sum = sum.checked_add(whole_of(number)?)?;
//!         }
//!     }
//!     Some(sum)
//! }
//! ```
#![tactic(auto)]

mod plain;
mod reader;
mod run;
mod text;
mod whole;

pub use reader::Reader;
pub use text::text_of;
pub use whole::whole_of;
