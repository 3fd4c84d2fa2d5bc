//! The words of the program's command line, and what they ask for.
//!
//! The inside of the program, `mv_tool`, uses it. The contract: [`task_of`] gives the task that the words ask for, or an error of a
//! kind that is wrong with them, by the definitions in `specs/`: `command_line` is the command in the words of its parser's own
//! contracts.
//! This crate knows no line and no message, nothing of how a task is carried out, and no exit status.
//!
//! It can be used alone, with the crate that its line of crates.txt names.
//! A caller that takes a number of turns from words, proved in the gate (`thread_rows`):
//!
//! ```rust
//! fn turns_of(alloc: Global, words: &[String]) -> Option<u32> {
//!     match task_of(alloc, words) {
//!         Ok(Some(Task::Work { turns })) => Some(turns),
//!         _ => None,
//!     }
//! }
//! ```
#![tactic(auto)]

pub mod laws;
mod task;
mod texts;
mod words;

pub use task::{Codes, Task, task_of};
