//! The plan of `work`: what the lines of an input ask to be carried out, or the refusal of the first line that is refused.
//!
//! The inside of the program, `mv_tool`, uses it. The contract: [`read_plan`] reads all lines of an input, and gives what they
//! plan by the definitions in `specs/`, or why it has not read them. A plan that it gives can be run. This crate knows no thread, no
//! end, and nothing of how a plan is run.
//!
//! It can be used alone, with the crates that its line of crates.txt names.
//! A caller that looks whether lines are a plan, proved in the gate (`thread_rows`):
//!
//! ```rust
//! fn is_plan(alloc: Global, lines: &str) -> bool {
//!     let mut reader = lines.as_bytes();
//!     matches!(read_plan(alloc, &mut reader), Ok(Planned::Plan(_)))
//! }
//! ```
#![tactic(auto)]

mod draft;
mod planned;
mod planner;
mod planning;
mod reading;

pub use draft::Draft;
pub use planned::Planned;
pub use reading::read_plan;
