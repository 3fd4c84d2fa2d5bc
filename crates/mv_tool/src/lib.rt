//! The program's inside: what is run for its words, how a plan is carried out and reported, and the exit status.
//!
//! The program is its user: `main` of `mvhub` gives the words and the three standard streams to [`command`], and ends with the
//! status that it answers. The contract: `command` runs the task that its words name; `work`
//! writes the first refusal of the lines, or the report of what became of the plan that they are. What words ask for
//! is `mv_words`, how lines are read, answered and checked `mv_lines`, what they did and what stands behind them `mv_show`, what they
//! plan `mv_plan`, how a plan is run `mv_workers`, its report `mv_ends`, and what codes mean `mv_explain`. A caller finds all calls of
//! the program here: [`serve`], [`trail`], [`show`], [`canon`], [`check`], [`serve_strict`], [`explain`],
//! [`work`], [`report`] and [`command`].
//!
//! It can be used alone, with the crates that its line of crates.txt names.
//! A caller that carries out a plan, proved in the gate (`thread_rows`):
//!
//! ```rust
//! fn comes_to<R: Threads + Wait + Sync, G: Gate>(
//!     rt: &R,
//!     alloc: Global,
//!     turns: u32,
//!     gate: &G,
//!     report: &str,
//!     answer: bool,
//! ) -> bool {
//!     let mut lines = PLAN.as_bytes();
//!     let mut out = Cursor::new(Vec::new(alloc));
//!     let answered = work(rt, alloc, &mut lines, &mut out, turns, gate);
//!     let text = out.into_inner();
//!     answered == Ok(answer) && is_joined(text.as_slice(), HEAD, report)
//! }
//! ```
#![tactic(auto)]

mod command_line;
mod performing;
mod status;
mod telling;
mod working;

pub use command_line::command;
pub use mv_ends::report;
pub use mv_explain::{ExplainFault, explain};
pub use mv_lines::{ServeFault, StrictRun, Untaken, canon, check, serve, serve_strict};
pub use mv_show::{show, trail};
pub use mv_workers::{Gate, NoGate};
pub use status::Status;
pub use working::work;
