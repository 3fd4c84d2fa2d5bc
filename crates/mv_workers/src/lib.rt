//! A hub and its repositories, each run in a thread of its own by a plan.
//!
//! This crate is the only one below the program that starts threads and waits. It adds nothing to what the ends do: a worker
//! owns one end, and tries its calls turn by turn; what they leave is gathered once all workers have ended, and is lawful in
//! whatever order they ran. The contract of [`run_workers`] says what an outcome is beside the plan.
//!
//! What no contract says: that a run finishes, how long it takes, and that workers run at once. A run whose calls would all be
//! refused for ever ends before its turns are used up.
//!
//! It can be used alone, with the crates that its line of crates.txt names, by a program that has handles to start threads and to
//! wait (HANDLES). A caller that runs a plan of empty lists, proved in the gate (`thread_rows`):
//!
//! ```rust
//! fn is_run<R: Threads + Wait + Sync>(rt: &R, alloc: Global, lists: usize, complete: bool) -> bool {
//!     let Some(plan) = empty_plan(alloc, lists) else {
//!         return false;
//!     };
//!     match run_workers(rt, alloc, plan, 0, &NoGate) {
//!         Ok(_) => complete,
//!         Err(WorkFault::Plan) => !complete,
//!         Err(_) => false,
//!     }
//! }
//! ```
#![tactic(auto)]

mod complete;
mod course;
mod crew;
mod desk;
mod gate;
mod pace;
mod plan;
mod run;
mod turns;
mod waiting;
mod work;

pub use gate::{Gate, NoGate};
pub use plan::{Plan, WorkFault};
pub use run::run_workers;
pub use work::Work;
