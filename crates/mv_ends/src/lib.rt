//! The ends of a system whose parts run apart: the hub's end, and the end of each repository.
//!
//! The workers are their user: each thread owns one end. The inside of the program, `mv_tool`, has a report written. Ends share
//! nothing but rings, of one producer and one consumer each: one for each party's uplink to the hub, and one for each ordered pair of
//! parties, which is the wire of their link. What crosses a ring is in memory of its own (a parcel). The contract: each call is the
//! step of its name, over the lists that the end itself keeps. No call waits, and none takes a lock. [`report`] writes `report_text`
//! of the state that is seen in what was gathered. This crate knows no thread and no JSON.
//!
//! It can be used alone, with the crates that its line of crates.txt names.
//! A caller that opens the ends, submits at the first party's (`submit_first` calls `submit` of it), routes, and gathers all,
//! proved in the gate (`thread_rows`):
//!
//! ```rust
//! fn routed_at_once(
//!     alloc: Global,
//!     parties: Parties,
//!     limits: Limits,
//!     message: &Message,
//! ) -> Option<Outcome> {
//!     let Ok((mut hub, mut repos)) = open(alloc, parties, limits) else {
//!         return None;
//!     };
//!     submit_first(&mut repos, message);
//!     hub.route(0);
//!     ends_stay_ends();
//!     Some(gather(hub, repos))
//! }
//! ```
//!
//! A caller that compares a report, proved in the gate (`thread_rows`):
//!
//! ```rust
//! fn is_reported(alloc: Global, outcome: &Outcome, text: &str) -> bool {
//!     match report(alloc, outcome) {
//!         Ok(written) => written.as_str() == text,
//!         Err(_) => false,
//!     }
//! }
//! ```
#![tactic(auto)]

mod answering;
mod copies;
mod front;
mod hub_end;
mod inlet;
mod inlets;
mod laws;
mod opening;
mod outcome;
mod parcel;
mod repo_end;
mod reporting;
mod wires;

pub use hub_end::HubEnd;
pub use inlets::Inlets;
pub use laws::{ends_stay_ends, hub_end_stays, repo_end_stays, repo_ends_stay};
pub use opening::open;
pub use outcome::{Outcome, gather};
pub use parcel::Parcel;
pub use repo_end::{RepoEnd, Unsubmitted};
pub use reporting::report;
pub use wires::Wires;
