//! The list machine: the whole system as plain lists, with a row for each step, and its laws.
//!
//! To be believed, and hardly any code: the system is proved to answer as this machine does, and the laws say what every run
//! of the machine keeps. It stands on the definitions of the hub, and of a party with its repository.
//!
//! It can be used alone, with the crates that its line of crates.txt names. A system that takes its steps is
//! `mv_system`. A caller that takes two and joins what they promise by a law, proved in the gate (`mv_uses`):
//!
//! ```rust
//! pub fn step_twice(world: &mut World, first: &Step, second: &Step) -> (Reply, Reply)
//!     ensures ran { Runs world.old (first.now ∷ second.now ∷ []) (result.0 ∷ result.1 ∷ []) world.new }
//!     ensures closed { NothingSubmittedLater world.old world.new }
//!     ensures headline { HeadlineHolds world.old world.new }
//! {
//!     headlines_join();
//!     let one = world.step(first);
//!     let two = world.step(second);
//!     (one, two)
//! }
//! ```
#![tactic(auto)]

mod laws;
mod limits;
mod reply;
mod step;

pub use laws::{
    closed_links_stay_closed, headlines_join, items_are_submitted, lawful_states_keep_headline,
    limits_are_kept, numbers_suffice, refusals_change_nothing, runs_are_lawful,
    stamps_are_distinct, steps_keep_headline,
};
pub use limits::{Limits, LimitsFault, UPLINK_LIMIT, WIRE_LIMIT};
pub use reply::{Refusal, Reply};
pub use step::Step;
