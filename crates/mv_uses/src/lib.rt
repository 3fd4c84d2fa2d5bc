//! What a caller of the libraries can conclude from their contracts, shown by callers.
//!
//! Nothing stands on this crate. Each function calls a library, and promises what follows from what the calls promise. Of the system and
//! its ends: for two calls in a row, for a call that is refused, for what a repository applied, for the verdicts and the histories of
//! two repositories, and for ends that are called in loops. Of each other library that takes no handle: what one would do with it first,
//! as its page shows. The proofs cite the clauses of these calls and the laws of the crates below.
#![tactic(auto)]

mod applied;
mod calls;
mod canonical;
mod carrying;
mod checks;
mod ends;
mod engine;
mod explain;
mod format;
mod histories;
mod hub;
mod index;
mod lines;
mod link;
mod machine;
mod message;
mod pack;
mod pairs;
mod plan;
mod refusals;
mod report;
mod show;
mod system;
mod tokens;
mod trail;
mod verdicts;
mod words;

pub use applied::{know_lawful, submission_at};
pub use calls::{ask_and_run, run_twice, step_twice};
pub use canonical::canonical_text;
pub use carrying::carry;
pub use checks::texts_or_refusals;
pub use ends::{outcome_in_turn, verdicts_in_one_outcome};
pub use engine::answer_text;
pub use explain::push_explained;
pub use format::refusal_of;
pub use histories::have_same_history;
pub use hub::route_and_list;
pub use index::any_with;
pub use lines::take_twice_at_most;
pub use link::carry_one;
pub use machine::limits_or_code;
pub use message::recall_for_two;
pub use pack::read_pack;
pub use pairs::table_with;
pub use plan::parts_or_refusal;
pub use refusals::{ask_twice_at_most, step_twice_at_most, submit_twice_at_most};
pub use report::have_same_report;
pub use show::shown_after;
pub use system::run_from_opening;
pub use tokens::is_empty_object;
pub use trail::trail_of;
pub use verdicts::{verdicts_in_one_system, verdicts_in_two_systems};
pub use words::turns_of;
