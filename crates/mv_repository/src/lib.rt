//! A national repository: its log, and the copy that the log means.
//!
//! A party owns one. The contract: a repository is seen as its party and its log; whatever it answers is what that log
//! means, by the definitions in `specs/`. Products, packs and verdicts go in the order of the hub's stamps, and what is
//! listed goes in the order of arrival. A refused call has changed nothing. This crate knows no hub, no JSON and no thread.
//!
//! It can be used alone, with the crates that its line of crates.txt names.
//! A caller that looks at what came from one sender, proved in the gate (`mv_rows`):
//!
//! ```rust
//! fn has_one(repository: &Repository, sender: u32, wanted: u32) -> bool {
//!     let mut items = repository.from_sender(sender);
//!     match items.next() {
//!         Some(Item::Carried { stamp, .. }) => *stamp == wanted && items.next().is_none(),
//!         _ => false,
//!     }
//! }
//! ```
#![tactic(auto)]

mod blocks;
mod effect;
mod entry;
mod held;
mod history;
mod inquiries;
mod laws;
mod listing;
mod repository;
mod shelf;
mod slots;
mod state;
mod stops;
mod tables;
mod track;
mod verdict;

pub use effect::Effect;
pub use entry::{FromSender, LogEntry};
pub use held::{Change, Held, REVERT_SECONDS};
pub use history::{History, Statuses};
pub use laws::{
    about_decides, change_names_its_status, ordered_is_the_order, pack_is_of_its_own_entries,
    same_entries_agree, same_histories_agree, same_messages_agree,
};
pub use repository::{Counts, Repository};
pub use slots::ProductSerials;
pub use verdict::{Joint, Local, Verdict};
