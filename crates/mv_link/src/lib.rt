//! Numbered links: what is pushed at one end is accepted at the other in order, each item once.
//!
//! There is a link for each ordered pair of parties, a party and itself included. The hub keeps the sending ends, each
//! party its receiving ends. The contract: each frame that is relayed is a frame of every list that ends with what the
//! sending end holds, and frames that come in any order are accepted as a prefix of their list. This crate knows no hub.
//!
//! It can be used alone, with the crates that its line of crates.txt names.
//! A caller that pushes an item where the window has room, proved in the gate (`mv_rows`):
//!
//! ```rust
//! fn push(link: &mut Outgoing, k: u32) -> bool {
//!     link.room(1) && link.push(receipt(k)).is_ok()
//! }
//! ```
#![tactic(auto)]

mod fault;
mod incoming;
mod item;
mod laws;
mod limits;
mod outgoing;
mod party_set;
mod reach;
mod reached;

pub use fault::LinkFault;
pub use incoming::{Incoming, Look};
pub use item::{Frame, Item};
pub use laws::{accepted_is_prefix, one_more_frame_is_looked_at};
pub use limits::{NUMBER_LIMIT, PARTIES_LIMIT, WINDOW_LEAST, WINDOW_LIMIT};
pub use outgoing::Outgoing;
pub use party_set::PartySet;
pub use reach::Reach;
pub use reached::Reached;
