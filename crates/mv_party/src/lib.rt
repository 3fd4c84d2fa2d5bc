//! One party of a system: what it submitted, its repository, and the receiving ends of the links to it.
//!
//! The system holds one for each party. The contract: a party is seen as its lists; the answers among its submissions are those
//! that its log calls for; each call answers by the definitions in `specs/`, and a refused one has changed nothing. Whether the
//! party's uplink has room is for its caller to say. This crate knows no hub and no wire.
//!
//! It can be used alone, with the crates that its line of crates.txt names.
//! A caller that submits a message, and once more where it is refused, proved in the gate (`mv_uses`):
//!
//! ```rust
//! pub fn submit_twice_at_most(site: &mut Site, message: &Shared<Message>) -> Result<u32, SiteFault>
//!     ensures ok { OnOk result (site.new ≡ with_submission site.old message.now) }
//!     ensures err { OnErr result (site.new ≡ site.old) }
//! {
//!     match site.submit(message, false) {
//!         Err(_) => site.submit(message, false),
//!         submitted => submitted,
//!     }
//! }
//! ```
#![tactic(auto)]

mod fault;
mod limits;
mod site;
mod taken;

pub use fault::SiteFault;
pub use limits::SUBMISSIONS_LIMIT;
pub use site::{Site, count_from, is_query_or_answer};
pub use taken::Taken;
