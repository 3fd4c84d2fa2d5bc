//! Messages between parties.
//!
//! Used by every crate above. A message is what it holds, and messages are compared by that. This crate knows no JSON, no
//! link, no hub and no line of the program.
//!
//! It can be used alone, with the crates that its line of crates.txt names.
//! A caller that makes a message of its values, to be shared, proved in the gate (`mv_rows`):
//!
//! ```rust
//! fn recall(alloc: Global, gtin: &str, batch: &str, at: u64) -> Option<Shared<Message>> {
//!     let gtin = Gtin::read(gtin).ok()?;
//!     let batch = Batch::read(batch).ok()?;
//!     let at = Moment::of(at).ok()?;
//!     let key = BatchKey { gtin, batch };
//!     Shared::new(alloc, Message::Recall { key, at }).ok()
//! }
//! ```
#![tactic(auto)]

mod boxed;
mod found;
pub mod laws;
mod markets;
mod message;
mod serials;
mod shared;
mod standing;
mod text;

pub use boxed::Boxed;
pub use found::Found;
pub use markets::Markets;
pub use message::{Message, Party, Product};
pub use serials::Serials;
pub use shared::Shared;
pub use standing::Standing;
pub use text::Text;
