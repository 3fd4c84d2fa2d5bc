//! The values by which medicine packs are named: product codes, serial, batch and national numbers, dates, moments and
//! markets.
//!
//! Used by every crate above. Its contract: a reader accepts exactly the texts of the definitions in `specs/` (GS1
//! General Specifications, for the GTIN, its check digit, codes and dates), and else answers the first fault in the order
//! of their numbers. No call takes memory. This crate knows no message and no JSON.
//!
//! It can be used alone, with the crates that its line of crates.txt names.
//! A caller that reads what names a pack, proved in the gate (`mv_rows`):
//!
//! ```rust
//! fn pack_key(gtin: &str, serial: &str) -> Option<PackKey> {
//!     let gtin = Gtin::read(gtin).ok()?;
//!     let serial = Serial::read(serial).ok()?;
//!     Some(PackKey { gtin, serial })
//! }
//! ```
#![tactic(auto)]

mod ascii;
mod code;
mod expiry;
mod fault;
mod gtin;
mod key;
pub mod laws;
mod market;
mod moment;

pub use code::{Batch, MOST_CODE_BYTES, National, Serial};
pub use expiry::Expiry;
pub use fault::PackFault;
pub use gtin::Gtin;
pub use key::{BatchKey, PackKey};
pub use market::{MARKETS_LIMIT, Market};
pub use moment::{Moment, YEAR_2100};
