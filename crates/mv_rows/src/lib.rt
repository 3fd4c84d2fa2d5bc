//! Worked rows of each crate, through its public calls, with the answers of a person who knew them.
//!
//! Nothing stands on this crate. The tests of the crates below stand here and not in them, since a crate with tests is proved twice.
#![tactic(auto)]

#[cfg(test)]
mod checks;
#[cfg(test)]
mod explain;
#[cfg(test)]
mod faults;
#[cfg(test)]
mod hub;
#[cfg(test)]
mod index;
#[cfg(test)]
mod lines;
#[cfg(test)]
mod link;
#[cfg(test)]
mod message;
#[cfg(test)]
mod pack;
#[cfg(test)]
mod pairs;
#[cfg(test)]
mod party;
#[cfg(test)]
mod repository;
#[cfg(test)]
mod session;
#[cfg(test)]
mod show;
#[cfg(test)]
mod tokens;
#[cfg(test)]
mod trail;
