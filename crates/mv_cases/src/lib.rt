//! Calls of the hub and of the system that the program never makes, with the answers of a person who knew them.
//!
//! Nothing stands on this crate. Each test is to be right with ample memory, and also where any one request for memory is refused:
//! then a call says so and has changed nothing, and the same call is made again. What the program does then is seen on `examples/`.
#![tactic(auto)]

#[cfg(test)]
mod asking;
#[cfg(test)]
mod batch_links;
#[cfg(test)]
mod message;
#[cfg(test)]
mod system;
#[cfg(test)]
mod whole_run;
