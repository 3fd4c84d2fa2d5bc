//! The ends of a system, opened, called and gathered, on one thread, also with refused calls made again, and with each call of a
//! repository's end in a thread of its own, and reported; plans that are read, and run in threads; and the turns of a plan, taken from
//! words.
//!
//! Nothing stands on this crate. To drop an end, or an outcome, is dear to prove: so none is let go on the way, and each row says by
//! a truth value how it went.
#![tactic(auto)]

#[cfg(test)]
mod ends;
#[cfg(test)]
mod hands;
#[cfg(test)]
mod plans;
#[cfg(test)]
mod rows;
#[cfg(test)]
mod words;
