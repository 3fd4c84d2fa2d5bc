//! The laws of lines, of what they ask, and of the replies, which the crates below state.

pub use mv_engine::laws::{
    lines_compose, pieces_are_unended, pieces_compose, pieces_read_back, pieces_rejoin,
};
pub use mv_format::laws::{read_requests_are_legal, replies_are_ordered, requests_read_back};
