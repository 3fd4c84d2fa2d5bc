//! What the lines that were read plan.

use crate::draft::Draft;

/// What some lines plan.
#[derive(Drop)]
pub enum Planned {
    /// No line has opened a plan.
    Nothing,
    /// This plan.
    Plan(Draft),
    /// A line was refused, the first of all by this text.
    Refused(String),
}
