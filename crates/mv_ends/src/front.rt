//! What is seen of a frame before it is taken.

/// What an end sees of a frame before it takes it: plain values, of which nothing can be shared.
pub(crate) struct Front {
    /// The number of the frame.
    pub(crate) number: u32,
    /// Whether it carries a query, which alone calls for an answer.
    pub(crate) asks: bool,
}
