//! What applying an item does. Each effect has its number, which replies print.

ghost use Rattle.std.specs.Prelude.{◌≡◌};
ghost use Rattle.mv_repository.specs.Clauses.{code_of};

/// What applying an item did, by the entries that stand before it in the order of stamps.
#[derive(Clone, Copy, PartialEq, Eq)]
pub enum Effect {
    /// E1: what the message asked was done.
    Done,
    /// E2: no upload that names the pack stands before the status.
    Unknown,
    /// E3: the pack was changed from active before.
    NotActive,
    /// E4: the pack to be reverted is active.
    AlreadyActive,
    /// E5: the pack has a standing that is never reverted.
    Fixed,
    /// E6: the revert comes from another party or another user than the change.
    OtherUser,
    /// E7: the revert has a moment before that of the change.
    TooEarly,
    /// E8: the revert comes more than ten days after the change.
    TooLate,
    /// E9: the pack to be reverted has expired.
    Expired,
    /// E10: the batch of the pack to be reverted is recalled.
    Recalled,
    /// E11: the item was noted in the log, and changed no product, no batch and no pack. A receipt or an answer may bear on a verdict.
    Noted,
    /// E12: by the entries that stand before it, the upload makes `new` packs, and `old` of its serial numbers make none: they were
    /// named before, or twice in it.
    Uploaded { new: u64, old: u64 },
    /// E13: the product of the pack to be reverted is withdrawn.
    Withdrawn,
}

impl Effect {
    /// The number of the effect, as `E11`.
    pub fn code(self) -> &'static str
        ensures { result.now ≡ code_of self }
    {
        match self {
            Effect::Done => "E1",
            Effect::Unknown => "E2",
            Effect::NotActive => "E3",
            Effect::AlreadyActive => "E4",
            Effect::Fixed => "E5",
            Effect::OtherUser => "E6",
            Effect::TooEarly => "E7",
            Effect::TooLate => "E8",
            Effect::Expired => "E9",
            Effect::Recalled => "E10",
            Effect::Noted => "E11",
            Effect::Uploaded { .. } => "E12",
            Effect::Withdrawn => "E13",
        }
    }
}
