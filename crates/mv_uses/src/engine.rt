//! A text is answered line by line, and a fault says how far.

ghost use Rattle.std.specs.Prelude.{◌≡◌, ℕ, List, ◌++◌, Some, OnOk, IfErr};
ghost use Rattle.mv_engine.specs.Served.{Served, EndedAt};

use mv_engine::{Answering, ServeFault, answer_lines};
use std::alloc::Global;

/// Has the lines of a text answered, and puts the replies behind what the buffer holds. Where it ends by a fault, some first part of the
/// text was taken, and the fault says which replies to it stand in the buffer, and where what answers is left.
pub fn answer_text<S: Answering>(
    alloc: Global,
    answering: &mut S,
    text: &[u8],
    replies: &mut Vec<u8>,
) -> Result<(), ServeFault>
    ensures ok { OnOk result (Served S.replies answering.old text.now answering.new (Some replies.old.items) (Some replies.new.items)) }
    ensures err { IfErr result (λ fault. (taken : List ℕ) × (left : List ℕ) × (text.now ≡ taken ++ left)
        × EndedAt S.replies fault answering.old taken (Some left) answering.new
        (Some replies.old.items) (Some replies.new.items)) }
{
    let mut reader = text;
    answer_lines(alloc, answering, &mut reader, replies)
}
