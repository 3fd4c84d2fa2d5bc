//! What came of a line.

ghost use Rattle.std.specs.Prelude.{◌≡◌};

use crate::{LineFault, OpenFault};
use mv_machine::{Refusal, Reply, Step};

/// What came of a line that isn't empty. The reply to it says this, and all that looks at lines and at what became of them begins
/// with it.
#[derive(Drop)]
pub enum Answered {
    /// The line asks nothing: M1 to M8, or M9 where memory was refused. Nothing changed.
    Unread(LineFault),
    /// What is open refuses what the line asks: C1, C2, H1 to H3, O1 to O4. Nothing changed.
    NotTaken(OpenFault),
    /// A system was opened.
    Opened {
        /// How many parties it has.
        parties: u32,
    },
    /// The system that is open answered a step.
    Stepped {
        /// The step.
        step: Step,
        /// Its reply, which may refuse the step.
        reply: Reply,
    },
}

impl Answered {
    ghost use Rattle.mv_format.specs.ReplyLines.{is_refused};

    /// Whether the line was refused for what it is or for want of memory, by an M, C, H or O or by S14: then it is to be mended, or
    /// given again. A step that the system refuses by another S was read and judged.
    pub fn is_refused(&self) -> bool
        ensures { result ≡ is_refused self.now }
    {
        match self {
            Answered::Unread(_) => true,
            Answered::NotTaken(_) => true,
            Answered::Opened { .. } => false,
            Answered::Stepped { reply, .. } => matches!(reply, Reply::Refused(Refusal::Memory)),
        }
    }
}
