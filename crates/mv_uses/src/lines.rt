//! A line for which memory was refused may be given again.

ghost use Rattle.std.specs.Prelude.{◌≡◌, IfOk, IfErr};
ghost use Rattle.mv_lines.specs.Sessions.{IsTaken};

use mv_lines::{Answered, Session};
use std::alloc::AllocError;

/// Takes a line in a session, and where memory is refused takes it once more. What comes of it is what taking the line once may come to;
/// and where memory is refused again, nothing has changed.
pub fn take_twice_at_most(session: &mut Session, line: &[u8]) -> Result<Answered, AllocError>
    ensures ok { IfOk result (λ answered. IsTaken session.old line.now answered session.new) }
    ensures err { IfErr result (λ _. session.new ≡ session.old) }
{
    match session.take(line) {
        Err(AllocError) => session.take(line),
        taken => taken,
    }
}
