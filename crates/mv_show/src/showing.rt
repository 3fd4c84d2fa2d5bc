//! Shows what stands when an input ends.

ghost use Rattle.std.specs.Prelude.{◌≡◌, ℕ, List, [], Option, None, IfOk, IfErr, OnOk, IfSome};
ghost use Rattle.mv_engine.specs.Lines.{pieces};
ghost use Rattle.mv_engine.specs.Served.{AreAnswered};
ghost use Rattle.mv_show.specs.Showing.{IsPassed, Shows, Unshown};

use crate::gathering::shown_lines;
use crate::passing::Passing;
use mv_lines::{ServeFault, answer_lines, put_out};
use std::alloc::Global;
use std::io::{self, Read, Write};

/// Does with each line what `steps` does, and writes nothing until the input ends. Then it writes what stands: how much each
/// party has and what its repository holds, and how far each link is; where no system is open, C1. Whether one is open.
///
/// The lines and their limits are as for `serve`. It is the last thing in a process: what is open at the end is not taken
/// apart, since the process gives all its memory back at once. All that stands is gathered before the first byte goes out, so
/// that nothing has gone out where memory is refused.
pub fn show<R: Read, W: Write>(
    alloc: Global,
    reader: &mut R,
    writer: &mut W,
) -> Result<bool, ServeFault>
    // The input was taken whole, and all that stands then went out.
    ensures ok { IfOk result (λ is_open. Shows is_open (R.remaining reader.old)
        (W.contents writer.old) (W.contents writer.new)) }
    // What was read and what went out, the fault says.
    ensures err { IfErr result (λ fault. Unshown fault
        (R.remaining reader.old) (R.remaining reader.new)
        (W.contents writer.old) (W.contents writer.new)) }
{
    let mut passing = Passing::new(alloc);
    take_lines(alloc, &mut passing, reader)?;
    let lines = shown_lines(alloc, passing.world())?;
    put_out(writer, lines.as_slice())?;
    Ok(passing.world().is_some())
}

/// Does with each line what `steps` does.
fn take_lines<R: Read>(
    alloc: Global,
    passing: &mut Passing,
    reader: &mut R,
) -> Result<(), ServeFault>
    requires { passing.old ≡ None }
    ensures ok { OnOk result (IfSome (R.remaining reader.old) (λ bytes.
        AreAnswered IsPassed 0 None (pieces bytes) passing.new [])) }
    // Whatever is written to stays as it was.
    ensures err { IfErr result (λ fault. (contents : Option (List ℕ))
        → Unshown fault (R.remaining reader.old) (R.remaining reader.new) contents contents) }
{
    match answer_lines(alloc, passing, reader, &mut io::sink()) {
        Ok(()) => Ok(()),
        // This never comes, since a sink takes all bytes, but no contract of a writer can say so. What is left is to say that
        // memory was refused, which may come at any place.
        Err(ServeFault::Write) => Err(ServeFault::Memory),
        Err(fault) => Err(fault),
    }
}
