//! Runs steps, a line each.

ghost use Rattle.std.specs.Prelude.{None, OnOk, IfErr};
ghost use Rattle.mv_engine.specs.Served.{AllServed, EndedBy};
ghost use Rattle.mv_lines.specs.Sessions.{IsReply};

use crate::session::Session;
use mv_engine::{ServeFault, answer_lines};
use std::alloc::Global;
use std::io::{Read, Write};
use std::mem;

/// Writes the reply to each line that is read, in order, each ended by a line feed, and nothing else. An empty line gets
/// none.
///
/// A line is at most 65,536 bytes long, and a run has at most 1,000,000. All whole lines of what one read gave are
/// answered, and their replies written and flushed, before the next read.
pub fn serve<R: Read, W: Write>(
    alloc: Global,
    reader: &mut R,
    writer: &mut W,
) -> Result<(), ServeFault>
    // The input is answered whole: each reply is a right one to its line, each step's one that the list machine allows.
    ensures ok { OnOk result (AllServed IsReply None (R.remaining reader.old) (W.contents writer.old) (W.contents writer.new)) }
    // The bytes are those that were read. Which replies to their lines went out, the fault says.
    ensures err { IfErr result (λ fault. EndedBy IsReply fault None
        (R.remaining reader.old) (R.remaining reader.new) (W.contents writer.old) (W.contents writer.new)) }
{
    let mut session = Session::new(alloc);
    let ended = answer_lines(alloc, &mut session, reader, writer);
    drop(session);
    ended
}

/// Does what `serve` does, as the last thing in a process: what is open at the end is not taken apart, since the process
/// gives all its memory back at once.
pub fn serve_last<R: Read, W: Write>(
    alloc: Global,
    reader: &mut R,
    writer: &mut W,
) -> Result<(), ServeFault>
    ensures ok { OnOk result (AllServed IsReply None (R.remaining reader.old) (W.contents writer.old) (W.contents writer.new)) }
    ensures err { IfErr result (λ fault. EndedBy IsReply fault None
        (R.remaining reader.old) (R.remaining reader.new) (W.contents writer.old) (W.contents writer.new)) }
{
    let mut session = Session::new(alloc);
    let ended = answer_lines(alloc, &mut session, reader, writer);
    mem::forget(session);
    ended
}
