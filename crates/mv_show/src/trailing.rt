//! Writes the event of each line of a run.

ghost use Rattle.std.specs.Prelude.{None, OnOk, IfErr};
ghost use Rattle.mv_engine.specs.Served.{AllServed, EndedBy};
ghost use Rattle.mv_show.specs.Trail.{IsEvent};

use crate::event::append_event;
use mv_lines::{Answering, ServeFault, Session, answer_lines};
use std::alloc::{AllocError, Global};
use std::io::{Read, Write};
use std::marker::Model;
use std::mem::ManuallyDrop;

/// What answers each line by its event. It is seen as what is open.
#[derive(Drop)]
struct Recorder {
    /// What memory is got from.
    alloc: Global,
    /// What takes the lines. What is open at the end is not taken apart.
    session: ManuallyDrop<Session>,
}

impl Model for Recorder {
    ghost use Rattle.std.specs.Mem.{manually_drop_value};
    ghost use Rattle.mv_lines.specs.Sessions.{Open};

    ghost Value = { Open };

    ghost view = { λ r. manually_drop_value r.session };
}

impl Answering for Recorder {
    ghost replies = { IsEvent };

    fn answer(&mut self, number: u32, line: &[u8], out: &mut Vec<u8>) -> Result<bool, AllocError> {
        let answered = self.session.take(line)?;
        append_event(self.alloc, out, number, &answered, self.session.world())
    }
}

/// Writes the event of each line that is read, in order, each ended by a line feed, and nothing else. A line that did nothing, was
/// refused or is empty has none.
///
/// The lines, their limits, and what a fault leaves are as for `serve`. It is the last thing in a process: what is open at the end
/// is not taken apart, since the process gives all its memory back at once.
pub fn trail<R: Read, W: Write>(
    alloc: Global,
    reader: &mut R,
    writer: &mut W,
) -> Result<(), ServeFault>
    // The input is answered whole: each line is taken as the list machine allows, and its event, where it has one, went out.
    ensures ok { OnOk result (AllServed IsEvent None (R.remaining reader.old) (W.contents writer.old) (W.contents writer.new)) }
    // The bytes are those that were read. Which events of their lines went out, the fault says.
    ensures err { IfErr result (λ fault. EndedBy IsEvent fault None
        (R.remaining reader.old) (R.remaining reader.new) (W.contents writer.old) (W.contents writer.new)) }
{
    let mut recorder = Recorder {
        alloc,
        session: Session::last(alloc),
    };
    answer_lines(alloc, &mut recorder, reader, writer)
}
