//! Runs steps, and counts the lines that were not taken.

ghost use Rattle.std.specs.Prelude.{◌≡◌, ℕ, List, None, Some, OnOk, IfErr, IfSome, if◌then◌else◌};
ghost use Rattle.std.specs.Io.KnownBytes.{Consumes};
ghost use Rattle.mv_engine.specs.Served.{AllServed, Served, EndedAt, EndedBy};
ghost use Rattle.mv_lines.specs.Sessions.{Open, IsReply};
ghost use Rattle.mv_lines.specs.Strict.{IsStrictReply, tallied};

use crate::session::Session;
use mv_engine::{Answering, ServeFault, answer_lines};
use mv_format::append_json;
use std::alloc::{AllocError, Global};
use std::io::{Read, Write};
use std::marker::Model;
use std::mem::ManuallyDrop;

/// Lines of a run that were not taken: refused by an M, C, H or O, or by S14.
#[derive(Clone, Copy, PartialEq, Eq)]
pub struct Untaken {
    /// How many they are.
    pub count: u32,
    /// The number of the first, counted from one, with the empty lines.
    pub first: u32,
}

/// How a strict run ended.
#[derive(Clone, Copy, PartialEq, Eq)]
pub struct StrictRun {
    /// Whether a fault ended it.
    pub ended: Result<(), ServeFault>,
    /// The lines that were not taken, where there are any.
    pub untaken: Option<Untaken>,
}

/// What answers steps, and counts.
#[derive(Drop)]
struct Counted {
    /// What memory is got from.
    alloc: Global,
    /// What takes the lines. What is open at the end is not taken apart.
    session: ManuallyDrop<Session>,
    /// The lines so far that were not taken.
    untaken: Option<Untaken>,
}

impl Model for Counted {
    ghost use Rattle.std.specs.Mem.{manually_drop_value};
    ghost use Rattle.mv_lines.specs.Strict.{Strict};

    ghost Value = { Strict };

    ghost view = { λ c. (manually_drop_value c.session, c.untaken) };
}

impl Answering for Counted {
    ghost replies = { IsStrictReply };

    fn answer(&mut self, number: u32, line: &[u8], out: &mut Vec<u8>) -> Result<bool, AllocError> {
        let answered = self.session.take(line)?;
        self.untaken = tally(self.untaken, number, answered.is_refused());
        append_json(self.alloc, out, &answered).and(Ok(true))
    }
}

/// The lines that were not taken, with this one where it was refused.
fn tally(untaken: Option<Untaken>, number: u32, is_refused: bool) -> Option<Untaken>
    ensures { result ≡ (if is_refused then Some (tallied number untaken) else untaken) }
{
    if !is_refused {
        return untaken;
    }
    match untaken {
        None => Some(Untaken {
            count: 1,
            first: number,
        }),
        Some(untaken) => Some(Untaken {
            count: untaken.count.saturating_add(1),
            first: untaken.first,
        }),
    }
}

/// Does what [`serve`](crate::serve) does, and says which lines were not taken, also where a fault ended the run.
///
/// It is the last thing in a process: what is open at the end is not taken apart, since the process gives all its memory back at once.
pub fn serve_strict<R: Read, W: Write>(alloc: Global, reader: &mut R, writer: &mut W) -> StrictRun
    // The replies are those of `serve`.
    ensures served { OnOk result.ended (AllServed IsReply None
        (R.remaining reader.old) (W.contents writer.old) (W.contents writer.new)) }
    ensures ended { IfErr result.ended (λ fault. EndedBy IsReply fault None
        (R.remaining reader.old) (R.remaining reader.new) (W.contents writer.old) (W.contents writer.new)) }
    // The lines that were not taken are those of these replies.
    ensures ok { OnOk result.ended (IfSome (R.remaining reader.old) (λ bytes. (after : Open)
        × Served IsStrictReply (None, None) bytes (after, result.untaken)
        (W.contents writer.old) (W.contents writer.new))) }
    // They are those of the lines that were answered, and of one more where memory was refused for its reply.
    ensures err { IfErr result.ended (λ fault. (bytes : List ℕ)
        × Consumes (R.remaining reader.old) (R.remaining reader.new) bytes × (after : Open)
        × EndedAt IsStrictReply fault (None, None) bytes (R.remaining reader.new) (after, result.untaken)
        (W.contents writer.old) (W.contents writer.new)) }
{
    let mut counted = Counted {
        alloc,
        session: Session::last(alloc),
        untaken: None,
    };
    let ended = answer_lines(alloc, &mut counted, reader, writer);
    StrictRun {
        ended,
        untaken: counted.untaken,
    }
}
