//! Carries out what the words of the command line ask for.

ghost use Rattle.std.specs.Prelude.{◌≡◌};
ghost use Rattle.std.specs.Io.KnownBytes.{Keeps};
ghost use Rattle.mv_tool.specs.Commands.{Ran};

use crate::telling::{explain_codes, status_of, status_of_answer, status_of_strict};
use crate::{Status, work};
use mv_lines::{canon, check, serve_last, serve_strict};
use mv_show::{show, trail};
use mv_words::Task;
use mv_workers::NoGate;
use std::alloc::Global;
use std::io::{Read, Write};
use std::marker::Sync;
use std::sync::Wait;
use std::thread::Threads;

/// Carries out a task.
pub(crate) fn perform<H: Threads + Wait + Sync, R: Read, W: Write, F: Write>(
    rt: &H,
    alloc: Global,
    task: Task<'_>,
    reader: &mut R,
    writer: &mut W,
    faults: &mut F,
) -> Status
    ensures ran { Ran (R.remaining reader.old) (R.remaining reader.new)
        (W.contents writer.old) (W.contents writer.new)
        (F.contents faults.old) (F.contents faults.new) task.entry result }
    ensures unwritten { result ≡ Status.Refused
        → Keeps (W.contents writer.old) (W.contents writer.new) }
    ensures quiet { result ≡ Status.Done → Keeps (F.contents faults.old) (F.contents faults.new) }
{
    match task {
        Task::Steps => status_of(serve_last(alloc, reader, writer), faults),
        Task::Strict => status_of_strict(alloc, serve_strict(alloc, reader, writer), faults),
        Task::Trail => status_of(trail(alloc, reader, writer), faults),
        Task::Show => status_of_answer(show(alloc, reader, writer), faults),
        Task::Canon => status_of(canon(alloc, reader, writer), faults),
        Task::Check => status_of_answer(check(alloc, reader, writer), faults),
        Task::Work { turns } => {
            status_of_answer(work(rt, alloc, reader, writer, turns, &NoGate), faults)
        }
        Task::Explain { codes } => explain_codes(alloc, codes.as_slice(), writer, faults),
    }
}
