//! The command line: which words run what, and the exit status.

ghost use Rattle.std.specs.Prelude.{◌≡◌, ◌≢◌, ◌≤◌, [], map, string_bytes};
ghost use Rattle.std.specs.Io.KnownBytes.{Keeps};
ghost use Rattle.clap.specs.Values.{kind_of};
ghost use Rattle.clap.specs.Words.{fault_of};
ghost use Rattle.mv_words.specs.Words.{AsksFor, AreMistaken, IsMistake, command_line};
ghost use Rattle.mv_words.specs.declared.task.Task.{Task};
ghost use Rattle.mv_tool.specs.Commands.{Ran};
ghost use Rattle.mv_tool.specs.Statuses.{status_code};
ghost use Rattle.mv_tool.specs.declared.status.Status.{Status as AStatus};

use crate::Status;
use crate::performing::perform;
use crate::telling::status_of;
use clap::Error;
use mv_lines::put_out;
use mv_words::task_of;
use std::alloc::Global;
use std::io::{Read, Write};
use std::marker::Sync;
use std::sync::Wait;
use std::thread::Threads;

/// Reads the words, the program's name first, runs what they ask for, and answers the exit status, that of a `Status`.
///
/// What is read comes from `reader`, what is asked for goes to `writer`, help too, and what went wrong to `faults`. A
/// write to `faults` that fails is passed over. The texts of help and of mistakes are their library's.
///
/// It is the last call of a program: what `steps` has open at its end is left to the end of the process, which gives the
/// memory back. Whoever goes on calls `serve`.
pub fn command<H: Threads + Wait + Sync, R: Read, W: Write, F: Write>(
    rt: &H,
    alloc: Global,
    words: Vec<String>,
    reader: &mut R,
    writer: &mut W,
    faults: &mut F,
) -> u8
    ensures few { result ≤ 2 }
    ensures ran { (task : Task) → AsksFor task (map string_bytes words.items) → (status : AStatus)
        × (result ≡ status_code status)
        × Ran (R.remaining reader.old) (R.remaining reader.new)
        (W.contents writer.old) (W.contents writer.new)
        (F.contents faults.old) (F.contents faults.new) task status }
    ensures mistaken { AreMistaken (map string_bytes words.items) → result ≡ 2 }
    // Such words are mistaken, or a call for help.
    ensures unread { fault_of command_line (map string_bytes words.items) ≢ []
        → Keeps (R.remaining reader.old) (R.remaining reader.new) }
    ensures unwritten { result ≡ 2 → Keeps (W.contents writer.old) (W.contents writer.new) }
    ensures quiet { result ≡ 0 → Keeps (F.contents faults.old) (F.contents faults.new) }
{
    match task_of(alloc, words.as_slice()) {
        Ok(Some(task)) => perform(rt, alloc, task, reader, writer, faults).code(),
        Ok(None) => Status::Refused.code(),
        Err(error) => explain(alloc, &error, writer, faults).code(),
    }
}

/// Writes the text of a parse that asked for nothing: help to `writer`, a mistake to `faults`.
fn explain<W: Write, F: Write>(
    alloc: Global,
    error: &Error,
    writer: &mut W,
    faults: &mut F,
) -> Status
    ensures mistaken { IsMistake (kind_of error.now) → result ≡ Status.Refused }
    ensures unwritten { result ≡ Status.Refused
        → Keeps (W.contents writer.old) (W.contents writer.new) }
    ensures quiet { result ≡ Status.Done → Keeps (F.contents faults.old) (F.contents faults.new) }
{
    if error.use_stderr() {
        let _ = write!(faults, "{error}");
        return Status::Refused;
    }
    match format!(in alloc; "{error}") {
        Ok(text) => {
            let ended = put_out(writer, text.as_bytes());
            status_of(ended, faults)
        }
        Err(error) => {
            let _ = writeln!(faults, "error: {error}");
            Status::Refused
        }
    }
}
