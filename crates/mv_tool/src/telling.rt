//! The status of a run that has ended, and what standard error is told of it.

ghost use Rattle.std.specs.Prelude.{◌≡◌, ℕ, ⊤, List, IfOk, MatchResult, map, string_bytes, if◌then◌else◌};
ghost use Rattle.std.specs.Io.KnownBytes.{Keeps};
ghost use Rattle.mv_engine.specs.Output.{WrotePart};
ghost use Rattle.mv_tool.specs.Telling.{untaken_line};
ghost use Rattle.mv_tool.specs.inside.Telling.{ToldCodes, ToldStrict, no_code_line};

use crate::Status;
use mv_explain::{ExplainFault, explain};
use mv_lines::{ServeFault, StrictRun, Untaken, put_out};
use std::alloc::{AllocError, Global};
use std::io::Write;

/// The status of a run that has ended. A fault is told by its number.
pub(crate) fn status_of<F: Write>(ended: Result<(), ServeFault>, faults: &mut F) -> Status
    ensures status { MatchResult ended (λ _. result ≡ Status.Done) (λ _. result ≡ Status.Failed) }
    ensures quiet { result ≡ Status.Done → Keeps (F.contents faults.old) (F.contents faults.new) }
{
    match ended {
        Ok(()) => Status::Done,
        Err(fault) => {
            let _ = writeln!(faults, "mvhub: {fault}");
            Status::Failed
        }
    }
}

/// The status of a run that has ended, and answers whether all is well.
pub(crate) fn status_of_answer<F: Write>(ended: Result<bool, ServeFault>, faults: &mut F) -> Status
    ensures status { MatchResult ended
        (λ is_well. result ≡ (if is_well then Status.Done else Status.Failed))
        (λ _. result ≡ Status.Failed) }
    // Only a fault is told.
    ensures quiet { MatchResult ended
        (λ _. Keeps (F.contents faults.old) (F.contents faults.new)) (λ _. ⊤) }
{
    match ended {
        Ok(true) => Status::Done,
        Ok(false) => Status::Failed,
        Err(fault) => status_of(Err(fault), faults),
    }
}

/// The status of a strict run that has ended. The lines that were not taken are told, and behind them a fault by its number.
pub(crate) fn status_of_strict<F: Write>(alloc: Global, run: StrictRun, faults: &mut F) -> Status
    ensures { ToldStrict run.ended run.untaken result (F.contents faults.old) (F.contents faults.new) }
{
    match run.untaken {
        None => status_of(run.ended, faults),
        Some(untaken) => {
            tell(untaken_line(alloc, untaken), faults);
            let _ = status_of(run.ended, faults);
            Status::Failed
        }
    }
}

/// Tells a line, where there was memory for it. A write that fails is passed over.
fn tell<F: Write>(line: Result<String, AllocError>, faults: &mut F)
    ensures { (text : List ℕ) → IfOk line (λ told. string_bytes told ≡ text)
        → WrotePart text (F.contents faults.old) (F.contents faults.new) }
{
    if let Ok(text) = line {
        let _ = put_out(faults, text.as_bytes());
    }
}

/// The line that says which lines were not taken.
fn untaken_line(alloc: Global, untaken: Untaken) -> Result<String, AllocError>
    ensures { IfOk result (λ text. string_bytes text ≡ untaken_line untaken) }
{
    let Untaken { count, first } = untaken;
    format!(in alloc; "mvhub: lines not taken: {count}, the first: {first}\n")
}

/// Writes what codes mean to `writer`; the first word that is no code is told on `faults`, and so is a fault, by its number.
pub(crate) fn explain_codes<W: Write, F: Write>(
    alloc: Global,
    words: &[&str],
    writer: &mut W,
    faults: &mut F,
) -> Status
    ensures told { ToldCodes (map (λ word. word.now) words.now) result (W.contents writer.old)
        (W.contents writer.new) (F.contents faults.old) (F.contents faults.new) }
    ensures quiet { result ≡ Status.Done → Keeps (F.contents faults.old) (F.contents faults.new) }
{
    match explain(alloc, words) {
        Ok(text) => status_of(put_out(writer, text.as_bytes()), faults),
        Err(ExplainFault::NoCode(word)) => {
            tell(no_code_line(alloc, word), faults);
            Status::Refused
        }
        Err(ExplainFault::Memory) => status_of(Err(ServeFault::Memory), faults),
    }
}

/// The line that says that a word is no code.
fn no_code_line(alloc: Global, word: &str) -> Result<String, AllocError>
    ensures { IfOk result (λ text. string_bytes text ≡ no_code_line word.now) }
{
    format!(in alloc; "mvhub: no such code: {word}\n")
}
