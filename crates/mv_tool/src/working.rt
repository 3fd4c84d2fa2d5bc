//! Carries out a plan, and reports.

ghost use Rattle.std.specs.Prelude.{◌≡◌, ◌++◌, ◌∷◌, [], ◌⊎◌, false, IfOk, IfErr, IfSome, IsOk, string_bytes};
ghost use Rattle.std.specs.Io.KnownBytes.{Appends};
ghost use Rattle.mv_workers.specs.Plans.{IsSound};
ghost use Rattle.mv_plan.specs.Planning.{planned_of};
ghost use Rattle.mv_plan.specs.Drafts.{Parts};
ghost use Rattle.mv_tool.specs.Working.{end_line, parts_of, IsOutput, Worked, Failed};
ghost use Rattle.mv_tool.specs.inside.Telling.{report_of, output_of};

use mv_ends::{Outcome, report};
use mv_lines::{OpenFault, ServeFault, put_out, refusal_text};
use mv_plan::{Draft, Planned, read_plan};
use mv_workers::{Gate, Plan, Work, WorkFault, run_workers};
use std::alloc::Global;
use std::io::{Read, Write};
use std::marker::Sync;
use std::sync::Wait;
use std::thread::Threads;

/// What is written at the end, and whether the plan was finished.
#[derive(Drop)]
struct Output {
    /// What is written.
    text: String,
    /// Whether the plan was finished.
    finished: bool,
}

/// Carries out the plan that the lines are, each party and the hub in a thread of its own with so many turns, and writes the report
/// of what came of it and, by its last line, whether the plan was finished. It answers whether it was.
///
/// All lines are read before anything is written or started. Where one is refused, its refusal is all that is written, that of the
/// first, and nothing is started.
///
/// It is the last thing in a process: what was gathered is not taken apart, since the process gives all its memory back at once.
pub fn work<H: Threads + Wait + Sync, R: Read, W: Write, G: Gate>(
    rt: &H,
    alloc: Global,
    reader: &mut R,
    writer: &mut W,
    turns: u32,
    gate: &G,
) -> Result<bool, ServeFault>
    ensures ok { IfOk result (λ finished. IfSome (R.remaining reader.old) (λ bytes.
        Worked turns bytes finished (Appends (W.contents writer.old) (W.contents writer.new)))) }
    ensures err { IfErr result (λ fault. Failed turns fault (R.remaining reader.old) (R.remaining reader.new)
        (W.contents writer.old) (W.contents writer.new)) }
{
    let planned = read_plan(alloc, reader)?;
    let output = carry_out(rt, alloc, planned, turns, gate)?;
    put_out(writer, output.text.as_bytes())?;
    Ok(output.finished)
}

/// The output of what is planned: V3, V6.
fn carry_out<H: Threads + Wait + Sync, G: Gate>(
    rt: &H,
    alloc: Global,
    planned: Planned,
    turns: u32,
    gate: &G,
) -> Result<Output, ServeFault>
    ensures ok { IfOk result (λ output.
        IsOutput turns (planned_of planned) (string_bytes output.text) output.finished) }
    ensures err { IfErr result (λ fault. (fault ≡ ServeFault.Memory)
        ⊎ ((fault ≡ ServeFault.Start) × ((parts : Parts) × (planned_of planned ≡ Ok (Some parts))))) }
{
    match planned {
        Planned::Nothing => refusal(refusal_text(alloc, OpenFault::NotOpen.code())?),
        Planned::Refused(text) => refusal(text),
        Planned::Plan(draft) => {
            output_of(alloc, run_workers(rt, alloc, plan_of(draft), turns, gate))
        }
    }
}

/// The plan of these parts.
fn plan_of(draft: Draft) -> Plan
    ensures parts { parts_of result ≡ draft }
    ensures sound { IsSound result }
{
    let (parties, limits, work) = draft.into_parts();
    Plan {
        parties,
        limits,
        work: Work::new(work),
    }
}

/// The output of a refusal.
fn refusal(text: String) -> Result<Output, ServeFault>
    ensures text { IfOk result (λ output. string_bytes output.text ≡ string_bytes text ++ 10 ∷ []) }
    ensures unfinished { IfOk result (λ output. output.finished ≡ false) }
    ensures err { IfErr result (λ fault. fault ≡ ServeFault.Memory) }
{
    let mut text = text;
    text.push_str("\n")?;
    Ok(Output {
        text,
        finished: false,
    })
}

/// The output of what a run came to: the report and `finished` of a complete outcome, the report and `unfinished` of one that is not
/// complete. Where a worker was refused memory there is none, V3, nor where nothing was started, V6. What was gathered is not taken
/// apart.
fn output_of(alloc: Global, run: Result<Outcome, WorkFault>) -> Result<Output, ServeFault>
    ensures ok { IfOk result (λ output.
        output_of run ≡ Ok (string_bytes output.text, output.finished)) }
    ensures err { IfErr result (λ fault. (output_of run ≡ Err fault)
        ⊎ ((fault ≡ ServeFault.Memory) × IsOk (output_of run))) }
{
    match run {
        Ok(outcome) => reported(alloc, outcome, true),
        Err(WorkFault::Unfinished(outcome)) => reported(alloc, outcome, false),
        Err(WorkFault::Memory(outcome)) => {
            outcome.leave();
            Err(ServeFault::Memory)
        }
        Err(WorkFault::Start | WorkFault::Plan) => Err(ServeFault::Start),
    }
}

/// The report of an outcome, and whether it is complete. The outcome is not taken apart.
fn reported(alloc: Global, outcome: Outcome, finished: bool) -> Result<Output, ServeFault>
    ensures ok { IfOk result (λ output.
        report_of finished outcome ≡ (string_bytes output.text, output.finished)) }
    ensures err { IfErr result (λ fault. fault ≡ ServeFault.Memory) }
{
    let written = report(alloc, &outcome);
    outcome.leave();
    let mut text = written?;
    text.push_str(end_line(finished))?;
    Ok(Output { text, finished })
}

/// The last line of a report.
fn end_line(finished: bool) -> &'static str
    ensures { result.now ≡ end_line finished }
{
    if finished {
        "finished\n"
    } else {
        "unfinished\n"
    }
}
