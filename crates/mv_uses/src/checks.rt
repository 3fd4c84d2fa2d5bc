//! Messages are written only where all of them are taken.

ghost use Rattle.std.specs.Prelude.{◌≡◌, IfOk, if◌then◌else◌};
ghost use Rattle.mv_lines.specs.Canon.{canon_of};
ghost use Rattle.mv_lines.specs.Checks.{are_messages, refusals_of};

use mv_lines::{ServeFault, canon, check};
use std::alloc::Global;

/// The canonical texts of the messages that lines are, where each line is one; else the refusals of those that are none, each with the
/// number of its line. And which of the two it is.
pub fn texts_or_refusals(alloc: Global, lines: &[u8]) -> Result<(bool, Vec<u8>), ServeFault>
    ensures messages { IfOk result (λ answer. answer.0 ≡ are_messages lines.now) }
    ensures written { IfOk result (λ answer. answer.1.items ≡ (if answer.0 then canon_of lines.now else refusals_of lines.now)) }
{
    let mut refusals = Vec::new(alloc);
    let mut reader = lines;
    if !check(alloc, &mut reader, &mut refusals)? {
        return Ok((false, refusals));
    }
    let mut texts = Vec::new(alloc);
    let mut reader = lines;
    canon(alloc, &mut reader, &mut texts)?;
    Ok((true, texts))
}
