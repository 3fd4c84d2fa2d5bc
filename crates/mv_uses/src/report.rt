//! The reports of two runs are compared.

ghost use Rattle.std.specs.Prelude.{◌≡◌, ◌↔◌, IfOk, IsTrue};
ghost use Rattle.mv_ends.specs.Report.{report_text};

use mv_ends::{Outcome, report};
use std::alloc::{AllocError, Global};

/// Whether two runs came to the same report. An error where memory is refused.
pub fn have_same_report(alloc: Global, one: &Outcome, other: &Outcome) -> Result<bool, AllocError>
    ensures { IfOk result (λ same. IsTrue same ↔ (report_text one.now ≡ report_text other.now)) }
{
    let first = report(alloc, one)?;
    let second = report(alloc, other)?;
    Ok(first.as_str() == second.as_str())
}
