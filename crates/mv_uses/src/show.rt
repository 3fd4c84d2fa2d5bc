//! What stands is shown whole.

ghost use Rattle.std.specs.Prelude.{◌≡◌, [], is_some, None, IfOk};
ghost use Rattle.mv_engine.specs.Lines.{pieces};
ghost use Rattle.mv_engine.specs.Served.{AreAnswered};
ghost use Rattle.mv_lines.specs.Sessions.{Open};
ghost use Rattle.mv_show.specs.Showing.{IsPassed};
ghost use Rattle.mv_show.specs.Shown.{lines_text, shown_rows};

use mv_lines::ServeFault;
use mv_show::show;
use std::alloc::Global;

/// What stands when lines end, and whether a system is open.
pub fn shown_after(alloc: Global, lines: &[u8]) -> Result<(bool, Vec<u8>), ServeFault>
    ensures { IfOk result (λ shown. (after : Open) × AreAnswered IsPassed 0 None (pieces lines.now) after []
        × (shown.0 ≡ is_some after) × (shown.1.items ≡ lines_text (shown_rows after))) }
{
    let mut reader = lines;
    let mut text = Vec::new(alloc);
    let is_open = show(alloc, &mut reader, &mut text)?;
    Ok((is_open, text))
}
