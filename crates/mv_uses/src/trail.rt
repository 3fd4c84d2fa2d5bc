//! The trail of a run tells the record of the hub.

ghost use Rattle.std.specs.Prelude.{◌≡◌, ℕ, List, map, None, IfOk, IfSome};
ghost use Rattle.std.specs.List.{enumerate_from, filter_map};
ghost use Rattle.mv_engine.specs.Lines.{lines_from, pieces};
ghost use Rattle.mv_engine.specs.Replies.{text_lines};
ghost use Rattle.mv_lines.specs.Sessions.{Open};
ghost use Rattle.mv_show.specs.Events.{Event};
ghost use Rattle.mv_show.specs.TrailLaws.{AreTold, entry_told};
ghost use Rattle.mv_show.specs.Trail.{event_text};

use mv_lines::ServeFault;
use mv_show::{laws, trail};
use std::alloc::Global;

/// The trail of a run: the texts of the events of its lines, in order. Where a system is open at the end, the entries that these events
/// tell are the record of its hub, each once, in order, and with its stamp.
pub fn trail_of(alloc: Global, lines: &[u8]) -> Result<Vec<u8>, ServeFault>
    ensures { IfOk result (λ texts. (told : List (ℕ × Event)) × (after : Open)
        × (texts.items ≡ text_lines (map (λ it. event_text it.0 it.1) told))
        × AreTold None (lines_from 0 (pieces lines.now)) told after
        × IfSome after (λ st. filter_map (λ it. entry_told it.1) told ≡ enumerate_from 1 st.hub.entries)) }
{
    laws::events_are_written();
    laws::record_is_told();
    let mut reader = lines;
    let mut texts = Vec::new(alloc);
    trail(alloc, &mut reader, &mut texts)?;
    Ok(texts)
}
