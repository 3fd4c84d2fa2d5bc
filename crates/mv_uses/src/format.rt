//! A line is refused by its first fault.

ghost use Rattle.std.specs.Prelude.{◌≡◌, IfOk, option_map, string_bytes};
ghost use Rattle.std.specs.Result.{result_err};
ghost use Rattle.serde_json.specs.Written.{compact_text};
ghost use Rattle.mv_format.specs.ReplyLines.{line_fault_value};
ghost use Rattle.mv_format.specs.Requests.{read_line};

use mv_format::{LineFault, Request, fault_text};
use std::alloc::{AllocError, Global};

/// The refusal of a line that asks nothing: the canonical text that tells its first fault. None of a line that asks a step or an opening.
pub fn refusal_of(alloc: Global, line: &[u8]) -> Result<Option<String>, AllocError>
    ensures { IfOk result (λ text. option_map string_bytes text
        ≡ option_map (λ fault. compact_text (line_fault_value fault)) (result_err (read_line line.now))) }
{
    match Request::read(alloc, line) {
        Ok(_) => Ok(None),
        Err(LineFault::Memory) => Err(AllocError),
        Err(fault) => Ok(Some(fault_text(alloc, &fault)?)),
    }
}
