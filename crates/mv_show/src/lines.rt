//! Lines that are gathered.

ghost use Rattle.std.specs.Prelude.{◌≡◌, ◌++◌, ◌∷◌, [], OnOk};
ghost use Rattle.serde_json.specs.Data.{object};
ghost use Rattle.serde_json.specs.Written.{compact_text};
ghost use Rattle.mv_engine.specs.Replies.{text_lines};
ghost use Rattle.mv_format.specs.Writing.{members_of};

use mv_lines::{Member, append_object};
use std::alloc::{AllocError, Global};
use std::marker::Model;

/// Lines that are gathered, seen as their text.
#[derive(Drop)]
pub(crate) struct Lines {
    /// What memory is got from.
    pub(crate) alloc: Global,
    /// Their text.
    text: Vec<u8>,
}

impl Model for Lines {
    ghost use Rattle.std.specs.Prelude.{ℕ, List};

    ghost Value = { List ℕ };

    ghost view = { λ lines. lines.text.items };
}

impl Lines {
    /// No lines yet.
    pub(crate) fn new(alloc: Global) -> Lines
        ensures { result ≡ [] }
    {
        Lines {
            alloc,
            text: Vec::new(alloc),
        }
    }

    /// Their text.
    pub(crate) fn as_slice(&self) -> &[u8]
        ensures { result.now ≡ self.now }
    {
        self.text.as_slice()
    }

    /// Adds the line that is the object of these members, which come in byte order of their keys.
    pub(crate) fn push(&mut self, members: &[Member<'_>]) -> Result<(), AllocError>
        ensures { OnOk result (self.new
            ≡ self.old ++ text_lines (compact_text (object (members_of members.now)) ∷ [])) }
    {
        append_object(self.alloc, &mut self.text, members)?;
        self.text.push(b'\n')?;
        Ok(())
    }
}
