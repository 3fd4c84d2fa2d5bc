//! Takes lines, and writes nothing to them.

ghost use Rattle.std.specs.Prelude.{◌≡◌, None};
ghost use Rattle.std.specs.Option.{option_copied};

use mv_lines::{Answering, Session};
use mv_system::World;
use std::alloc::{AllocError, Global};
use std::marker::Model;
use std::mem::ManuallyDrop;

/// What takes lines as `steps` does and answers none, seen as what is open.
#[derive(Drop)]
pub(crate) struct Passing {
    /// What takes them. What is open at the end is not taken apart.
    session: ManuallyDrop<Session>,
}

impl Model for Passing {
    ghost use Rattle.std.specs.Mem.{manually_drop_value};
    ghost use Rattle.mv_lines.specs.Sessions.{Open};

    ghost Value = { Open };

    ghost view = { λ p. manually_drop_value p.session };
}

impl Answering for Passing {
    ghost use Rattle.mv_show.specs.Showing.{IsPassed};

    ghost replies = { IsPassed };

    fn answer(
        &mut self,
        _number: u32,
        line: &[u8],
        _out: &mut Vec<u8>,
    ) -> Result<bool, AllocError> {
        self.session.take(line)?;
        Ok(false)
    }
}

impl Passing {
    /// Nothing is open.
    pub(crate) fn new(alloc: Global) -> Passing
        ensures { result ≡ None }
    {
        Passing {
            session: Session::last(alloc),
        }
    }

    /// The system that is open.
    pub(crate) fn world(&self) -> Option<&World>
        ensures { option_copied result ≡ self.now }
    {
        self.session.world()
    }
}
