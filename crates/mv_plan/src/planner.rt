//! Plans what the lines of an input ask.

ghost use Rattle.std.specs.Prelude.{◌≡◌, Ok, None};

use crate::draft::Draft;
use crate::planned::Planned;
use crate::planning::plan_line;
use json::Scratch;
use mv_engine::Answering;
use std::alloc::{AllocError, Global};
use std::marker::Model;

/// What the lines plan that were read. It replies nothing.
#[derive(Drop)]
pub(crate) struct Planner {
    /// Where what is planned gets its memory.
    alloc: Global,
    /// In which lines are read.
    scratch: Scratch,
    /// The plan, once a line has opened it.
    draft: Option<Draft>,
    /// The text of the first refusal, once a line was refused. Behind it nothing is planned any more.
    refusal: Option<String>,
}

impl Model for Planner {
    ghost use Rattle.std.specs.Prelude.{option_map, string_bytes};
    ghost use Rattle.mv_plan.specs.Planning.{Planned};
    ghost use Rattle.mv_plan.specs.inside.Planning.{planned_by};

    ghost Value = { Planned };

    ghost view = { λ p. planned_by (option_map string_bytes p.refusal) p.draft };
}

impl Answering for Planner {
    ghost use Rattle.mv_plan.specs.inside.Planning.{IsPlanned};

    ghost replies = { IsPlanned };

    fn answer(
        &mut self,
        _number: u32,
        line: &[u8],
        _out: &mut Vec<u8>,
    ) -> Result<bool, AllocError> {
        if self.refusal.is_some() {
            return Ok(false);
        }
        self.refusal = plan_line(self.alloc, &mut self.scratch, &mut self.draft, line)?;
        Ok(false)
    }
}

impl Planner {
    ghost use Rattle.mv_plan.specs.Planning.{planned_of};

    /// Nothing is planned.
    pub(crate) fn new(alloc: Global) -> Planner
        ensures { result ≡ Ok None }
    {
        Planner {
            alloc,
            scratch: Scratch::new(alloc),
            draft: None,
            refusal: None,
        }
    }

    /// What is planned.
    pub(crate) fn into_planned(self) -> Planned
        ensures { planned_of result ≡ self }
    {
        match (self.refusal, self.draft) {
            (Some(text), _) => Planned::Refused(text),
            (None, Some(draft)) => Planned::Plan(draft),
            (None, None) => Planned::Nothing,
        }
    }
}
