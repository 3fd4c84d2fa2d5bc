//! Gathers the lines of what stands.

ghost use Rattle.std.specs.Prelude.{◌≡◌, ◌++◌, IfOk, OnOk, IsTrue, Some};
ghost use Rattle.std.specs.Option.{option_copied};
ghost use Rattle.mv_machine.specs.State.{is_party};
ghost use Rattle.mv_show.specs.Shown.{party_rows, shown_rows, lines_text};

use crate::lines::Lines;
use crate::link_lines::append_links;
use crate::naming::subjects_of;
use crate::party_lines::append_subject;
use mv_lines::{Member, OpenFault};
use mv_message::Party;
use mv_system::World;
use std::alloc::{AllocError, Global};

/// The lines that show a system; where none is open, that of C1.
pub(crate) fn shown_lines(alloc: Global, world: Option<&World>) -> Result<Lines, AllocError>
    ensures { IfOk result (λ lines. lines ≡ lines_text (shown_rows (option_copied world.entry))) }
{
    let mut lines = Lines::new(alloc);
    match world {
        Some(world) => append_world(&mut lines, world)?,
        None => lines.push(&[Member::Text("refused", OpenFault::NotOpen.code())])?,
    }
    Ok(lines)
}

/// Adds the lines of a system: those of each party, and then those of each link.
#[tactic(auto, using(crate::proofs::GatheringLemmas::texts_more, crate::proofs::GatheringLemmas::rows_more, std::proofs::Common::append_assoc))]
fn append_world(lines: &mut Lines, world: &World) -> Result<(), AllocError>
    ensures { OnOk result (lines.new ≡ lines.old ++ lines_text (shown_rows (Some world.now))) }
{
    let count = world.hub().parties().len();
    for party in 0..count {
        append_party(lines, world, party)?;
    }
    for from in 0..count {
        append_links(lines, world, from)?;
    }
    Ok(())
}

/// Adds the lines of a party.
#[tactic(auto, using(crate::proofs::GatheringLemmas::text_of_rows, std::proofs::Common::take_all))]
fn append_party(lines: &mut Lines, world: &World, party: Party) -> Result<(), AllocError>
    requires { IsTrue (is_party world.now party) }
    ensures { OnOk result (lines.new ≡ lines.old ++ lines_text (party_rows world.now party)) }
{
    let subjects = subjects_of(lines.alloc, world.log(party))?;
    for subject in subjects.as_slice() {
        append_subject(lines, world, party, subject)?;
    }
    Ok(())
}
