//! The lines that tell of the links.

ghost use Rattle.std.specs.Prelude.{◌≡◌, ◌++◌, ◌∷◌, [], flat_map, length, IfOk, OnOk, IsTrue};
ghost use Rattle.std.specs.List.{range_with_len};
ghost use Rattle.mv_hub.specs.Hub.{are_parties};
ghost use Rattle.mv_machine.specs.State.{is_party, wire_of};
ghost use Rattle.mv_show.specs.Shown.{link_row, link_rows, lines_text};

use crate::lines::Lines;
use mv_lines::Member;
use mv_message::Party;
use mv_party::count_from;
use mv_system::World;
use std::alloc::{AllocError, Global};

/// Writes the lines of the links from a party behind those that stand ready.
#[tactic(auto, using(crate::proofs::GatheringLemmas::rows_more, std::proofs::Common::append_assoc))]
pub(crate) fn append_links(lines: &mut Lines, world: &World, from: Party) -> Result<(), AllocError>
    requires { IsTrue (is_party world.now from) }
    ensures { OnOk result (lines.new ≡ lines.old ++ lines_text (flat_map (link_rows world.now from)
        (range_with_len 0 (length world.now.hub.parties)))) }
{
    for to in 0..world.hub().parties().len() {
        append_link(lines, world, from, to)?;
    }
    Ok(())
}

/// Writes the line of a link, if it has one.
fn append_link(lines: &mut Lines, world: &World, from: Party, to: Party) -> Result<(), AllocError>
    requires { IsTrue (are_parties world.now.hub from to) }
    ensures { OnOk result (lines.new
        ≡ lines.old ++ lines_text (link_rows world.now from to)) }
{
    let hub = world.hub();
    if hub.total(from, to) == 0 && hub.is_open(from, to) {
        return Ok(());
    }
    append_shown_link(lines, world, from, to)
}

/// Writes how far a link is.
fn append_shown_link(
    lines: &mut Lines,
    world: &World,
    from: Party,
    to: Party,
) -> Result<(), AllocError>
    requires { IsTrue (are_parties world.now.hub from to) }
    ensures { OnOk result (lines.new
        ≡ lines.old ++ lines_text (link_row world.now from to ∷ [])) }
{
    let hub = world.hub();
    let wire = wire_of(lines.alloc, world, from, to)?;
    lines.push(&[
        Member::Number("applied", count_from(world.log(to), from) as u64),
        Member::Flag("closed", !hub.is_open(from, to)),
        Member::Number("from", from as u64),
        Member::Number("put", hub.total(from, to) as u64),
        Member::Number("relayed", hub.relayed(from, to) as u64),
        Member::Text("show", "link"),
        Member::Number("to", to as u64),
        Member::Numbers("wire", wire.as_slice()),
    ])
}

/// The numbers of the frames under way on a link, the front first.
fn wire_of(alloc: Global, world: &World, from: Party, to: Party) -> Result<Vec<u32>, AllocError>
    requires { IsTrue (are_parties world.now.hub from to) }
    ensures { IfOk result (λ numbers. numbers.items ≡ wire_of world.now from to) }
{
    let mut numbers = Vec::new(alloc);
    while let Some(number) = world.frame_number(from, to, numbers.len()) {
        numbers.push(number)?;
    }
    Ok(numbers)
}
