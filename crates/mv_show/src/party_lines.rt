//! The lines that tell of a party and of what its repository holds.

ghost use Rattle.std.specs.Prelude.{◌≡◌, ◌++◌, ◌∷◌, [], Some, option_map, option_to_list, OnOk, IsTrue};
ghost use Rattle.std.specs.Option.{option_map_or};
ghost use Rattle.mv_pack.specs.Expiry.{expiry_text};
ghost use Rattle.mv_machine.specs.State.{is_party};
ghost use Rattle.mv_repository.specs.Pack.{pack_state};
ghost use Rattle.mv_repository.specs.Repository.{product_of};
ghost use Rattle.mv_repository.specs.Bearing.{entry_at};
ghost use Rattle.mv_show.specs.Shown.{subject_rows, party_row, product_row, recall_row, pack_row, lines_text, user_in};

use crate::lines::Lines;
use crate::subject::Subject;
use arrayvec::ArrayString;
use mv_lines::Member;
use mv_link::Item;
use mv_message::{Boxed, Message, Party};
use mv_pack::{BatchKey, Gtin, PackKey};
use mv_repository::{Change, Held, LogEntry, Repository};
use mv_system::World;
use std::alloc::AllocError;

/// Writes the line that tells of a subject of a party behind those that stand ready.
pub(crate) fn append_subject(
    lines: &mut Lines,
    world: &World,
    party: Party,
    subject: &Subject,
) -> Result<(), AllocError>
    requires { IsTrue (is_party world.now party) }
    ensures { OnOk result (lines.new
        ≡ lines.old ++ lines_text (subject_rows world.now party subject.now)) }
{
    match subject {
        Subject::Party => append_party(lines, world, party),
        Subject::Product(gtin) => append_product(lines, world.repository(party), gtin),
        Subject::Recall(key) => append_recall(lines, party, key),
        Subject::Pack(key) => append_pack(lines, world.repository(party), key),
    }
}

/// Writes how much a party has.
fn append_party(lines: &mut Lines, world: &World, party: Party) -> Result<(), AllocError>
    requires { IsTrue (is_party world.now party) }
    ensures { OnOk result (lines.new
        ≡ lines.old ++ lines_text (party_row world.now party ∷ [])) }
{
    let counts = world.repository(party).counts();
    let routed = world.hub().routed_count(party);
    let submitted = world.sub(party).len();
    lines.push(&[
        Member::Number("active", counts.active as u64),
        Member::Number("applied", counts.entries as u64),
        Member::Number("packs", counts.packs as u64),
        Member::Number("party", party as u64),
        Member::Number("products", counts.products as u64),
        Member::Number("recalled", counts.recalled as u64),
        Member::Number("routed", routed as u64),
        Member::Text("show", "party"),
        Member::Number("submitted", submitted as u64),
    ])
}

/// Writes what a repository knows of a product.
fn append_product(lines: &mut Lines, repository: &Repository, gtin: &Gtin) -> Result<(), AllocError>
    ensures { OnOk result (lines.new ≡ lines.old
        ++ lines_text (product_row repository.now.party repository.now.log gtin.now ∷ [])) }
{
    match repository.product(gtin) {
        Some(product) => {
            let master = Message::Master {
                gtin: *gtin,
                product: Boxed::new(lines.alloc, product.copy(lines.alloc)?)?,
            };
            append_master(lines, repository, gtin, &master)
        }
        None => lines.push(&[
            Member::Text("gtin", gtin.as_str()),
            Member::Number("party", repository.party() as u64),
            Member::Null("product"),
            Member::Text("show", "product"),
            Member::Flag("withdrawn", repository.withdrawn(gtin)),
        ]),
    }
}

/// Writes what a repository knows of a product that has this master.
fn append_master<'a>(
    lines: &mut Lines,
    repository: &'a Repository,
    gtin: &'a Gtin,
    master: &'a Message,
) -> Result<(), AllocError>
    requires { Some master.now
        ≡ option_map (Message.Master gtin.now) (product_of repository.now.log gtin.now) }
    ensures { OnOk result (lines.new ≡ lines.old
        ++ lines_text (product_row repository.now.party repository.now.log gtin.now ∷ [])) }
{
    lines.push(&[
        Member::Text("gtin", gtin.as_str()),
        Member::Number("party", repository.party() as u64),
        Member::Message("product", master),
        Member::Text("show", "product"),
        Member::Flag("withdrawn", repository.withdrawn(gtin)),
    ])
}

/// Writes that a batch is recalled.
fn append_recall(lines: &mut Lines, party: Party, key: &BatchKey) -> Result<(), AllocError>
    ensures { OnOk result (lines.new
        ≡ lines.old ++ lines_text (recall_row party key.now ∷ [])) }
{
    lines.push(&[
        Member::Text("batch", key.batch.as_str()),
        Member::Text("gtin", key.gtin.as_str()),
        Member::Number("party", party as u64),
        Member::Text("show", "recall"),
    ])
}

/// Writes what a pack is, where the repository holds it.
fn append_pack(lines: &mut Lines, repository: &Repository, key: &PackKey) -> Result<(), AllocError>
    ensures { OnOk result (lines.new ≡ lines.old ++ lines_text (option_to_list (option_map
        (pack_row repository.now.party repository.now.log key.now)
        (pack_state key.now repository.now.log)))) }
{
    match repository.pack(key) {
        Some(held) => {
            let expiry = held.expiry.text();
            append_held(lines, repository, key, &held, &expiry)
        }
        None => Ok(()),
    }
}

/// Writes what a pack is that the repository holds so, and when it expires.
fn append_held<'a>(
    lines: &mut Lines,
    repository: &'a Repository,
    key: &'a PackKey,
    held: &'a Held,
    expiry: &'a ArrayString<6>,
) -> Result<(), AllocError>
    requires { expiry.now.bytes ≡ expiry_text held.now.expiry }
    ensures { OnOk result (lines.new ≡ lines.old ++ lines_text
        (pack_row repository.now.party repository.now.log key.now held.now ∷ [])) }
{
    let batch = BatchKey {
        gtin: key.gtin,
        batch: held.batch.copy(),
    };
    let user = user_of(repository.log(), &held.change);
    lines.push(&[
        Member::Text("batch", held.batch.as_str()),
        Member::Change("change", &held.change, user),
        Member::Text("expiry", expiry.as_str()),
        Member::Text("gtin", key.gtin.as_str()),
        Member::National("national", &held.national),
        Member::Number("party", repository.party() as u64),
        Member::Flag("recalled", repository.recalled(&batch)),
        Member::Text("serial", key.serial.as_str()),
        Member::Text("show", "pack"),
        Member::Text("standing", held.standing.name()),
        Member::Flag("withdrawn", repository.withdrawn(&key.gtin)),
    ])
}

/// The user who asked for a change.
fn user_of<'a>(log: &'a [LogEntry], change: &Option<Change>) -> &'a str
    ensures { result.now ≡ option_map_or (λ change. user_in (entry_at log.now change.entry).entry.item) change.now [] }
{
    let Some(change) = change else {
        return "";
    };
    match log.get(change.entry) {
        Some(entry) => user_in(&entry.item),
        None => "",
    }
}

/// The user of a status that an item carries.
fn user_in(item: &Item) -> &str
    ensures { result.now ≡ user_in item.now }
{
    let Item::Carried { message, .. } = item else {
        return "";
    };
    match message.get() {
        Message::Status { user, .. } => user.as_str(),
        _ => "",
    }
}
