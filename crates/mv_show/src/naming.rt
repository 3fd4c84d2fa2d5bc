//! Finds what the log of a repository names.

ghost use Rattle.std.specs.Prelude.{◌≡◌, ◌∷◌, [], map, IfOk, OnOk};
ghost use Rattle.mv_pack.specs.Keys.{pack_key};
ghost use Rattle.indexmap.specs.IndexSet.{insert_all};
ghost use Rattle.mv_show.specs.declared.subject.Subject.TheVariants.{Pack};
ghost use Rattle.mv_show.specs.Subjects.{is_same_subject, named_in, named_of, subjects_of};

use crate::subject::{Kind, Subject};
use indexmap::IndexSet;
use mv_link::Item;
use mv_message::{Message, Serials};
use mv_pack::{Gtin, PackKey};
use mv_repository::LogEntry;
use std::alloc::{AllocError, Global};

/// What the lines of a party with this log tell of, in their order. Refused for want of memory.
pub(crate) fn subjects_of(alloc: Global, log: &[LogEntry]) -> Result<IndexSet<Subject>, AllocError>
    ensures { IfOk result (λ subjects. subjects.keys ≡ subjects_of log.now) }
{
    let mut subjects = IndexSet::new(alloc);
    note(&mut subjects, Subject::Party)?;
    note_named(&mut subjects, log, Kind::Products)?;
    note_named(&mut subjects, log, Kind::Recalls)?;
    note_named(&mut subjects, log, Kind::Packs)?;
    Ok(subjects)
}

/// Notes what the entries of a log name, each that was not noted before.
fn note_named(
    subjects: &mut IndexSet<Subject>,
    log: &[LogEntry],
    kind: Kind,
) -> Result<(), AllocError>
    ensures { OnOk result (subjects.new.keys
        ≡ insert_all is_same_subject subjects.old.keys (named_of kind log.now)) }
{
    for entry in log {
        note_item(subjects, &entry.item, kind)?;
    }
    Ok(())
}

/// Notes what an item names.
fn note_item(subjects: &mut IndexSet<Subject>, item: &Item, kind: Kind) -> Result<(), AllocError>
    ensures { OnOk result (subjects.new.keys
        ≡ insert_all is_same_subject subjects.old.keys (named_in kind item.now)) }
{
    let Item::Carried { message, .. } = item else {
        return Ok(());
    };
    match (kind, message.get()) {
        (Kind::Products, Message::Master { gtin, .. }) => note(subjects, Subject::Product(*gtin)),
        (Kind::Products, Message::Withdraw { gtin, .. }) => note(subjects, Subject::Product(*gtin)),
        (Kind::Recalls, Message::Recall { key, .. }) => note(subjects, Subject::Recall(key.copy())),
        (Kind::Packs, Message::Upload { gtin, serials, .. }) => note_packs(subjects, gtin, serials),
        _ => Ok(()),
    }
}

/// Notes the packs of a product with these serial numbers.
fn note_packs(
    subjects: &mut IndexSet<Subject>,
    gtin: &Gtin,
    serials: &Serials,
) -> Result<(), AllocError>
    ensures { OnOk result (subjects.new.keys ≡ insert_all is_same_subject subjects.old.keys
        (map (λ serial. Pack (pack_key gtin.now serial)) serials.now)) }
{
    for serial in serials.as_slice() {
        let key = PackKey {
            gtin: *gtin,
            serial: serial.copy(),
        };
        note(subjects, Subject::Pack(key))?;
    }
    Ok(())
}

/// Notes a subject, unless it was noted before.
fn note(subjects: &mut IndexSet<Subject>, subject: Subject) -> Result<(), AllocError>
    ensures { OnOk result (subjects.new.keys
        ≡ insert_all is_same_subject subjects.old.keys (subject ∷ [])) }
{
    subjects.insert(subject)?;
    Ok(())
}
