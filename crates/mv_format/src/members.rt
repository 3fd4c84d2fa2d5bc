//! Writes the objects that replies are, member by member.

ghost use Rattle.mv_json.specs.Tokens.{Puts};
ghost use Rattle.mv_format.specs.Words.{object};
ghost use Rattle.mv_format.specs.Writing.{Adds, Appended, change_value, national_value, members_of};
ghost use Rattle.mv_format.specs.inside.Writing.{member_tokens};

use crate::to_json::write_list;
use crate::{ToJson, append_json};
use mv_json::TextWriter;
use mv_link::Reached;
use mv_message::{Markets, Message};
use mv_pack::National;
use mv_repository::Change;
use std::alloc::{AllocError, Global};

/// A member of an object: its key and its value.
#[derive(Clone, Copy, Drop)]
pub enum Member<'a> {
    /// A whole number.
    Number(&'static str, u64),
    /// A text.
    Text(&'static str, &'a str),
    /// True or false.
    Flag(&'static str, bool),
    /// A whole number, where there is one; else no member.
    NumberOrNone(&'static str, Option<u64>),
    /// True or false, where it is one of them; else no member.
    FlagOrNone(&'static str, Option<bool>),
    /// `null`.
    Null(&'static str),
    /// The parties that a message reached, as a list.
    Parties(&'static str, &'a Reached),
    /// A list of whole numbers.
    Numbers(&'static str, &'a [u32]),
    /// The markets of each party, a list of texts each.
    Markets(&'static str, &'a [Markets]),
    /// A message, as `canon` writes it.
    Message(&'static str, &'a Message),
    /// A national number, or `null`.
    National(&'static str, &'a Option<National>),
    /// What changed a pack, asked for by this user, or `null`.
    Change(&'static str, &'a Option<Change>, &'a str),
}

/// An object of these members.
#[derive(Clone, Copy, Drop)]
pub(crate) struct Object<'a> {
    /// The members, in byte order of their keys.
    pub(crate) members: &'a [Member<'a>],
}

impl ToJson for Object<'_> {
    ghost value = { λ o. object (members_of o.members.now) };

    fn write(&self, writer: &mut TextWriter) -> Result<(), AllocError> {
        write_object(writer, self.members)
    }
}

/// Writes the object of these members, which come in byte order of their keys, behind what the buffer holds. Where memory is
/// refused the buffer is as it was.
pub fn append_object(
    alloc: Global,
    out: &mut Vec<u8>,
    members: &[Member<'_>],
) -> Result<(), AllocError>
    ensures { Appended result out.old.items out.new.items (object (members_of members.now)) }
{
    append_json(alloc, out, &Object { members })
}

/// Writes the object of these members, which come in byte order of their keys.
pub(crate) fn write_object(
    writer: &mut TextWriter,
    members: &[Member<'_>],
) -> Result<(), AllocError>
    ensures { Adds result writer.old writer.new (object (members_of members.now)) }
{
    writer.begin_object()?;
    for member in members {
        write_member(writer, *member)?;
    }
    writer.end_object()
}

/// Writes a member.
fn write_member(writer: &mut TextWriter, member: Member<'_>) -> Result<(), AllocError>
    ensures { Puts result writer.old writer.new (member_tokens member.entry) }
{
    match member {
        Member::NumberOrNone(_, None) | Member::FlagOrNone(_, None) => Ok(()),
        Member::Number(key, number) | Member::NumberOrNone(key, Some(number)) => {
            writer.key(key)?;
            writer.u64(number)
        }
        Member::Text(key, text) => {
            writer.key(key)?;
            writer.string(text)
        }
        Member::Flag(key, flag) | Member::FlagOrNone(key, Some(flag)) => {
            writer.key(key)?;
            writer.boolean(flag)
        }
        Member::Null(key) => {
            writer.key(key)?;
            writer.null()
        }
        Member::Parties(key, parties) => {
            writer.key(key)?;
            parties.write(writer)
        }
        Member::Numbers(key, numbers) => {
            writer.key(key)?;
            write_list(writer, numbers)
        }
        Member::Markets(key, lists) => {
            writer.key(key)?;
            write_list(writer, lists)
        }
        Member::Message(key, message) => {
            writer.key(key)?;
            mv_json::write_message(writer, message)
        }
        Member::National(key, national) => {
            writer.key(key)?;
            write_national(writer, national)
        }
        Member::Change(key, change, user) => {
            writer.key(key)?;
            write_change(writer, change, user)
        }
    }
}

/// Writes a national number, if there is one.
#[tactic(auto, unfolding(crate::specs::Writing::tokens_of))]
fn write_national(writer: &mut TextWriter, national: &Option<National>) -> Result<(), AllocError>
    ensures { Adds result writer.old writer.new (national_value national.now) }
{
    match national {
        Some(national) => writer.string(national.as_str()),
        None => writer.null(),
    }
}

/// Writes what changed a pack, if something did.
#[tactic(auto, unfolding(crate::specs::Writing::tokens_of))]
fn write_change(
    writer: &mut TextWriter,
    change: &Option<Change>,
    user: &str,
) -> Result<(), AllocError>
    ensures { Adds result writer.old writer.new (change_value change.now user.now) }
{
    let Some(change) = change else {
        return writer.null();
    };
    writer.begin_object()?;
    writer.key("at")?;
    writer.u64(change.at.seconds())?;
    writer.key("by")?;
    writer.u64(change.by as u64)?;
    writer.key("user")?;
    writer.string(user)?;
    writer.end_object()
}
