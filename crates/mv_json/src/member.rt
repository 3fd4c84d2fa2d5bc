//! The members of objects, and how each is written.

ghost use Rattle.std.specs.Prelude.{map};
ghost use Rattle.serde_json.specs.Data.{array, object};
ghost use Rattle.mv_json.specs.Tokens.{Puts, tokens_of};
ghost use Rattle.mv_json.specs.inside.Tokens.{said_value, members_of, members_put, PutsValue};
ghost use Rattle.mv_json.specs.Values.{strings};

use crate::lists::Listed;
use crate::{Field, TextWriter};
use mv_pack::{Expiry, Market, National, Serial};
use std::alloc::AllocError;

/// What stands under the name of a field.
#[derive(Clone, Copy, Drop)]
pub(crate) enum Said<'a> {
    /// `null`.
    Null,
    /// A text.
    Text(&'a str),
    /// A whole number.
    Whole(u64),
    /// `true` or `false`.
    Truth(bool),
    /// A date.
    Expiry(&'a Expiry),
    /// A national number, or `null`.
    National(&'a Option<National>),
    /// A list of serial numbers.
    Serials(&'a [Serial]),
    /// A list of markets.
    Markets(&'a [Market]),
}

/// Writes the object of these members, which stand in byte order of their names.
#[tactic(auto, unfolding(crate::specs::inside::Tokens::PutsValue))]
pub(crate) fn put_object(
    writer: &mut TextWriter,
    members: &[(Field, Said<'_>)],
) -> Result<(), AllocError>
    ensures { PutsValue result writer.old writer.new (object (members_of members.now)) }
{
    writer.begin_object()?;
    put_members(writer, members)?;
    writer.end_object()
}

/// Writes these members of an object that was begun.
#[tactic(auto, using(crate::proofs::TokenLemmas::names_plain), unfolding(crate::specs::inside::Tokens::PutsValue))]
pub(crate) fn put_members(
    writer: &mut TextWriter,
    members: &[(Field, Said<'_>)],
) -> Result<(), AllocError>
    ensures { Puts result writer.old writer.new (members_put members.now) }
{
    for (field, said) in members {
        writer.plain_key(field.as_str())?;
        put_said(writer, *said)?;
    }
    Ok(())
}

/// Writes what stands under a name.
#[tactic(auto, unfolding(crate::specs::inside::Tokens::PutsValue))]
#[inline(always)]
pub(crate) fn put_said(writer: &mut TextWriter, said: Said<'_>) -> Result<(), AllocError>
    ensures { PutsValue result writer.old writer.new (said_value said.entry) }
{
    match said {
        Said::Null => writer.null(),
        Said::Text(text) => writer.string(text),
        Said::Whole(number) => writer.u64(number),
        Said::Truth(truth) => writer.boolean(truth),
        Said::Expiry(expiry) => writer.string(expiry.text().as_str()),
        Said::National(None) => writer.null(),
        Said::National(Some(number)) => writer.string(number.as_str()),
        Said::Serials(serials) => put_list(writer, serials),
        Said::Markets(markets) => put_list(writer, markets),
    }
}

/// Writes a list of texts.
fn put_list<T: Listed>(writer: &mut TextWriter, list: &[T]) -> Result<(), AllocError>
    ensures { Puts result writer.old writer.new (tokens_of (array (strings (map T.written list.now)))) }
{
    writer.begin_array()?;
    for value in list {
        writer.string(value.to_text())?;
    }
    writer.end_array()
}
