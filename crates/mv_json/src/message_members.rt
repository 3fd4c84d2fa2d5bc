//! Writes each message as the object of its members.

ghost use Rattle.std.specs.Prelude.{◌≡◌};
ghost use Rattle.mv_json.specs.Shapes.{found_version, found_value};
ghost use Rattle.mv_json.specs.Messages.{value_of};
ghost use Rattle.mv_json.specs.Tokens.{Puts};
ghost use Rattle.mv_json.specs.inside.Tokens.{PutsValue, members_put, version_member};

use crate::form::Version;
use crate::member::{Said, put_members, put_object, put_said};
use crate::{Field, TextWriter};
use mv_message::{Found, Message, Party};
use mv_pack::PackKey;
use std::alloc::AllocError;

/// Writes a message.
pub(crate) fn put_message(writer: &mut TextWriter, message: &Message) -> Result<(), AllocError>
    ensures { PutsValue result writer.old writer.new (value_of message.now) }
{
    match message {
        Message::Master { gtin, product } => {
            let product = product.get();
            let members = [
                (Field::Common, Said::Text(product.common.as_str())),
                (Field::Form, Said::Text(product.form.as_str())),
                (Field::Gtin, Said::Text(gtin.as_str())),
                (Field::Markets, Said::Markets(product.markets.as_slice())),
                (Field::Msg, Said::Text("master")),
                (Field::Name, Said::Text(product.name.as_str())),
                (Field::PackSize, Said::Text(product.pack_size.as_str())),
                (Field::PackType, Said::Text(product.pack_type.as_str())),
                (Field::Scheme, Said::Text(product.scheme.as_str())),
                (Field::Strength, Said::Text(product.strength.as_str())),
            ];
            put_object(writer, &members)
        }
        Message::Upload {
            gtin,
            batch,
            expiry,
            national,
            serials,
        } => {
            // It is of version 2 where it has a national number.
            let Some(number) = national else {
                let members = [
                    (Field::Batch, Said::Text(batch.as_str())),
                    (Field::Expiry, Said::Expiry(expiry)),
                    (Field::Gtin, Said::Text(gtin.as_str())),
                    (Field::Msg, Said::Text("upload")),
                    (Field::Serials, Said::Serials(serials.as_slice())),
                ];
                return put_object(writer, &members);
            };
            let members = [
                (Field::Batch, Said::Text(batch.as_str())),
                (Field::Expiry, Said::Expiry(expiry)),
                (Field::Gtin, Said::Text(gtin.as_str())),
                (Field::Msg, Said::Text("upload")),
                (Field::National, Said::Text(number.as_str())),
                (Field::Serials, Said::Serials(serials.as_slice())),
                (Field::V, Said::Whole(2)),
            ];
            put_object(writer, &members)
        }
        Message::Status { key, to, user, at } => {
            let members = [
                (Field::At, Said::Whole(at.seconds())),
                (Field::Gtin, Said::Text(key.gtin.as_str())),
                (Field::Msg, Said::Text("status")),
                (Field::Serial, Said::Text(key.serial.as_str())),
                (Field::To, Said::Text(to.name())),
                (Field::User, Said::Text(user.as_str())),
            ];
            put_object(writer, &members)
        }
        Message::Recall { key, at } => {
            let members = [
                (Field::At, Said::Whole(at.seconds())),
                (Field::Batch, Said::Text(key.batch.as_str())),
                (Field::Gtin, Said::Text(key.gtin.as_str())),
                (Field::Msg, Said::Text("recall")),
            ];
            put_object(writer, &members)
        }
        Message::Repack {
            before,
            before_serials,
            after,
            after_serials,
            at,
        } => {
            let (before, after) = (before.get(), after.get());
            let members = [
                (Field::AfterBatch, Said::Text(after.batch.as_str())),
                (Field::AfterGtin, Said::Text(after.gtin.as_str())),
                (Field::AfterSerials, Said::Serials(after_serials.as_slice())),
                (Field::At, Said::Whole(at.seconds())),
                (Field::BeforeBatch, Said::Text(before.batch.as_str())),
                (Field::BeforeGtin, Said::Text(before.gtin.as_str())),
                (
                    Field::BeforeSerials,
                    Said::Serials(before_serials.as_slice()),
                ),
                (Field::Msg, Said::Text("repack")),
            ];
            put_object(writer, &members)
        }
        Message::Withdraw { gtin, at } => {
            let members = [
                (Field::At, Said::Whole(at.seconds())),
                (Field::Gtin, Said::Text(gtin.as_str())),
                (Field::Msg, Said::Text("withdraw")),
                (Field::V, Said::Whole(2)),
            ];
            put_object(writer, &members)
        }
        Message::Query { key } => {
            let members = [
                (Field::Gtin, Said::Text(key.gtin.as_str())),
                (Field::Msg, Said::Text("query")),
                (Field::Serial, Said::Text(key.serial.as_str())),
            ];
            put_object(writer, &members)
        }
        Message::Answer {
            asker,
            q,
            key,
            found,
        } => put_answer(writer, *asker, *q, key, found),
    }
}

/// Writes an answer: of the version that says all of what was found.
#[tactic(auto, unfolding(crate::specs::inside::Tokens::PutsValue))]
fn put_answer(
    writer: &mut TextWriter,
    asker: Party,
    q: u32,
    key: &PackKey,
    found: &Found,
) -> Result<(), AllocError>
    ensures { PutsValue result writer.old writer.new (value_of (Message.Answer asker q key.now found.now)) }
{
    let version = found_version(found);
    writer.begin_object()?;
    writer.key(Field::Asker.as_str())?;
    writer.u64(asker as u64)?;
    writer.key(Field::Found.as_str())?;
    put_found(writer, version, found)?;
    let rest = [
        (Field::Gtin, Said::Text(key.gtin.as_str())),
        (Field::Msg, Said::Text("answer")),
        (Field::Q, Said::Whole(q as u64)),
        (Field::Serial, Said::Text(key.serial.as_str())),
    ];
    put_members(writer, &rest)?;
    put_version(writer, version)?;
    writer.end_object()
}

/// Writes the member that says the version, which the first does not have.
fn put_version(writer: &mut TextWriter, version: Version) -> Result<(), AllocError>
    ensures { Puts result writer.old writer.new (members_put (version_member version)) }
{
    match version {
        Version::One => Ok(()),
        Version::Two => put_members(writer, &[(Field::V, Said::Whole(2))]),
    }
}

/// Writes what was found in a version.
fn put_found(writer: &mut TextWriter, version: Version, found: &Found) -> Result<(), AllocError>
    ensures { PutsValue result writer.old writer.new (found_value version found.now) }
{
    let Found::Present {
        batch,
        expiry,
        national,
        standing,
        recalled,
        withdrawn,
    } = found
    else {
        return put_said(writer, Said::Null);
    };
    if version == Version::One {
        let members = [
            (Field::Batch, Said::Text(batch.as_str())),
            (Field::Expiry, Said::Expiry(expiry)),
            (Field::Recalled, Said::Truth(*recalled)),
            (Field::Standing, Said::Text(standing.name())),
        ];
        return put_object(writer, &members);
    }
    let members = [
        (Field::Batch, Said::Text(batch.as_str())),
        (Field::Expiry, Said::Expiry(expiry)),
        (Field::National, Said::National(national)),
        (Field::Recalled, Said::Truth(*recalled)),
        (Field::Standing, Said::Text(standing.name())),
        (Field::Withdrawn, Said::Truth(*withdrawn)),
    ];
    put_object(writer, &members)
}

/// The version that says all of what was found.
fn found_version(found: &Found) -> Version
    ensures { result ≡ found_version found.now }
{
    match found {
        Found::Present {
            national,
            withdrawn,
            ..
        } if national.is_some() || *withdrawn => Version::Two,
        _ => Version::One,
    }
}
