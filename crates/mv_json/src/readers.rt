//! Reads the fields of each form of message, in byte order of their names.
#![tactic(auto, unfolding(crate::specs::Shapes::message_at))]

ghost use Rattle.std.specs.Prelude.{◌≡◌, ◌≢◌, IfErr, IsTrue};
ghost use Rattle.mv_json.specs.Messages.{holds_texts};
ghost use Rattle.mv_json.specs.inside.Parts.{Gives, MayGive, IsValue};
ghost use Rattle.mv_json.specs.Shapes.{message_at};
ghost use Rattle.mv_json.specs.declared.form.Version.{Version as AVersion};

use crate::form::{Form, Version};
use crate::found_reading::found_at;
use crate::lists::{markets_at, serials_at};
use crate::object::Object;
use crate::reading::{
    batch_at, expiry_at, free_text_at, gtin_at, moment_at, national_at, number_at, serial_at,
    standing_at,
};
use crate::{Field, MessageFault};
use mv_message::{Boxed, Message, Product};
use mv_pack::{BatchKey, PackKey};
use std::alloc::Global;

/// The message of a form that the fields of an object give.
#[inline(always)]
#[tactic(auto)]
pub(crate) fn message_at(
    alloc: Global,
    object: &mut Object<'_>,
    version: Version,
    form: Form,
) -> Result<Message, MessageFault>
    ensures gives { MayGive (message_at version form) object.old result }
    // Of a value memory is asked for only where the messages of the form hold texts or lists, to keep them.
    ensures memory { IsValue object.old → IfErr result (λ fault. fault ≡ MessageFault.Memory
        → IsTrue (holds_texts form)) }
{
    match form {
        Form::Answer => answer_at(object, version),
        Form::Master => master_at(alloc, object),
        Form::Query => query_at(object, version),
        Form::Recall => recall_at(object, version),
        Form::Repack => repack_at(alloc, object),
        Form::Status => status_at(alloc, object),
        Form::Upload => upload_at(alloc, object, version),
        Form::Withdraw => withdraw_at(object, version),
    }
}

/// The product master that the fields give.
fn master_at(alloc: Global, object: &mut Object<'_>) -> Result<Message, MessageFault>
    ensures { (version : AVersion) → MayGive (message_at version Form.Master) object.old result }
{
    let common = free_text_at(alloc, object, Field::Common)?;
    let form = free_text_at(alloc, object, Field::Form)?;
    let gtin = gtin_at(object, Field::Gtin)?;
    let product = Product {
        common,
        form,
        markets: markets_at(alloc, object, Field::Markets)?,
        name: free_text_at(alloc, object, Field::Name)?,
        pack_size: free_text_at(alloc, object, Field::PackSize)?,
        pack_type: free_text_at(alloc, object, Field::PackType)?,
        scheme: free_text_at(alloc, object, Field::Scheme)?,
        strength: free_text_at(alloc, object, Field::Strength)?,
    };
    Ok(Message::Master {
        gtin,
        product: Boxed::new(alloc, product)?,
    })
}

/// The upload that the fields give.
fn upload_at(
    alloc: Global,
    object: &mut Object<'_>,
    version: Version,
) -> Result<Message, MessageFault>
    ensures { MayGive (message_at version Form.Upload) object.old result }
{
    Ok(Message::Upload {
        batch: batch_at(object, Field::Batch)?,
        expiry: expiry_at(object, Field::Expiry)?,
        gtin: gtin_at(object, Field::Gtin)?,
        national: national_at(object, version)?,
        serials: serials_at(alloc, object, Field::Serials)?,
    })
}

/// The change of standing that the fields give.
fn status_at(alloc: Global, object: &Object<'_>) -> Result<Message, MessageFault>
    ensures { (version : AVersion) → MayGive (message_at version Form.Status) object.now result }
{
    Ok(Message::Status {
        at: moment_at(object, Field::At)?,
        key: PackKey {
            gtin: gtin_at(object, Field::Gtin)?,
            serial: serial_at(object, Field::Serial)?,
        },
        to: standing_at(object, Field::To)?,
        user: free_text_at(alloc, object, Field::User)?,
    })
}

/// The recall that the fields give.
fn recall_at(object: &Object<'_>, version: Version) -> Result<Message, MessageFault>
    ensures { Gives (message_at version Form.Recall) object.now result }
{
    let at = moment_at(object, Field::At)?;
    let batch = batch_at(object, Field::Batch)?;
    let gtin = gtin_at(object, Field::Gtin)?;
    Ok(Message::Recall {
        key: BatchKey { gtin, batch },
        at,
    })
}

/// The repackaging that the fields give.
fn repack_at(alloc: Global, object: &mut Object<'_>) -> Result<Message, MessageFault>
    ensures { (version : AVersion) → MayGive (message_at version Form.Repack) object.old result }
{
    let after = BatchKey {
        batch: batch_at(object, Field::AfterBatch)?,
        gtin: gtin_at(object, Field::AfterGtin)?,
    };
    let after_serials = serials_at(alloc, object, Field::AfterSerials)?;
    let at = moment_at(object, Field::At)?;
    let before = BatchKey {
        batch: batch_at(object, Field::BeforeBatch)?,
        gtin: gtin_at(object, Field::BeforeGtin)?,
    };
    let before_serials = serials_at(alloc, object, Field::BeforeSerials)?;
    Ok(Message::Repack {
        before: Boxed::new(alloc, before)?,
        before_serials,
        after: Boxed::new(alloc, after)?,
        after_serials,
        at,
    })
}

/// The withdrawal that the fields give.
fn withdraw_at(object: &Object<'_>, version: Version) -> Result<Message, MessageFault>
    ensures { Gives (message_at version Form.Withdraw) object.now result }
{
    Ok(Message::Withdraw {
        at: moment_at(object, Field::At)?,
        gtin: gtin_at(object, Field::Gtin)?,
    })
}

/// The query that the fields give.
fn query_at(object: &Object<'_>, version: Version) -> Result<Message, MessageFault>
    ensures { Gives (message_at version Form.Query) object.now result }
{
    let gtin = gtin_at(object, Field::Gtin)?;
    let serial = serial_at(object, Field::Serial)?;
    Ok(Message::Query {
        key: PackKey { gtin, serial },
    })
}

/// The answer that the fields give.
fn answer_at(object: &Object<'_>, version: Version) -> Result<Message, MessageFault>
    ensures gives { MayGive (message_at version Form.Answer) object.now result }
    // Of a value it takes no memory.
    ensures no_memory { IsValue object.now → IfErr result (λ fault. fault ≢ MessageFault.Memory) }
{
    let asker = number_at(object, Field::Asker, 0)?;
    let found = found_at(object, version)?;
    let gtin = gtin_at(object, Field::Gtin)?;
    let q = number_at(object, Field::Q, 1)?;
    let serial = serial_at(object, Field::Serial)?;
    Ok(Message::Answer {
        asker,
        q,
        key: PackKey { gtin, serial },
        found,
    })
}
