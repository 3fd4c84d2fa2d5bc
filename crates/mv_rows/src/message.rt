//! Messages: that copies equal what was copied, and that values are read back. Which lines are read, why others are not, and
//! what is written is shown by the examples of `mvhub canon`.

use json::Scratch;
use mv_json::MessageFault;
use mv_message::{Found, Markets, Message, Serials, Shared, Standing, Text, laws};
use mv_pack::{Batch, BatchKey, Expiry, Gtin, Market, Moment, PackKey, Serial};
use mv_tokens::Reader;
use std::alloc::Global;

const STATUS: &str =
    "{\"at\":1800000000,\"gtin\":\"09506000134352\",\"msg\":\"status\",\"serial\":\"S1\",\"to\":\"free_sample\",\"user\":\"u1\"}";

/// An upload of version 1 with its keys in order, and the day 00 as the last of its month.
const PLAIN_UPLOAD: &str =
    "{\"batch\":\"B1\",\"expiry\":\"280200\",\"gtin\":\"9506000134352\",\"msg\":\"upload\",\"serials\":[\"S1\",\"S2\"]}";

/// Messages with their keys in any order, with blanks and escapes, and below each the same in byte order of the keys.
const IN_ANY_ORDER: &str =
    r#"{ "msg": "status", "gtin": "09506000134352", "serial": "S1", "user": "u1", "to": "free_sample", "at": 1800000000 }
{"at":1800000000,"gtin":"09506000134352","msg":"status","serial":"S1","to":"free_sample","user":"u1"}
{"v":2,"m\u0073g":"upload","serials":["S1","\u00532"],"national":"123456","gtin":"9506000134352","batch":"B1","expiry":"280200"}
{"batch":"B1","expiry":"280200","gtin":"9506000134352","msg":"upload","national":"123456","serials":["S1","S2"],"v":2}
{"msg":"answer","found":{"withdrawn":true,"standing":"supplied","recalled":true,"national":null,"expiry":"280229","batch":"B1"},"v":2,"asker":2,"q":1,"gtin":"09506000134352","serial":"S1"}
{"asker":2,"found":{"batch":"B1","expiry":"280229","national":null,"recalled":true,"standing":"supplied","withdrawn":true},"gtin":"09506000134352","msg":"answer","q":1,"serial":"S1","v":2}"#;

/// What is no message, or has a key twice: one too few and one too many, a list with none, one that goes on behind its last member, a
/// moment with an exponent and one that is past, what came with the second version in the first, and a key of another form.
const NOT_TAKEN: &str =
    r#"{"at":1800000000,"at":1800000000,"gtin":"09506000134352","msg":"status","serial":"S1","to":"free_sample","user":"u1"}
{"at":1800000000,"gtin":"09506000134352","msg":"status","serial":"S1","to":"free_sample"}
{"at":1800000000,"gtin":"09506000134352","msg":"status","serial":"S1","to":"free_sample","user":"u1","v":1}
{"batch":"B1","expiry":"280200","gtin":"9506000134352","msg":"upload","serials":[]}
{"batch":"B1","expiry":"280200","gtin":"9506000134352","msg":"upload","serials":["S1",]}
{"at":18e8,"gtin":"09506000134352","msg":"status","serial":"S1","to":"free_sample","user":"u1"}
{"at":4102444800,"gtin":"09506000134352","msg":"status","serial":"S1","to":"free_sample","user":"u1"}
{"batch":"B1","expiry":"280200","gtin":"9506000134352","msg":"upload","national":null,"serials":["S1"]}
{"at":1800000000,"gtin":"9506000134352","msg":"withdraw"}
{"gtin":"9506000134352","msg":"query","serial":"S1","user":"u1"}"#;

const RECALL: &str =
    "{\"at\":1800000010,\"batch\":\"B1\",\"gtin\":\"09506000134352\",\"msg\":\"recall\"}";

const QUERY: &str = "{\"gtin\":\"9506000134352\",\"msg\":\"query\",\"serial\":\"S1\"}";

/// An example of each message, as the document of the formats has them; each is its own canonical text.
const CANONICAL: &str =
    r#"{"common":"paracetamol","form":"tablet","gtin":"09506000134352","markets":["FI"],"msg":"master","name":"Examplin","pack_size":"30","pack_type":"blister","scheme":"GTIN","strength":"500 mg"}
{"batch":"B1","expiry":"280229","gtin":"09506000134352","msg":"upload","serials":["S1"]}
{"batch":"B1","expiry":"280229","gtin":"09506000134352","msg":"upload","national":"123456","serials":["S1"],"v":2}
{"at":1800000000,"gtin":"09506000134352","msg":"status","serial":"S1","to":"supplied","user":"u1"}
{"at":1800000010,"batch":"B1","gtin":"09506000134352","msg":"recall"}
{"after_batch":"C1","after_gtin":"04012345678901","after_serials":["X1"],"at":1800000000,"before_batch":"B1","before_gtin":"09506000134352","before_serials":["S1"],"msg":"repack"}
{"gtin":"09506000134352","msg":"query","serial":"S1"}
{"asker":2,"found":null,"gtin":"09506000134352","msg":"answer","q":1,"serial":"S1"}
{"asker":2,"found":{"batch":"B1","expiry":"280229","recalled":false,"standing":"active"},"gtin":"09506000134352","msg":"answer","q":1,"serial":"S1"}
{"asker":2,"found":{"batch":"B1","expiry":"280229","national":null,"recalled":false,"standing":"active","withdrawn":true},"gtin":"09506000134352","msg":"answer","q":1,"serial":"S1","v":2}
{"at":1800000000,"gtin":"09506000134352","msg":"withdraw","v":2}"#;

/// Messages of each kind, and below each another of its kind that differs from it in one member.
const OTHERS: &str =
    r#"{"common":"paracetamol","form":"tablet","gtin":"09506000134352","markets":["FI"],"msg":"master","name":"Examplin","pack_size":"30","pack_type":"blister","scheme":"GTIN","strength":"500 mg"}
{"common":"paracetamol","form":"tablet","gtin":"09506000134352","markets":["FI"],"msg":"master","name":"Examplin","pack_size":"30","pack_type":"blister","scheme":"GTIN","strength":"250 mg"}
{"batch":"B1","expiry":"280200","gtin":"9506000134352","msg":"upload","national":"123456","serials":["S1","S2"],"v":2}
{"batch":"B1","expiry":"280200","gtin":"9506000134352","msg":"upload","national":"123456","serials":["S1","S3"],"v":2}
{"at":1800000000,"gtin":"09506000134352","msg":"status","serial":"S1","to":"free_sample","user":"u1"}
{"at":1800000000,"gtin":"09506000134352","msg":"status","serial":"S1","to":"sample","user":"u1"}
{"at":1800000010,"batch":"B1","gtin":"09506000134352","msg":"recall"}
{"at":1800000010,"batch":"B2","gtin":"09506000134352","msg":"recall"}
{"after_batch":"C1","after_gtin":"04012345678901","after_serials":["X1","X2"],"at":0,"before_batch":"B1","before_gtin":"09506000134352","before_serials":["S1"],"msg":"repack"}
{"after_batch":"C1","after_gtin":"04012345678901","after_serials":["X1","X2"],"at":0,"before_batch":"B1","before_gtin":"09506000134352","before_serials":["S2"],"msg":"repack"}
{"at":1800000000,"gtin":"9506000134352","msg":"withdraw","v":2}
{"at":1800000001,"gtin":"9506000134352","msg":"withdraw","v":2}
{"gtin":"9506000134352","msg":"query","serial":"S1"}
{"gtin":"09506000134352","msg":"query","serial":"S9"}
{"asker":2,"found":{"batch":"B1","expiry":"280229","national":null,"recalled":true,"standing":"supplied","withdrawn":true},"gtin":"09506000134352","msg":"answer","q":1,"serial":"S1","v":2}
{"asker":2,"found":{"batch":"B1","expiry":"280229","national":null,"recalled":true,"standing":"supplied","withdrawn":false},"gtin":"09506000134352","msg":"answer","q":1,"serial":"S1","v":2}"#;

/// The message that a text is. It is held as one that is shared, which is dropped by one call: a message at hand is dropped member by
/// member wherever memory is refused, which is dear to prove.
fn shared(alloc: Global, text: &str) -> Option<Shared<Message>> {
    Shared::new(alloc, mv_json::read(alloc, text.as_bytes()).ok()?).ok()
}

/// Whether a message was made, and is this one.
fn is_made(made: Option<Message>, wanted: &Message) -> Option<bool> {
    Some(made? == *wanted)
}

fn is_copied(alloc: Global, text: &str) -> Option<bool> {
    let message = shared(alloc, text)?;
    is_made(message.get().copy(alloc).ok(), message.get())
}

fn is_read_back(alloc: Global, text: &str) -> Option<bool> {
    let message = shared(alloc, text)?;
    is_made(remade(alloc, message.get()), message.get())
}

/// The message that is read from the value of a message.
fn remade(alloc: Global, message: &Message) -> Option<Message> {
    let value = mv_json::to_value(alloc, message).ok()?;
    mv_json::from_value(alloc, &value).ok()
}

/// The canonical text of the message that a text is, or the message's first fault.
fn canonical_text(alloc: Global, text: &str) -> Result<String, MessageFault> {
    let message = mv_json::read(alloc, text.as_bytes())?;
    mv_json::text(alloc, &message)
}

fn is_own_text(alloc: Global, text: &str) -> Option<bool> {
    Some(canonical_text(alloc, text).ok()?.as_str() == text)
}

/// The recall of a batch, to be shared by all that hold it.
fn recall(alloc: Global, gtin: &str, batch: &str, at: u64) -> Option<Shared<Message>> {
    let gtin = Gtin::read(gtin).ok()?;
    let batch = Batch::read(batch).ok()?;
    let at = Moment::of(at).ok()?;
    let key = BatchKey { gtin, batch };
    Shared::new(alloc, Message::Recall { key, at }).ok()
}

/// The message that the tokens of a text are.
fn taken(alloc: Global, text: &str) -> Option<Shared<Message>> {
    let mut scratch = Scratch::new(alloc);
    scratch.reserve(text.len()).ok()?;
    let mut reader = Reader::new(text, &mut scratch);
    Shared::new(alloc, mv_json::take_message(alloc, &mut reader)?).ok()
}

/// The change of standing that `STATUS` tells.
fn status(alloc: Global) -> Option<Shared<Message>> {
    let gtin = Gtin::read("9506000134352").ok()?;
    let serial = Serial::read("S1").ok()?;
    let at = Moment::of(1_800_000_000).ok()?;
    let user = Text::new(String::from_str(alloc, "u1").ok()?);
    let status = Message::Status {
        key: PackKey { gtin, serial },
        to: Standing::FreeSample,
        user,
        at,
    };
    Shared::new(alloc, status).ok()
}

/// The upload that `PLAIN_UPLOAD` tells.
fn upload(alloc: Global) -> Option<Shared<Message>> {
    let gtin = Gtin::read("9506000134352").ok()?;
    let batch = Batch::read("B1").ok()?;
    let expiry = Expiry::read("280229").ok()?;
    let serials = serials(alloc, "S1", "S2")?;
    let upload = Message::Upload {
        gtin,
        batch,
        expiry,
        national: None,
        serials,
    };
    Shared::new(alloc, upload).ok()
}

/// Whether the messages that are made of their values are those that are taken from the tokens of texts.
fn are_made(alloc: Global) -> Option<bool> {
    let is_status = taken(alloc, STATUS)? == status(alloc)?;
    Some(is_status && taken(alloc, PLAIN_UPLOAD)? == upload(alloc)?)
}

/// Whether the message that is taken from the tokens of a text is the one that is read from another.
fn is_taken(alloc: Global, text: &str, other: &str) -> Option<bool> {
    Some(taken(alloc, text)? == shared(alloc, other)?)
}

/// Whether the recall that is made of its values is the one that is read from a text.
fn is_recall_made(alloc: Global) -> Option<bool> {
    let recall = recall(alloc, "9506000134352", "B1", 1_800_000_010)?;
    Some(*recall.get() == *shared(alloc, RECALL)?.get())
}

/// Whether one that shares a message with another equals it, and shows the message.
fn is_shared(alloc: Global, text: &str) -> Option<bool> {
    let first = shared(alloc, text)?;
    let second = first.share().ok()?;
    Some(first == second && *second.get() == *shared(alloc, text)?.get())
}

/// Whether what is shared of two messages is equal.
fn are_shared_alike(alloc: Global, left: &str, right: &str) -> Option<bool> {
    Some(shared(alloc, left)? == shared(alloc, right)?)
}

fn pack_found() -> Option<Found> {
    Some(Found::Present {
        batch: Batch::read("B1").ok()?,
        expiry: Expiry::read("280200").ok()?,
        national: None,
        standing: Standing::FreeSample,
        recalled: true,
        withdrawn: false,
    })
}

fn is_pack_copied() -> Option<bool> {
    let found = pack_found()?;
    Some(found.copy() == found)
}

fn are_serials_copied(alloc: Global) -> Option<bool> {
    let serials = serials(alloc, "S1", "S2")?;
    let copy = serials.copy(alloc).ok()?;
    Some(serials == copy && copy.as_slice().len() == 2)
}

fn are_markets_copied(alloc: Global) -> Option<bool> {
    let finland = Market::read("FI").ok()?;
    let markets = markets(alloc, "FI")?;
    let copy = markets.copy(alloc).ok()?;
    Some(markets == copy && copy.as_slice() == [finland].as_slice())
}

fn is_text_copied(alloc: Global) -> Option<bool> {
    let text = Text::new(String::from_str(alloc, "500 mg").ok()?);
    let copy = text.copy(alloc).ok()?;
    Some(text == copy && copy.as_str() == "500 mg")
}

/// Whether two texts that differ are told apart, and equal ones are not.
fn are_texts_told_apart(alloc: Global) -> Option<bool> {
    let strength = Text::new(String::from_str(alloc, "500 mg").ok()?);
    let weaker = Text::new(String::from_str(alloc, "250 mg").ok()?);
    Some(laws::texts_are_equal(&strength, &strength) && !laws::texts_are_equal(&strength, &weaker))
}

/// Whether two lists of serial numbers that differ in their order are told apart, and equal ones are not.
fn are_serials_told_apart(alloc: Global) -> Option<bool> {
    let ordered = serials(alloc, "S1", "S2")?;
    let turned = serials(alloc, "S2", "S1")?;
    Some(laws::serials_are_equal(&ordered, &ordered) && !laws::serials_are_equal(&ordered, &turned))
}

/// Whether two lists of markets that differ are told apart, and equal ones are not.
fn are_markets_told_apart(alloc: Global) -> Option<bool> {
    let finland = markets(alloc, "FI")?;
    let sweden = markets(alloc, "SE")?;
    Some(laws::markets_are_equal(&finland, &finland) && !laws::markets_are_equal(&finland, &sweden))
}

fn serials(alloc: Global, first: &str, second: &str) -> Option<Serials> {
    let first = Serial::read(first).ok()?;
    let second = Serial::read(second).ok()?;
    let mut serials = Vec::with_capacity(alloc, 2).ok()?;
    serials.push_reserved(first);
    serials.push_reserved(second);
    Some(Serials::new(serials))
}

fn markets(alloc: Global, market: &str) -> Option<Markets> {
    let market = Market::read(market).ok()?;
    let mut markets = Vec::with_capacity(alloc, 1).ok()?;
    markets.push_reserved(market);
    Some(Markets::new(markets))
}

fn differ(alloc: Global, left: &str, right: &str) -> Option<bool> {
    Some(*shared(alloc, left)?.get() != *shared(alloc, right)?.get())
}

/// Whether each first of two lines is a message that differs from that of the second.
fn all_differ(alloc: Global, texts: &str) -> bool {
    let mut lines = texts.lines();
    while let (Some(text), Some(other)) = (lines.next(), lines.next()) {
        if differ(alloc, text, other) != Some(true) {
            return false;
        }
    }
    true
}

#[test]
fn tells_apart_what_differs(rt: HostRuntime) {
    assert!(rt; are_texts_told_apart(rt.alloc()) == Some(true));
    assert!(rt; are_serials_told_apart(rt.alloc()) == Some(true));
    assert!(rt; are_markets_told_apart(rt.alloc()) == Some(true));
    assert!(rt; all_differ(rt.alloc(), OTHERS));
}

#[test]
fn copies_each_message(rt: HostRuntime) {
    for text in OTHERS.lines() {
        assert!(rt; is_copied(rt.alloc(), text) == Some(true));
    }
}

#[test]
fn reads_each_value_back(rt: HostRuntime) {
    for text in OTHERS.lines() {
        assert!(rt; is_read_back(rt.alloc(), text) == Some(true));
    }
}

#[test]
fn writes_canonical_texts(rt: HostRuntime) {
    for text in CANONICAL.lines() {
        assert!(rt; is_own_text(rt.alloc(), text) == Some(true));
    }
}

#[test]
fn makes_a_message_of_its_values(rt: HostRuntime) {
    assert!(rt; is_recall_made(rt.alloc()) == Some(true));
    assert!(rt; are_made(rt.alloc()) == Some(true));
}

/// Whether each first of two lines is taken by its tokens as the message of the second.
fn all_are_taken(alloc: Global, texts: &str) -> bool {
    let mut lines = texts.lines();
    while let (Some(text), Some(other)) = (lines.next(), lines.next()) {
        if is_taken(alloc, text, other) != Some(true) {
            return false;
        }
    }
    true
}

#[test]
fn takes_a_message_by_its_tokens(rt: HostRuntime) {
    for text in CANONICAL.lines() {
        assert!(rt; is_taken(rt.alloc(), text, text) == Some(true));
    }
    assert!(rt; all_are_taken(rt.alloc(), IN_ANY_ORDER));
}

#[test]
fn takes_nothing_that_is_no_message(rt: HostRuntime) {
    for text in NOT_TAKEN.lines() {
        assert!(rt; taken(rt.alloc(), text).is_none());
    }
}

#[test]
fn shares_a_message(rt: HostRuntime) {
    assert!(rt; is_shared(rt.alloc(), RECALL) == Some(true));
    assert!(rt; are_shared_alike(rt.alloc(), QUERY, QUERY) == Some(true));
    assert!(rt; are_shared_alike(rt.alloc(), QUERY, RECALL) == Some(false));
}

#[test]
fn copies_what_messages_hold(rt: HostRuntime) {
    assert!(rt; is_pack_copied() == Some(true));
    assert!(rt; are_serials_copied(rt.alloc()) == Some(true));
    assert!(rt; are_markets_copied(rt.alloc()) == Some(true));
    assert!(rt; is_text_copied(rt.alloc()) == Some(true));
}
