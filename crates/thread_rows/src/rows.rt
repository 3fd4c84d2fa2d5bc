//! A pack is asked for abroad, over a link that is closed meanwhile; and calls that are refused.

ghost use Rattle.mv_ends.specs.Laws.{AreSameRepos};

use crate::ends::Ends;
use crate::hands::{Apart, Hand, Here};
use mv_ends::{HubEnd, Outcome, RepoEnd, ends_stay_ends, gather, open, repo_ends_stay, report};
use mv_hub::{Entry, Parties};
use mv_machine::{Limits, Refusal, Reply, Step};
use mv_message::{Message, Party, Shared};
use mv_pack::{Gtin, Market, PackKey, Serial};
use mv_repository::{Effect, Joint};
use std::alloc::Global;

/// The master of a product for Finland.
const FINNISH: &str =
    "{\"common\":\"paracetamol\",\"form\":\"tablet\",\"gtin\":\"09506000134352\",\"markets\":[\"FI\"],\"msg\":\"master\",\"name\":\"Examplin\",\"pack_size\":\"30\",\"pack_type\":\"blister\",\"scheme\":\"GTIN\",\"strength\":\"500 mg\"}";

/// The report of what is gathered behind all of the row.
const REPORT: &str =
    "     party submitted    routed   applied  products     packs    active  recalled\n         0         1         1         0         0         0         0         0\n         1         1         1         2         1         0         0         0\n         2         1         1         0         0         0         0         0\nclosed links: 1\n";

/// The markets of three parties: the first serves none, the others Finland and Sweden.
fn markets(alloc: Global) -> Option<Parties> {
    let finland = Market::read("FI").ok()?;
    let sweden = Market::read("SE").ok()?;
    let mut lists = Vec::with_capacity(alloc, 3).ok()?;
    lists.push_reserved(Vec::new(alloc));
    lists.push_reserved(vec![in alloc; finland].ok()?);
    lists.push_reserved(vec![in alloc; sweden].ok()?);
    Parties::new(alloc, lists).ok()
}

/// The ends that are opened.
fn opened(alloc: Global) -> Option<Ends> {
    let limits = Limits::of(256, 64, 64, 1_000_000).ok()?;
    Ends::open(alloc, markets(alloc)?, limits)
}

/// The pack that is asked for.
fn pack() -> Option<PackKey> {
    Some(PackKey {
        gtin: Gtin::read("09506000134352").ok()?,
        serial: Serial::read("S1").ok()?,
    })
}

/// The master, as a message.
fn master(alloc: Global) -> Option<Shared<Message>> {
    Shared::new(alloc, mv_json::read(alloc, FINNISH.as_bytes()).ok()?).ok()
}

/// Whether a reply says that the first message of a party was routed to this party alone.
fn is_routed_to(reply: &Reply, party: Party) -> bool {
    match reply {
        Reply::Routed { k, reach } => *k == 1 && reach.to_reach().as_slice() == [party].as_slice(),
        _ => false,
    }
}

/// Whether the hub routes the first message of a party to another alone.
fn is_routed<H: Hand>(ends: &mut Ends, hand: &H, from: Party, to: Party) -> bool {
    is_routed_to(&ends.at_hub(hand, Step::Route { from }), to)
}

/// Whether the hub relays the first frame of a link.
fn is_relayed<H: Hand>(ends: &mut Ends, hand: &H, from: Party, to: Party) -> bool {
    ends.at_hub(hand, Step::Relay { from, to }) == Reply::Relayed { number: 1 }
}

/// Whether the hub repeats the first frame of a link.
fn is_repeated<H: Hand>(ends: &mut Ends, hand: &H, from: Party, to: Party) -> bool {
    let number = 1;
    ends.at_hub(hand, Step::Repeat { from, to, number }) == Reply::Repeated { number }
}

/// Whether the hub closes a link, once.
fn is_closed<H: Hand>(ends: &mut Ends, hand: &H, from: Party, to: Party) -> bool {
    ends.at_hub(hand, Step::Close { from, to }) == Reply::Closed
        && ends.at_hub(hand, Step::Close { from, to }) == Reply::Refused(Refusal::AlreadyClosed)
}

/// Whether Finland gives this reply as it takes a frame from a party.
fn is_applied<H: Hand>(ends: &mut Ends, hand: &H, from: Party, reply: &Reply) -> bool {
    ends.at(hand, 1, Step::Apply { from, to: 1 }) == *reply
}

/// Whether the maker submits the master, and the hub sends it to Finland, twice.
fn is_launched<H: Hand>(ends: &mut Ends, hand: &H, message: Shared<Message>) -> bool {
    let done = Reply::Applied {
        number: 1,
        effect: Effect::Done,
        answer: None,
    };
    let reply = ends.at(hand, 0, Step::Submit { from: 0, message });
    let sent = is_routed(ends, hand, 0, 1) && is_relayed(ends, hand, 0, 1);
    let first = is_applied(ends, hand, 0, &done);
    let again = is_repeated(ends, hand, 0, 1);
    let second = is_applied(ends, hand, 0, &Reply::Old { number: 1 });
    let submitted = reply == Reply::Submitted { k: 1 };
    submitted && sent && first && again && second
}

/// Whether Sweden asks for the pack, the link from the maker to Finland is closed, and Finland answers.
fn is_answered<H: Hand>(ends: &mut Ends, hand: &H, key: PackKey) -> bool {
    let noted = Reply::Applied {
        number: 1,
        effect: Effect::Noted,
        answer: Some(1),
    };
    let reply = ends.at(hand, 2, Step::Verify { party: 2, key });
    let closed = is_closed(ends, hand, 0, 1);
    let sent = is_routed(ends, hand, 2, 1) && is_relayed(ends, hand, 2, 1);
    let applied = is_applied(ends, hand, 2, &noted);
    let back = is_routed(ends, hand, 1, 2);
    let asked = reply == Reply::Asked { q: 1 };
    asked && closed && sent && applied && back
}

/// Whether an entry says that the first message of a party was routed.
fn is_entry(entry: Option<&Entry>, party: Party) -> bool {
    match entry {
        Some(Entry::Routed { from, k, .. }) => *from == party && *k == 1,
        _ => false,
    }
}

/// Whether the record has the three messages, and the closing between the first and the others.
fn is_recorded(outcome: &Outcome) -> bool {
    let record = outcome.record();
    record.len() == 4
        && is_entry(record.get(0), 0)
        && record.get(1) == Some(&Entry::Closed { from: 0, to: 1 })
        && is_entry(record.get(2), 2)
        && is_entry(record.get(3), 1)
}

/// Whether the outcome shows what each party submitted and applied.
fn is_shown(outcome: &Outcome) -> bool {
    outcome.parties().len() == 3
        && outcome.is_party(2)
        && !outcome.is_party(3)
        && outcome.sub(0).len() == 1
        && outcome.sub(1).len() == 1
        && outcome.sub(2).len() == 1
        && outcome.log(0).is_empty()
        && outcome.log(1).len() == 2
        && outcome.repository(1).party() == 1
        && outcome.hub().routed_count(2) == 1
}

/// What the row begins with.
#[derive(Drop)]
struct Beginning {
    ends: Ends,
    message: Shared<Message>,
    key: PackKey,
}

/// The ends, opened, with the master and the pack; none where memory was refused.
fn begun(alloc: Global) -> Option<Beginning> {
    let (message, key) = (master(alloc)?, pack()?);
    let ends = opened(alloc)?;
    Some(Beginning { ends, message, key })
}

/// The same, made again where memory was refused once.
fn begun_at_last(alloc: Global) -> Option<Beginning> {
    match begun(alloc) {
        Some(beginning) => Some(beginning),
        None => begun(alloc),
    }
}

/// What is gathered behind all of it, where it went so by such a hand.
fn gathered<H: Hand>(beginning: Option<Beginning>, hand: &H) -> Option<Outcome> {
    let Beginning { ends, message, key } = beginning?;
    let mut ends = ends;
    let launched = is_launched(&mut ends, hand, message);
    let answered = is_answered(&mut ends, hand, key);
    let outcome = ends.gather();
    if launched && answered {
        Some(outcome)
    } else {
        None
    }
}

/// Whether all of it goes so.
fn is_carried<H: Hand>(beginning: Option<Beginning>, hand: &H) -> bool {
    gathered(beginning, hand).is_some_and(|outcome| is_recorded(&outcome) && is_shown(&outcome))
}

#[test]
fn carries_a_query_and_its_answer(rt: HostRuntime) {
    assert!(rt; is_carried(begun_at_last(rt.alloc()), &Here));
}

#[test]
fn carries_them_with_each_call_in_a_thread(rt: HostRuntime) {
    assert!(rt; is_carried(begun(rt.alloc()), &Apart(&rt)));
}

/// Whether the report of an outcome is this text.
fn is_reported(alloc: Global, outcome: &Outcome, text: &str) -> bool {
    match report(alloc, outcome) {
        Ok(written) => written.as_str() == text,
        Err(_) => false,
    }
}

/// Whether what is gathered behind all of it is reported so.
fn is_told(alloc: Global) -> bool {
    gathered(begun(alloc), &Here).is_some_and(|outcome| is_reported(alloc, &outcome, REPORT))
}

#[test]
fn reports_what_is_gathered(rt: HostRuntime) {
    assert!(rt; is_told(rt.alloc()));
}

/// Whether the hub refuses calls for their own reasons.
fn does_hub_refuse(hub: &mut HubEnd) -> bool {
    hub.route(0) == Reply::Refused(Refusal::UplinkEmpty)
        && hub.route(3) == Reply::Refused(Refusal::Party)
        && hub.relay(0, 1) == Reply::Refused(Refusal::Nothing)
        && hub.repeat(0, 1, 1) == Reply::Refused(Refusal::NotSent)
        && hub.record().is_empty()
}

/// Whether Sweden refuses frames for their own reasons, and asks for a pack.
fn does_end_ask(end: &mut RepoEnd, key: &PackKey) -> bool {
    end.apply(0) == Reply::Refused(Refusal::WireEmpty)
        && end.apply(3) == Reply::Refused(Refusal::Party)
        && end.ask(key) == Reply::Asked { q: 1 }
        && end.party() == 2
        && end.sub().len() == 1
        && end.log().is_empty()
        && end.repository().party() == 2
        && end.verdict(1) == Reply::Joint(Joint::NotAsked)
}

/// Whether calls are refused for their own reasons, and a query is asked.
fn are_refused(alloc: Global) -> Option<bool> {
    let limits = Limits::of(256, 64, 64, 1_000_000).ok()?;
    let (parties, key) = (markets(alloc)?, pack()?);
    let Ok((mut hub, mut repos)) = open(alloc, parties, limits) else {
        return None;
    };
    let refused = does_hub_refuse(&mut hub);
    let asked = repos.get_mut(2).is_some_and(|end| does_end_ask(end, &key));
    Some(refused && asked)
}

#[test]
fn refuses_what_the_ends_lists_say(rt: HostRuntime) {
    assert!(rt; are_refused(rt.alloc()) == Some(true));
}

/// Submits a message at the first of the ends of repositories.
fn submit_first(repos: &mut Vec<RepoEnd>, message: &Message)
    ensures { AreSameRepos repos.old.items repos.new.items }
{
    repo_ends_stay();
    if repos.is_empty() {
        return;
    }
    repos[0].submit(message);
}

/// What is gathered of a system in which party 0 submits a message, and the hub routes it.
fn routed_at_once(
    alloc: Global,
    parties: Parties,
    limits: Limits,
    message: &Message,
) -> Option<Outcome> {
    let Ok((mut hub, mut repos)) = open(alloc, parties, limits) else {
        return None;
    };
    submit_first(&mut repos, message);
    hub.route(0);
    ends_stay_ends();
    Some(gather(hub, repos))
}
