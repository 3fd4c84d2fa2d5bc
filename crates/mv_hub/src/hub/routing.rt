//! Whom a message is for, and how it is routed. Only the links that gain something are looked at:
//! those to the parties that it reaches, and that of its sender to itself.

ghost use Rattle.std.specs.Prelude.{◌≡◌, ◌&&◌, nat_lt, ◌+◌, ◌<◌, ℕ, List, [], ◌∷◌, true, length, None, Some, replicate, IfOk, IfErr, OnOk, OnErr};
ghost use Rattle.mv_hub.specs.Words.{HasRoom, IsSquare, NUMBER_LIMIT, PARTIES_LIMIT, has_party, parties_in};
ghost use Rattle.mv_hub.specs.Record.{routed_count};
ghost use Rattle.mv_hub.specs.Targets.{is_query, is_target, reach, serves_product};
ghost use Rattle.mv_link.specs.Fault.{FailsBy};
ghost use Rattle.mv_hub.specs.Hub.{is_busy, busy_party, route_fault, with_routed};
ghost use Rattle.mv_hub.specs.inside.Kept.{HasSold, IsRouting, PushesItems, PushesRow, Sells, gain_of, link_at, sold_to};

use crate::hub::Hub;
use crate::{Entry, Parties, RouteFault};
use indexmap::IndexMap;
use mv_link::{Item, Outgoing, PARTIES_LIMIT, PartySet, Reached};
use mv_message::{Message, Party, Shared};
use mv_pack::Gtin;
use mv_pairs::PairTable;
use std::alloc::{AllocError, Global};

/// How the next message of a party is routed.
#[derive(Drop)]
struct Routing<'a> {
    /// Whose message it is.
    from: Party,
    /// The message.
    message: &'a Message,
    /// Its number among the messages of the party, from one.
    k: u32,
    /// Its place in the record, from one.
    stamp: u32,
    /// Whether its sender gets a receipt: its link to itself is open.
    receipted: bool,
    /// The parties that it reaches.
    reached: PartySet,
}

impl Hub {
    /// The parties that serve a market of a product.
    fn servers(&self, gtin: &Gtin) -> PartySet
        ensures { (party : ℕ) → has_party result party ≡ (nat_lt party (length self.now.parties)
            && serves_product self.now.parties self.now.entries gtin.now party) }
    {
        match self.sold.get(gtin) {
            Some(parties) => *parties,
            None => PartySet::none(),
        }
    }

    /// The parties that a message from a party is for.
    #[tactic(auto, unfolding(crate::specs::Targets::is_target))]
    fn targets(&self, from: Party, message: &Message) -> PartySet
        requires { from < PARTIES_LIMIT }
        ensures { (to : ℕ) → has_party result to ≡ (nat_lt to (length self.now.parties)
            && is_target self.now.parties self.now.entries from message.now to) }
    {
        match message {
            Message::Master { gtin, product } => {
                let markets = product.get().markets.as_slice();
                self.servers(gtin).or(self.parties().servers(markets))
            }
            Message::Repack { before, after, .. } => {
                let after = self.servers(&after.get().gtin);
                self.servers(&before.get().gtin).or(after)
            }
            Message::Upload { gtin, .. } => self.servers(gtin),
            Message::Status { key, .. } => self.servers(&key.gtin),
            Message::Recall { key, .. } => self.servers(&key.gtin),
            Message::Withdraw { gtin, .. } => self.servers(gtin),
            // No party asks itself.
            Message::Query { key } => self.servers(&key.gtin).without(from),
            Message::Answer { asker, .. } => self.parties().alone(*asker),
        }
    }

    /// Whether a link has no room for what the routing puts on it.
    #[tactic(auto, using(std::proofs::lemmas::Bool::Decides::nat_tests, crate::proofs::HubLemmas::busy_is), unfolding(crate::specs::Links::gained))]
    fn is_busy(&self, routing: &Routing<'_>, to: Party) -> bool
        requires routing { IsRouting self.now routing.now }
        requires to { to < length self.now.parties }
        ensures { result ≡ is_busy self.now routing.now.from routing.now.message.now to }
    {
        let receipted = to == routing.from && routing.receipted;
        let count = u32::from(receipted) + u32::from(routing.reached.has(to));
        !self.link(routing.from, to).room(count)
    }

    /// The least party whose link has no room for what the routing puts on it. Only those are looked at that gain something:
    /// the links to the parties that it reaches, and that of its sender to itself, where it is open.
    fn busy_party(&self, routing: &Routing<'_>) -> Option<Party>
        requires { IsRouting self.now routing.now }
        ensures { result ≡ busy_party self.now routing.now.from routing.now.message.now }
    {
        let own = self.open_links[routing.from as usize].and(PartySet::none().with(routing.from));
        let mut gaining = routing.reached.or(own);
        while let Some(to) = gaining.pop_first() {
            if self.is_busy(routing, to) {
                return Some(to);
            }
        }
        None
    }

    /// How the next message of a party is routed, or why it is not, memory aside.
    #[tactic(auto, using(crate::proofs::HubLemmas::reached_of), unfolding(crate::specs::Hub::route_fault))]
    fn next_routing<'a>(&self, from: Party, message: &'a Message) -> Result<Routing<'a>, RouteFault>
        requires { length self.now.entries < NUMBER_LIMIT }
        ensures from { IfOk result (λ routing. routing.from ≡ from) }
        ensures message { IfOk result (λ routing. routing.message.now ≡ message.now) }
        ensures routing { IfOk result (λ routing. IsRouting self.now routing) }
        ensures free { IfOk result (λ routing. busy_party self.now routing.from routing.message.now ≡ None) }
        ensures ok { OnOk result (route_fault self.now from message.now ≡ None) }
        ensures err { IfErr result (λ fault. route_fault self.now from message.now ≡ Some fault) }
    {
        if from >= self.parties().len() {
            return Err(RouteFault::StrangerParty);
        }
        let open = self.open_links[from as usize];
        let routing = Routing {
            from,
            message,
            k: self.routed_count(from) + 1,
            stamp: self.record().len() as u32 + 1,
            receipted: self.is_open(from, from),
            reached: self.targets(from, message).and(open),
        };
        match self.busy_party(&routing) {
            Some(to) => Err(RouteFault::Busy(to)),
            None => Ok(routing),
        }
    }

    /// Whether the next message of a party can be routed now, memory aside. Nothing changes.
    ///
    /// The first of these that holds is the fault: H4, there is no such party; H5, a link has no room for what it would
    /// gain, the least such.
    pub fn check(&self, from: Party, message: &Message) -> Result<(), RouteFault>
        requires { length self.now.entries < NUMBER_LIMIT }
        ensures ok { OnOk result (route_fault self.now from message.now ≡ None) }
        ensures err { IfErr result (λ fault. route_fault self.now from message.now ≡ Some fault) }
    {
        self.next_routing(from, message)?;
        Ok(())
    }

    /// Routes the next message of a party: it goes into the record, a receipt of it onto the party's link to itself, while that is
    /// open, and the message onto the link to each party that it reaches, under its place in the record as stamp. Answers its
    /// number among the messages of the party, from one, and whom it reaches.
    ///
    /// The first of these that holds is the fault: H4, there is no such party; H5, a link has no room for what it would
    /// gain, the least such; H7, memory was refused.
    #[tactic(auto, using(crate::proofs::HubLemmas::reached_below, crate::proofs::HubLemmas::reach_listed))]
    pub fn route(
        &mut self,
        from: Party,
        message: &Shared<Message>,
    ) -> Result<(u32, Reached), RouteFault>
        requires { length self.old.entries < NUMBER_LIMIT }
        ensures number { IfOk result (λ routed. routed.0 ≡ routed_count self.old.entries from + 1) }
        ensures reach { IfOk result (λ routed.
            routed.1 ≡ reach self.old.parties self.old.entries from message.now) }
        ensures ok { OnOk result (self.new ≡ with_routed self.old from message.now) }
        ensures err { OnErr result (self.new ≡ self.old) }
        ensures fault { FailsBy RouteFault.Memory (route_fault self.old from message.now) result }
    {
        let routing = self.next_routing(from, message.get())?;
        let shares = shares_of(self.alloc, message, routing.reached)?;
        reserve_sold(&mut self.sold, routing.message)?;
        let (k, message) = (routing.k, message.share()?);
        self.trail.push(Entry::Routed { from, k, message })?;
        // Nothing fails from here on.
        put_sold(&mut self.sold, &self.parties, routing.message);
        put_gains(&mut self.links, &routing, shares);
        self.routed_counts[from as usize] = k;
        Ok((k, Reached::of(routing.reached)))
    }
}

/// A message, once for each of these parties. Refused for want of memory.
fn shares_of(
    alloc: Global,
    message: &Shared<Message>,
    parties: PartySet,
) -> Result<Vec<Shared<Message>>, AllocError>
    ensures { IfOk result (λ shares. shares.items
        ≡ replicate (length (parties_in parties)) message.now) }
{
    let count = parties.len();
    let mut shares = Vec::with_capacity(alloc, count)?;
    for _ in 0..count {
        shares.push_reserved(message.share()?);
    }
    Ok(shares)
}

/// Gets room for where the product of a message is sold. Where memory is refused nothing has changed.
fn reserve_sold(sold: &mut IndexMap<Gtin, PartySet>, message: &Message) -> Result<(), AllocError>
    ensures same { (gtin : List ℕ) (party : ℕ) → sold_to sold.new.entries gtin party ≡ sold_to sold.old.entries gtin party }
    ensures room { OnOk result (HasSold sold.new.entries message.now) }
{
    let Message::Master { gtin, .. } = message else {
        return Ok(());
    };
    match sold.entry(*gtin) {
        Ok(parties) => {
            parties.or_insert(PartySet::none());
            Ok(())
        }
        Err(_) => Err(AllocError),
    }
}

/// Notes where the product of a master is sold from now on.
fn put_sold(sold: &mut IndexMap<Gtin, PartySet>, parties: &Parties, message: &Message)
    requires room { HasSold sold.old.entries message.now }
    ensures { Sells parties.now sold.old.entries sold.new.entries message.now }
{
    let Message::Master { gtin, product } = message else {
        return;
    };
    if let Some(served) = sold.get_mut(gtin) {
        *served = parties.servers(product.get().markets.as_slice());
    }
}

/// Pushes an item on a link that has room for it.
fn put_one(link: &mut Outgoing, item: Item)
    requires { HasRoom link.old 1 }
    ensures { PushesItems (item ∷ []) link.old link.new }
{
    // A push is always taken.
    drop(link.push(item));
}

/// Whether a message asks about a pack.
fn is_query(message: &Message) -> bool
    ensures { result ≡ is_query message.now }
{
    matches!(message, Message::Query { .. })
}

/// Pushes what a routing puts on the links of its sender: the receipt, on the link to itself while
/// that is open, and then the message for each party that it reaches. Nothing of this can fail.
fn put_gains(
    links: &mut PairTable<Outgoing>,
    routing: &Routing<'_>,
    mut shares: Vec<Shared<Message>>,
)
    requires square { IsSquare (length links.old) links.old }
    requires from { routing.now.from < length links.old }
    requires within { (to : ℕ) → has_party routing.now.reached to ≡ true → to < length links.old }
    requires shares { shares.items
        ≡ replicate (length (parties_in routing.now.reached)) routing.now.message.now }
    requires room { (to : ℕ) → to < length links.old
        → HasRoom (link_at links.old routing.now.from to)
        (length (gain_of routing.now to)) }
    ensures { PushesRow (length links.old) routing.now.from (gain_of routing.now)
        links.old links.new }
{
    if routing.receipted {
        let receipt = Item::Receipt {
            k: routing.k,
            reach: Reached::of(routing.reached),
            query: is_query(routing.message),
        };
        put_one(links.at_mut(routing.from, routing.from), receipt);
    }
    let mut rest = routing.reached;
    while let Some(to) = rest.pop_first() {
        let Some(message) = shares.pop() else {
            // There is one for each party that is reached.
            unreachable!();
        };
        let (k, stamp) = (routing.k, routing.stamp);
        let item = Item::Carried { k, stamp, message };
        put_one(links.at_mut(routing.from, to), item);
    }
}
