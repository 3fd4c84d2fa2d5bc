//! The markets that each party serves, as a line lists them.

ghost use Rattle.std.specs.Prelude.{◌≡◌, ◌≢◌, IfOk, IfErr, Ok, Err, map, is_some};
ghost use Rattle.mv_format.specs.Words.{GivesOr, as_list, as_str, items_view, list_all, view};
ghost use Rattle.mv_format.specs.inside.LineFields.{market_item, market_list, read_all};
ghost use Rattle.mv_format.specs.Reading.{market_lists_at};

use crate::field_reading::member_of;
use crate::{LineFault, LineField};
use mv_pack::Market;
use serde_json::Value;
use std::alloc::Global;
use std::marker::Model;

/// A list of markets for each party, party 0 first.
#[derive(Drop)]
pub struct MarketLists {
    lists: Vec<Vec<Market>>,
}

impl Model for MarketLists {
    ghost use Rattle.std.specs.Prelude.{List, ℕ, map};

    ghost Value = { List (List (List ℕ)) };

    ghost view = { λ m. map (λ list. list.items) m.lists.items };
}

impl MarketLists {
    /// The markets of these lists.
    pub fn new(lists: Vec<Vec<Market>>) -> MarketLists
        ensures { result ≡ map (λ list. list.items) lists.items }
    {
        MarketLists { lists }
    }

    /// The lists.
    pub fn into_lists(self) -> Vec<Vec<Market>>
        ensures { map (λ list. list.items) result.items ≡ self }
    {
        self.lists
    }
}

/// The lists of markets of a field: M3; M5 where it is no list of lists of texts; M6 with P8.
#[tactic(auto, using(crate::proofs::ListLemmas::lists_walked, crate::proofs::ListLemmas::all_are_text_lists), unfolding(crate::specs::inside::LineFields::walked_lists_at))]
pub(crate) fn market_lists_of(
    alloc: Global,
    value: &Value,
    field: LineField,
) -> Result<MarketLists, LineFault>
    ensures { GivesOr result (market_lists_at field (view value.now)) LineFault.Memory }
{
    let list = member_of(value, field)?
        .as_array()
        .ok_or(LineFault::Kind(field))?;
    if !are_text_lists(list.as_slice()) {
        return Err(LineFault::Kind(field));
    }
    let lists = market_lists_in(alloc, list.as_slice(), field)?;
    Ok(MarketLists::new(lists))
}

/// Whether all values are lists of texts.
fn are_text_lists(list: &[Value]) -> bool
    ensures { result ≡ list_all (λ value. is_some (as_list as_str (view value))) list.now }
{
    list.iter().all(is_text_list)
}

/// Whether a value is a list of texts.
#[tactic(auto, using(mv_json::proofs::CallerLemmas::all_are_texts))]
fn is_text_list(value: &Value) -> bool
    ensures { result ≡ is_some (as_list as_str (view value.now)) }
{
    match value.as_array() {
        Some(list) => are_texts(list.as_slice()),
        None => false,
    }
}

/// Whether all values are texts.
fn are_texts(list: &[Value]) -> bool
    ensures { result ≡ list_all (λ value. is_some (as_str (view value))) list.now }
{
    list.iter().all(Value::is_string)
}

/// The lists of markets, or the fault of the first bad one.
fn market_lists_in(
    alloc: Global,
    list: &[Value],
    field: LineField,
) -> Result<Vec<Vec<Market>>, LineFault>
    ensures ok { IfOk result
        (λ lists. read_all (market_list field) (items_view list.now) ≡ Ok (map (λ list. list.items) lists.items)) }
    ensures err { IfErr result (λ fault. fault ≢ LineFault.Memory
        → read_all (market_list field) (items_view list.now) ≡ Err fault) }
{
    let mut lists = Vec::new(alloc);
    for value in list {
        let list = value.as_array().ok_or(LineFault::Kind(field))?;
        lists.push(markets_in(alloc, list.as_slice(), field)?)?;
    }
    Ok(lists)
}

/// The markets of a list, or the fault of the first bad one.
fn markets_in(alloc: Global, list: &[Value], field: LineField) -> Result<Vec<Market>, LineFault>
    ensures ok { IfOk result (λ markets. read_all (market_item field) (items_view list.now) ≡ Ok markets.items) }
    ensures err { IfErr result (λ fault. fault ≢ LineFault.Memory
        → read_all (market_item field) (items_view list.now) ≡ Err fault) }
{
    let mut markets = Vec::new(alloc);
    for value in list {
        markets.push(market_in(value, field)?)?;
    }
    Ok(markets)
}

/// The market of a value.
fn market_in(value: &Value, field: LineField) -> Result<Market, LineFault>
    ensures { result ≡ market_item field (view value.now) }
{
    let text = value.as_str().ok_or(LineFault::Kind(field))?;
    Market::read(text).map_err(|fault| LineFault::Pack(field, fault))
}
