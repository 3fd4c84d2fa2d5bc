//! Laws over the definitions alone. They hold of every log, also of one in which a stamp has more than 32 bits, as no item that a
//! repository applies has; only that receipts stand behind all else needs stamps of 32 bits.

#![tactic(auto, using(crate::proofs::StateLemmas::change_names_status, crate::proofs::HistoryLemmas::laws))]

ghost use Rattle.std.specs.Prelude.{◌≡◌};
ghost use Rattle.mv_repository.specs.Clauses.{APackKey, AgreeOn, AnEntry, ChangeNamesStatus, HasDistinctStamps, HaveSameAbout, HaveSameEntries, HaveSameHistory, IsOrderOf, List, about, first_stops, first_upload, known_pack, ordered, pack_grown, statuses_of};

/// The order has each entry of the log once, by stamp, and those of one stamp as they stand in the log.
pub fn ordered_is_the_order()
    ensures { (log : List AnEntry) → IsOrderOf log (ordered log) }
{}

/// What a pack is depends on its own uploads and statuses, the first recall of its batch and the first withdrawal of its product.
pub fn pack_is_of_its_own_entries()
    ensures { (log : List AnEntry) (pack : APackKey) → known_pack pack (ordered log)
        ≡ pack_grown (first_stops (ordered log)) pack (first_upload pack (ordered log))
        (statuses_of pack (ordered log)) }
{}

/// The change of a pack names, by its place in the log, the status that made it, so its user is the one of that status.
pub fn change_names_its_status()
    ensures { (pack : APackKey) (log : List AnEntry) → ChangeNamesStatus pack log }
{}

/// Two logs that have the same about a pack give it the same state, and its batch and product the same standing, whatever
/// else they have and in whatever order it came.
pub fn about_decides()
    ensures { (pack : APackKey) (one other : List AnEntry) → about pack one ≡ about pack other
        → AgreeOn pack one other }
{}

/// Two logs, in each of which no stamp stands twice, that have the same messages about a pack agree on it, in whatever
/// order these came.
pub fn same_messages_agree()
    ensures { (pack : APackKey) (one other : List AnEntry) → HasDistinctStamps one
        → HasDistinctStamps other → HaveSameAbout pack one other → AgreeOn pack one other }
{}

/// Two logs, in each of which no stamp stands twice, that have the same entries agree on every pack, in whatever order these
/// came.
pub fn same_entries_agree()
    ensures { (pack : APackKey) (one other : List AnEntry) → HasDistinctStamps one
        → HasDistinctStamps other → HaveSameEntries one other → AgreeOn pack one other }
{}

/// Two logs that have the same history of a pack agree on it, whatever else they have: what decides the pack was sent alike, and
/// each status stands alike behind the upload, the recall and the withdrawal. No stamp needs to be distinct.
pub fn same_histories_agree()
    ensures { (pack : APackKey) (one other : List AnEntry) → HaveSameHistory pack one other
        → AgreeOn pack one other }
{}
