//! The report of a run, as a table of texts.

ghost use Rattle.std.specs.Prelude.{◌≡◌, ◌++◌, IfOk, IsTrue, filter, length, string_bytes};
ghost use Rattle.mv_machine.specs.State.{is_party};
ghost use Rattle.mv_ends.specs.Report.{is_closing, party_line, report_text};

use crate::outcome::Outcome;
use mv_hub::Entry;
use mv_message::Party;
use mv_repository::Counts;
use std::alloc::{AllocError, Global};

/// The first line of a report.
const HEAD: &str =
    "     party submitted    routed   applied  products     packs    active  recalled\n";

/// The report of what is gathered: a line of heads, a line for each party with what it submitted, what of this was routed and what
/// its repository has, and a line with how many links were closed.
#[tactic(auto, using(crate::proofs::ReportLemmas::report_whole))]
pub fn report(alloc: Global, outcome: &Outcome) -> Result<String, AllocError>
    ensures { IfOk result (λ text. string_bytes text ≡ report_text outcome.now) }
{
    let mut text = String::new(alloc);
    text.push_str(HEAD)?;
    for party in 0..outcome.parties().len() {
        push_party(&mut text, outcome, party)?;
    }
    let closed = closed_count(outcome.record());
    writeln!(text, "closed links: {closed}")?;
    Ok(text)
}

/// Writes the line of a party, each number on the right of ten places; one that is wider is written whole.
#[tactic(auto, using(crate::proofs::ReportLemmas::line), unfolding(crate::specs::Report::party_line))]
fn push_party(text: &mut String, outcome: &Outcome, party: Party) -> Result<(), AllocError>
    requires { IsTrue (is_party outcome.now party) }
    ensures { IfOk result (λ _. string_bytes text.new
        ≡ string_bytes text.old ++ party_line outcome.now party) }
{
    let submitted = outcome.sub(party).len();
    let routed = outcome.hub().routed_count(party);
    let Counts {
        entries,
        products,
        packs,
        active,
        recalled,
    } = outcome.repository(party).counts();
    writeln!(
        text,
        "{party:>10}{submitted:>10}{routed:>10}{entries:>10}{products:>10}{packs:>10}\
         {active:>10}{recalled:>10}"
    )
}

/// How many links a record closes.
fn closed_count(entries: &[Entry]) -> usize
    ensures { result ≡ length (filter is_closing entries.now) }
{
    entries.iter().filter(|entry| is_closing(entry)).count()
}

/// Whether an entry closes a link.
fn is_closing(entry: &Entry) -> bool
    ensures { result ≡ is_closing entry.now }
{
    matches!(entry, Entry::Closed { .. })
}
