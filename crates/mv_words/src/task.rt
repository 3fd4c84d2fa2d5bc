//! What the words of the command line ask for.
#![tactic(auto, using(crate::proofs::AskLemmas::by_rows))]

ghost use Rattle.std.specs.Prelude.{◌≡◌, ℕ, List, false, true, MatchResult, IfOk, Some, map, codes, string_bytes};
ghost use Rattle.clap.specs.Words.{all_of, fault_of, FailsBy, found_of, one_of, Row, rows_of, subcommand_rows_of};
ghost use Rattle.clap.specs.Values.{kind_of};
ghost use Rattle.clap.specs.declared.error.kind.ErrorKind.TheVariants.{OutOfMemory};
ghost use Rattle.mv_words.specs.Words.{command_line, AsksFor, IsFor, WritesTurns};
ghost use Rattle.mv_words.specs.declared.task.Task.{Task as Asked};

use crate::words::command_line;
use clap::{ArgMatches, Error};
use std::alloc::{AllocError, Global};
use std::marker::Model;

/// What the words ask for.
#[derive(Drop)]
pub enum Task<'a> {
    /// `steps`: to answer steps, a line each.
    Steps,
    /// `steps --strict`: to answer steps, and to say whether a line was not taken.
    Strict,
    /// `trail`: to write what steps did, an event a line.
    Trail,
    /// `show`: to write what stands behind the steps.
    Show,
    /// `canon`: to write messages as their canonical texts, a line each.
    Canon,
    /// `canon --check`: to write the refusals of messages alone.
    Check,
    /// `work`: to carry out a plan of lines, in so many turns at most.
    Work {
        /// How many turns each worker takes at most.
        turns: u32,
    },
    /// `explain`: to say what codes mean.
    Explain {
        /// The words behind `explain`.
        codes: Codes<'a>,
    },
}

/// The words behind `explain`, in their order, seen as their bytes.
#[derive(Drop)]
pub struct Codes<'a> {
    /// The words.
    words: Vec<&'a str>,
}

impl<'a> Model for Codes<'a> {
    ghost use Rattle.std.specs.Prelude.{ℕ, List, map};

    ghost Value = { List (List ℕ) };

    ghost view = { λ codes. map (λ word. word.now) codes.words.items };
}

impl<'a> Codes<'a> {
    ghost use Rattle.std.specs.Prelude.{◌≡◌, map};

    /// The words, in their order.
    pub fn as_slice(&self) -> &[&'a str]
        ensures { map (λ word. word.now) result.now ≡ self.now }
    {
        self.words.as_slice()
    }
}

/// What the words ask for, or why they ask for nothing.
pub fn task_of<'a>(alloc: Global, words: &'a [String]) -> Result<Option<Task<'a>>, Error>
    ensures task { (asked : Asked) → AsksFor asked (map string_bytes words.now) → MatchResult result
        (λ task. task ≡ Some asked) (λ error. kind_of error ≡ OutOfMemory) }
    ensures taken { FailsBy (fault_of command_line (map string_bytes words.now)) result }
{
    let matches = command_line(alloc)?.try_get_matches_from(words)?;
    Ok(task_found(alloc, &matches)?)
}

/// The task of the subcommand that was found.
fn task_found<'a>(alloc: Global, matches: &ArgMatches<'a>) -> Result<Option<Task<'a>>, AllocError>
    ensures { (asked : Asked) (name : List ℕ) (rows : List Row)
        → subcommand_rows_of matches.now ≡ Some (name, rows) → IsFor asked name rows
        → IfOk result (λ task. task ≡ Some asked) }
{
    let Some((name, given)) = matches.subcommand() else {
        return Ok(None);
    };
    match name {
        "steps" if is_given(given, "strict") => Ok(Some(Task::Strict)),
        "steps" => Ok(Some(Task::Steps)),
        "trail" => Ok(Some(Task::Trail)),
        "show" => Ok(Some(Task::Show)),
        "canon" if is_given(given, "check") => Ok(Some(Task::Check)),
        "canon" => Ok(Some(Task::Canon)),
        "work" => Ok(work_task(given)),
        "explain" => explain_task(alloc, given),
        _ => Ok(None),
    }
}

/// Whether an option was given that has no value.
fn is_given(given: &ArgMatches<'_>, flag: &str) -> bool
    ensures given { one_of flag.now (rows_of (found_of given.now)) ≡ Some (codes "true") → result ≡ true }
    ensures absent { one_of flag.now (rows_of (found_of given.now)) ≡ Some (codes "false") → result ≡ false }
{
    given.get_flag(flag)
}

/// The task of `work`: none without a number of turns.
fn work_task<'a>(given: &ArgMatches<'_>) -> Option<Task<'a>>
    ensures { (turns : ℕ) (text : List ℕ)
        → one_of (codes "turns") (rows_of (found_of given.now)) ≡ Some text → WritesTurns turns text
        → result ≡ Some (Task.Work turns) }
{
    Some(Task::Work {
        turns: given.get_one("turns")?,
    })
}

/// The task of `explain`: none without a word.
fn explain_task<'a>(alloc: Global, given: &ArgMatches<'a>) -> Result<Option<Task<'a>>, AllocError>
    ensures { (words : List (List ℕ)) → all_of (codes "code") (rows_of (found_of given.now)) ≡ Some words
        → IfOk result (λ task. task ≡ Some (Task.Explain words)) }
{
    let Some(words) = given.get_strs("code") else {
        return Ok(None);
    };
    let words = Vec::from_slice(alloc, words)?;
    let codes = Codes { words };
    Ok(Some(Task::Explain { codes }))
}
