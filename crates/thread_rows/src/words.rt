//! The turns of a plan, taken from words of the command line.

use mv_words::{Task, task_of};
use std::alloc::Global;

/// The turns that words give, where they ask for `work`.
fn turns_of(alloc: Global, words: &[String]) -> Option<u32> {
    match task_of(alloc, words) {
        Ok(Some(Task::Work { turns })) => Some(turns),
        _ => None,
    }
}

/// The turns that words of these texts give.
fn turns_of_texts(alloc: Global, texts: &[&str]) -> Option<u32> {
    let mut words = Vec::new(alloc);
    for text in texts {
        words.push(String::from_str(alloc, text).ok()?).ok()?;
    }
    turns_of(alloc, words.as_slice())
}

#[test]
fn takes_turns_from_words(rt: HostRuntime) {
    assert!(rt; turns_of_texts(rt.alloc(), &["mvhub", "work", "--turns", "1000"]) == Some(1000));
    assert!(rt; turns_of_texts(rt.alloc(), &["mvhub", "work", "--turns=0"]) == Some(0));
    assert!(rt; turns_of_texts(rt.alloc(), &["mvhub", "steps"]).is_none());
}
