//! A plan of three parties, run in threads: carried out, not begun, refused, and by two workers that meet.

use mv_hub::Parties;
use mv_machine::Limits;
use mv_message::{Message, Party};
use mv_plan::{Planned, read_plan};
use mv_tool::work;
use mv_workers::{Gate, NoGate, Plan, Work, WorkFault, run_workers};
use std::alloc::Global;
use std::io::Cursor;
use std::marker::Sync;
use std::sync::Wait;
use std::sync::atomic::{AtomicU64, Ordering};
use std::thread;
use std::thread::Threads;

/// What the three parties are to submit.
const PLAN: &str =
    "{\"do\":\"open\",\"parties\":[[],[\"FI\"],[\"SE\",\"DK\"]],\"submissions\":1000,\"uplink\":8,\"window\":8,\"wire\":8}\n{\"do\":\"submit\",\"from\":0,\"message\":{\"common\":\"paracetamol\",\"form\":\"tablet\",\"gtin\":\"09506000134352\",\"markets\":[\"FI\"],\"msg\":\"master\",\"name\":\"Examplin\",\"pack_size\":\"30\",\"pack_type\":\"blister\",\"scheme\":\"GTIN\",\"strength\":\"500 mg\"}}\n{\"do\":\"submit\",\"from\":1,\"message\":{\"common\":\"paracetamol\",\"form\":\"tablet\",\"gtin\":\"04012345678901\",\"markets\":[\"SE\"],\"msg\":\"master\",\"name\":\"Examplin\",\"pack_size\":\"30\",\"pack_type\":\"blister\",\"scheme\":\"GTIN\",\"strength\":\"500 mg\"}}\n{\"do\":\"submit\",\"from\":2,\"message\":{\"common\":\"paracetamol\",\"form\":\"tablet\",\"gtin\":\"00000012345670\",\"markets\":[\"DK\"],\"msg\":\"master\",\"name\":\"Examplin\",\"pack_size\":\"30\",\"pack_type\":\"blister\",\"scheme\":\"GTIN\",\"strength\":\"500 mg\"}}\n{\"do\":\"submit\",\"from\":0,\"message\":{\"batch\":\"B1\",\"expiry\":\"280200\",\"gtin\":\"09506000134352\",\"msg\":\"upload\",\"serials\":[\"S1\",\"S2\"]}}\n{\"do\":\"submit\",\"from\":1,\"message\":{\"batch\":\"C1\",\"expiry\":\"280200\",\"gtin\":\"04012345678901\",\"msg\":\"upload\",\"serials\":[\"X1\"]}}\n{\"do\":\"submit\",\"from\":2,\"message\":{\"batch\":\"D1\",\"expiry\":\"280200\",\"gtin\":\"00000012345670\",\"msg\":\"upload\",\"serials\":[\"Y1\"]}}\n{\"do\":\"submit\",\"from\":0,\"message\":{\"at\":1800000000,\"batch\":\"B1\",\"gtin\":\"09506000134352\",\"msg\":\"recall\"}}\n{\"do\":\"submit\",\"from\":1,\"message\":{\"batch\":\"C1\",\"expiry\":\"280200\",\"gtin\":\"04012345678901\",\"msg\":\"upload\",\"serials\":[\"X1\",\"X2\"]}}\n{\"do\":\"verify\",\"gtin\":\"00000012345670\",\"party\":2,\"serial\":\"Y9\"}\n{\"do\":\"submit\",\"from\":0,\"message\":{\"batch\":\"B2\",\"expiry\":\"280200\",\"gtin\":\"09506000134352\",\"msg\":\"upload\",\"serials\":[\"S3\"]}}\n{\"do\":\"submit\",\"from\":1,\"message\":{\"common\":\"paracetamol\",\"form\":\"tablet\",\"gtin\":\"04012345678901\",\"markets\":[\"SE\",\"FI\"],\"msg\":\"master\",\"name\":\"Examplin\",\"pack_size\":\"30\",\"pack_type\":\"blister\",\"scheme\":\"GTIN\",\"strength\":\"500 mg\"}}\n{\"do\":\"submit\",\"from\":2,\"message\":{\"at\":1800000000,\"batch\":\"D1\",\"gtin\":\"00000012345670\",\"msg\":\"recall\"}}\n";

/// The head of each report.
const HEAD: &str =
    "     party submitted    routed   applied  products     packs    active  recalled\n";

/// The report where all of it was carried out, below its head.
const CARRIED_OUT: &str =
    "         0         4         4         4         0         0         0         0\n         1         4         4         9         2         3         3         1\n         2         4         4        11         2         3         3         1\nclosed links: 0\nfinished\n";

/// The report where nothing was begun, below its head.
const NOT_BEGUN: &str =
    "         0         0         0         0         0         0         0         0\n         1         0         0         0         0         0         0         0\n         2         0         0         0         0         0         0         0\nclosed links: 0\nunfinished\n";

/// Whether the lines come to this answer, and to this report.
fn comes_to<R: Threads + Wait + Sync, G: Gate>(
    rt: &R,
    alloc: Global,
    turns: u32,
    gate: &G,
    report: &str,
    answer: bool,
) -> bool {
    let mut lines = PLAN.as_bytes();
    let mut out = Cursor::new(Vec::new(alloc));
    let answered = work(rt, alloc, &mut lines, &mut out, turns, gate);
    let text = out.into_inner();
    answered == Ok(answer) && is_joined(text.as_slice(), HEAD, report)
}

/// Whether a text is these two, one behind the other.
fn is_joined(text: &[u8], first: &str, second: &str) -> bool {
    let (head, rest) = text.split_at(first.len().min(text.len()));
    head == first.as_bytes() && rest == second.as_bytes()
}

#[test]
fn carries_a_plan_out(rt: HostRuntime) {
    assert!(rt; comes_to(&rt, rt.alloc(), 1_000_000, &NoGate, CARRIED_OUT, true));
}

#[test]
fn submits_nothing_without_turns(rt: HostRuntime) {
    assert!(rt; comes_to(&rt, rt.alloc(), 0, &NoGate, NOT_BEGUN, false));
}

/// Whether the lines are a plan.
fn is_plan(alloc: Global, lines: &str) -> bool {
    let mut reader = lines.as_bytes();
    matches!(read_plan(alloc, &mut reader), Ok(Planned::Plan(_)))
}

#[test]
fn reads_a_plan(rt: HostRuntime) {
    assert!(rt; is_plan(rt.alloc(), PLAN));
    assert!(rt; !is_plan(rt.alloc(), ""));
}

/// A plan of so many empty lists for one party.
fn empty_plan(alloc: Global, lists: usize) -> Option<Plan> {
    let mut parties = Vec::with_capacity(alloc, 1).ok()?;
    parties.push_reserved(Vec::new(alloc));
    let mut work: Vec<Vec<Message>> = Vec::new(alloc);
    for _list in 0..lists {
        work.push(Vec::new(alloc)).ok()?;
    }
    Some(Plan {
        parties: Parties::new(alloc, parties).ok()?,
        limits: Limits::of(8, 8, 8, 1000).ok()?,
        work: Work::new(work),
    })
}

/// Whether a plan of so many empty lists for one party is complete without a turn, or refused.
fn is_run<R: Threads + Wait + Sync>(rt: &R, alloc: Global, lists: usize, complete: bool) -> bool {
    let Some(plan) = empty_plan(alloc, lists) else {
        return false;
    };
    match run_workers(rt, alloc, plan, 0, &NoGate) {
        Ok(_) => complete,
        Err(WorkFault::Plan) => !complete,
        Err(_) => false,
    }
}

#[test]
fn needs_no_turn_for_an_empty_plan(rt: HostRuntime) {
    assert!(rt; is_run(&rt, rt.alloc(), 1, true));
}

#[test]
fn refuses_another_number_of_lists(rt: HostRuntime) {
    assert!(rt; is_run(&rt, rt.alloc(), 2, false));
}

/// Parties 1 and 2 look here for each other, each before its first look for a frame.
#[derive(Drop)]
struct Meeting {
    first: AtomicU64,
    second: AtomicU64,
    met: AtomicU64,
}

impl Gate for Meeting {
    fn pass(&self, party: Party) {
        let (own, other) = match party {
            1 => (&self.first, &self.second),
            2 => (&self.second, &self.first),
            _ => return,
        };
        if own.swap(1, Ordering::SeqCst) != 0 {
            return;
        }
        for _look in 0..100_000_000 {
            if other.load(Ordering::SeqCst) != 0 {
                self.met.fetch_add(1, Ordering::SeqCst);
                return;
            }
            thread::yield_now();
        }
    }
}

#[test]
fn runs_two_workers_at_once(rt: HostRuntime) {
    let gate = Meeting {
        first: AtomicU64::new(0),
        second: AtomicU64::new(0),
        met: AtomicU64::new(0),
    };
    assert!(rt; comes_to(&rt, rt.alloc(), 1_000_000, &gate, CARRIED_OUT, true));
    assert!(rt; gate.met.load(Ordering::SeqCst) == 2);
}
