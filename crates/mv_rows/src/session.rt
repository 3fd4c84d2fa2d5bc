//! A session, line by line, as a caller outside of the engine has it, and what a line asks, which needs no session.

use mv_format::Request;
use mv_lines::{Answered, Session};
use mv_machine::{Refusal, Reply};
use std::alloc::Global;

/// An opening of two parties.
const OPEN: &[u8] =
    b"{\"do\":\"open\",\"parties\":[[],[\"FI\"]],\"submissions\":10,\"uplink\":1,\"window\":2,\"wire\":1}";

/// A routing where nothing waits.
const ROUTE: &[u8] = b"{\"do\":\"route\",\"from\":0}";

/// Whether a line was refused for what it is; none where memory was refused.
fn is_refused(session: &mut Session, line: &[u8]) -> Option<bool> {
    match session.take(line) {
        Ok(answered) => Some(answered.is_refused()),
        Err(_) => None,
    }
}

/// Whether a routing is answered that nothing waits.
fn is_idle(session: &mut Session) -> bool {
    matches!(
        session.take(ROUTE),
        Ok(Answered::Stepped {
            reply: Reply::Refused(Refusal::UplinkEmpty),
            ..
        })
    )
}

/// Whether a session without a system refuses what is no JSON and what needs a system, opens one, and refuses a second.
fn opens_once(alloc: Global) -> bool {
    let mut session = Session::new(alloc);
    is_refused(&mut session, b"{") == Some(true)
        && is_refused(&mut session, ROUTE) == Some(true)
        && session.world().is_none()
        && is_refused(&mut session, OPEN) == Some(false)
        && session.world().is_some()
        && is_refused(&mut session, OPEN) == Some(true)
        && is_refused(&mut session, ROUTE) == Some(false)
        && is_idle(&mut session)
}

#[test]
fn opens_once_and_says_what_it_refuses(rt: HostRuntime) {
    assert!(rt; opens_once(rt.alloc()));
}

/// Whether a line asks a step.
fn asks_a_step(alloc: Global, line: &[u8]) -> bool {
    matches!(Request::read(alloc, line), Ok(Request::Step(_)))
}

#[test]
fn a_routing_asks_a_step_and_an_opening_asks_none(rt: HostRuntime) {
    assert!(rt; asks_a_step(rt.alloc(), ROUTE));
    assert!(rt; !asks_a_step(rt.alloc(), OPEN));
}
