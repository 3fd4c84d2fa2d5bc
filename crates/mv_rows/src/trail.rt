//! The events that `trail` writes, by lines whose events a person knew.

use mv_show::trail;
use std::alloc::Global;

/// An opening, an empty line, no object, two closings of one link, and a pack that the party's own repository does not hold.
const LINES: &str =
    "{\"do\":\"open\",\"parties\":[[\"FI\"]],\"submissions\":10,\"uplink\":2,\"window\":3,\"wire\":1}

[]
{\"do\":\"close\",\"from\":0,\"to\":0}
{\"do\":\"close\",\"from\":0,\"to\":0}
{\"do\":\"verify\",\"gtin\":\"09506000134352\",\"party\":0,\"serial\":\"S1\"}
";

/// The events of lines 1, 4 and 6.
const EVENTS: &str =
    "{\"event\":\"opened\",\"line\":1,\"parties\":[[\"FI\"]],\"submissions\":10,\"uplink\":2,\"window\":3,\"wire\":1}
{\"event\":\"closed\",\"from\":0,\"line\":4,\"stamp\":1,\"to\":0}
{\"event\":\"asked\",\"gtin\":\"09506000134352\",\"line\":6,\"party\":0,\"q\":1,\"serial\":\"S1\"}
";

/// Whether these are the events of lines.
fn are_events(alloc: Global, lines: &str, events: &str) -> bool {
    let mut reader = lines.as_bytes();
    let mut writer = Vec::new(alloc);
    let ended = trail(alloc, &mut reader, &mut writer);
    ended.is_ok() && writer.as_slice() == events.as_bytes()
}

#[test]
fn tells_each_line_that_did_something_by_its_number(rt: HostRuntime) {
    assert!(rt; are_events(rt.alloc(), LINES, EVENTS));
    assert!(rt; are_events(rt.alloc(), "[]\n", ""));
}
