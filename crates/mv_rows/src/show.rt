//! `show` on lines in memory: what stands when they end.

use mv_lines::ServeFault;
use mv_show::show;
use std::alloc::Global;

/// What the lines open, one of which is no line, and what they submit and route: the receipt waits on the link of party 0 to itself.
const LINES: &str =
    r#"{"do":"open","parties":[["FI"]],"submissions":2,"uplink":1,"window":2,"wire":1}
[]
{"do":"submit","from":0,"message":{"at":1,"batch":"B1","gtin":"09506000134352","msg":"recall"}}
{"do":"route","from":0}
"#;

/// What stands then.
const SHOWN: &str =
    r#"{"active":0,"applied":0,"packs":0,"party":0,"products":0,"recalled":0,"routed":1,"show":"party","submitted":1}
{"applied":0,"closed":false,"from":0,"put":1,"relayed":0,"show":"link","to":0,"wire":[]}
"#;

/// What shows where no line opens a system.
const NOT_OPEN: &str = "{\"refused\":\"C1\"}\n";

/// Shows what stands after some lines, and says whether a system is open.
fn is_open_after(alloc: Global, lines: &str, shown: &mut Vec<u8>) -> Result<bool, ServeFault> {
    let mut reader = lines.as_bytes();
    show(alloc, &mut reader, shown)
}

/// Whether lines show this, and leave a system open or none.
fn is_shown(alloc: Global, lines: &str, wanted: &str, open: bool) -> bool {
    let mut shown = Vec::new(alloc);
    let ended = is_open_after(alloc, lines, &mut shown);
    ended == Ok(open) && shown.as_slice() == wanted.as_bytes()
}

#[test]
fn what_stands_is_shown_when_the_lines_end(rt: HostRuntime) {
    assert!(rt; is_shown(rt.alloc(), LINES, SHOWN, true));
}

#[test]
fn where_nothing_is_open_that_is_shown(rt: HostRuntime) {
    assert!(rt; is_shown(rt.alloc(), "", NOT_OPEN, false));
    assert!(rt; is_shown(rt.alloc(), "[]\n\n7", NOT_OPEN, false));
}
