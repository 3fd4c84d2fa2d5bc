//! Lines that are only checked: the caller that the head of mv_lines shows. What is written of lines is compared by tests/checks.

use mv_lines::check;
use std::alloc::Global;

/// Whether all lines of an input are messages.
fn are_messages(alloc: Global, lines: &str) -> bool {
    let mut reader = lines.as_bytes();
    let mut writer = Vec::new(alloc);
    check(alloc, &mut reader, &mut writer) == Ok(true)
}

#[test]
fn tells_whether_all_lines_are_messages(rt: HostRuntime) {
    let query = r#"{"gtin":"09506000134352","msg":"query","serial":"S1"}"#;
    assert!(rt; are_messages(rt.alloc(), query));
    assert!(rt; !are_messages(rt.alloc(), "[]"));
}
