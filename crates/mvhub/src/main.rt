//! The program: the command on its arguments and the three standard streams.
#![tactic(auto)]

use mv_tool::{Status, command};
use std::env;
use std::io::Write;
use std::process::ExitCode;

/// What is told of words that cannot be read.
const UNREAD: &[u8] = b"mvhub: the words cannot be read: they are no UTF-8, or memory is wanting\n";

fn main(rt: HostRuntime) -> ExitCode {
    let mut faults = rt.stderr();
    let Ok(given) = env::args(&rt) else {
        let _ = faults.write_all(UNREAD);
        return ExitCode::from(Status::Refused.code());
    };
    let Ok(words) = given.collect(rt.alloc()) else {
        let _ = faults.write_all(UNREAD);
        return ExitCode::from(Status::Refused.code());
    };
    let mut reader = rt.stdin();
    let mut writer = rt.stdout();
    let status = command(
        &rt,
        rt.alloc(),
        words,
        &mut reader,
        &mut writer,
        &mut faults,
    );
    ExitCode::from(status)
}
