//! `serve`, `canon` and `answer_lines` over a reader that gives a line a read, and a writer that shows what was flushed. How they do over readers and
//! writers that give and take little at a time, are interrupted or fail is seen on the program.

use mv_engine::{Answering, ServeFault, answer_lines};
use mv_lines::{Session, canon, serve};
use std::alloc::Global;
use std::io;
use std::io::{Read, Write};

/// Gives the text in reads of at most `size` bytes.
#[derive(Drop)]
struct Script<'a> {
    text: &'a [u8],
    size: usize,
    reads: u32,
}

impl Read for Script<'_> {
    fn read(&mut self, buf: &mut [u8]) -> io::Result<usize> {
        self.reads = self.reads.saturating_add(1);
        let count = self.size.min(buf.len()).min(self.text.len());
        let (front, rest) = self.text.split_at(count);
        let room = &mut buf[..count];
        room.copy_from_slice(front);
        self.text = rest;
        Ok(count)
    }
}

/// Keeps what is written, and passes it on only once it is flushed. Each write fails where it `is_broken`; the flush number `fails_at` fails.
#[derive(Drop)]
struct Tray {
    kept: Vec<u8>,
    bytes: Vec<u8>,
    is_broken: bool,
    flushes: u32,
    fails_at: u32,
}

impl Write for Tray {
    fn write(&mut self, buf: &[u8]) -> io::Result<usize> {
        if self.is_broken {
            return Err(io::Error::other("the write fails"));
        }
        self.kept.extend_from_slice(buf)?;
        Ok(buf.len())
    }

    fn flush(&mut self) -> io::Result<()> {
        self.flushes = self.flushes.saturating_add(1);
        if self.flushes == self.fails_at {
            return Err(io::Error::other("the flush fails"));
        }
        self.bytes.extend_from_slice(self.kept.as_slice())?;
        self.kept.clear();
        Ok(())
    }
}

/// Which function answers the lines.
#[derive(Clone, Copy)]
enum Task {
    Steps,
    Canon,
}

/// Lines that end by CR and LF, by LF and by the end; an empty one, one of a CR alone and one of blanks.
const TEXT: &[u8] = b"[]\r\n\nx\n\r\n  \n7";

/// What both functions answer to them.
const REPLIES: &[u8] = b"{\"refused\":\"M2\"}
{\"refused\":\"M1\"}
{\"refused\":\"M1\"}
{\"refused\":\"M2\"}
";

fn script_of(text: &'static [u8], size: usize) -> Script<'static> {
    Script {
        text,
        size,
        reads: 0,
    }
}

fn tray_of(alloc: Global, is_broken: bool, fails_at: u32) -> Tray {
    Tray {
        kept: Vec::new(alloc),
        bytes: Vec::new(alloc),
        is_broken,
        flushes: 0,
        fails_at,
    }
}

/// Answers the lines of a reader.
fn answer(
    alloc: Global,
    task: Task,
    reader: &mut Script<'_>,
    writer: &mut Tray,
) -> Result<(), ServeFault> {
    match task {
        Task::Steps => serve(alloc, reader, writer),
        Task::Canon => canon(alloc, reader, writer),
    }
}

/// Whether a run that gets a line a read, and whose first write fails, ends by V2 after exactly one read.
fn ends_at_the_first_write(alloc: Global, task: Task) -> bool {
    let mut reader = script_of(b"[]\n[]\n[]\n", 3);
    let mut writer = tray_of(alloc, true, 0);
    let ended = answer(alloc, task, &mut reader, &mut writer);
    ended == Err(ServeFault::Write) && reader.reads == 1
}

#[test]
fn writes_the_replies_to_what_one_read_gave_before_the_next(rt: HostRuntime) {
    assert!(rt; ends_at_the_first_write(rt.alloc(), Task::Steps));
    assert!(rt; ends_at_the_first_write(rt.alloc(), Task::Canon));
}

/// Whether a run whose flush number `fails_at` fails ends so, after so many reads and with so many bytes passed on.
fn is_flushed(
    alloc: Global,
    task: Task,
    fails_at: u32,
    ended: Result<(), ServeFault>,
    reads: u32,
    count: usize,
) -> bool {
    let mut reader = script_of(TEXT, 100);
    let mut tray = tray_of(alloc, false, fails_at);
    let answered = answer(alloc, task, &mut reader, &mut tray);
    let passed = tray.bytes.as_slice();
    answered == ended
        && reader.reads == reads
        && passed.len() == count
        && REPLIES.starts_with(passed)
}

#[test]
fn flushes_the_replies_to_each_block_and_stops_at_a_flush_that_fails(rt: HostRuntime) {
    for task in [Task::Steps, Task::Canon] {
        assert!(rt; is_flushed(rt.alloc(), task, 0, Ok(()), 2, 68));
        assert!(rt; is_flushed(rt.alloc(), task, 1, Err(ServeFault::Write), 1, 0));
        assert!(rt; is_flushed(rt.alloc(), task, 2, Err(ServeFault::Write), 2, 51));
    }
}

/// Answers the lines of a text.
fn answer_text<S: Answering>(
    alloc: Global,
    answering: &mut S,
    text: &str,
    writer: &mut Tray,
) -> Result<(), ServeFault> {
    let mut reader = text.as_bytes();
    answer_lines(alloc, answering, &mut reader, writer)
}

/// Whether a session that its caller keeps answers the lines of a text.
fn is_answered_by_a_session(alloc: Global) -> bool {
    let mut session = Session::new(alloc);
    let mut tray = tray_of(alloc, false, 0);
    let ended = answer_text(alloc, &mut session, "[]\n", &mut tray);
    ended.is_ok() && tray.bytes.as_slice() == b"{\"refused\":\"M2\"}\n".as_slice()
}

#[test]
fn a_session_answers_the_lines_of_a_text(rt: HostRuntime) {
    assert!(rt; is_answered_by_a_session(rt.alloc()));
}
