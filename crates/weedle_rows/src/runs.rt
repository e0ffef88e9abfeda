//! Runs of the program over inputs and outputs that give and take little, or fail, by what a run
//! writes of lists and of outlines; and memory that is refused.

use std::alloc::Global;
use std::io::{self, ErrorKind, Read, Write};
use std::process::Abort;
use std::test::Fail;
use weedle::{RunFault, Status, run, run_outline};
use weedle_testing::examples::WINDOW;
use weedle_testing::{Wanted, failing_reader, short_reader, short_writer};

/// What a run writes.
#[derive(Clone, Copy, Debug, PartialEq, Eq)]
enum Task {
    List,
    Outline,
}

/// A text with docstrings, and what a run writes of its outline.
const TEXT: &str = "///a\n/// b\ninterface A {};\nB includes C;";

const REPORT: &str = "interface A\n  a\n   b\nincludes B\ndefinitions 2\n";

const REPORT_OF_WINDOW: &str = "interface Window\ndefinitions 1\n";

/// Texts, how a run ends with each, and what it writes.
const REPORTS: [(Task, &str, Status, &str); 5] = [
    (Task::List, WINDOW, Status::Read, REPORT_OF_WINDOW),
    (
        Task::List,
        "interface A {};}",
        Status::Unread,
        "unread at byte 15\n",
    ),
    (Task::Outline, TEXT, Status::Read, REPORT),
    (
        Task::Outline,
        "///\nenum E {\"x\"};",
        Status::Read,
        "enum E\n  \ndefinitions 1\n",
    ),
    (Task::Outline, "  ", Status::Unread, "unread at byte 0\n"),
];

/// How a run ends.
fn ended<R: Read, W: Write>(
    alloc: Global,
    task: Task,
    reader: &mut R,
    writer: &mut W,
) -> Result<Status, RunFault> {
    match task {
        Task::List => run(alloc, reader, writer),
        Task::Outline => run_outline(alloc, reader, writer),
    }
}

/// Asserts how a run ends over an input that fails so after so many calls, and that it writes
/// nothing.
fn assert_unread(
    rt: &impl Abort,
    alloc: Global,
    (task, bytes): (Task, &[u8]),
    (calls, kind): (usize, ErrorKind),
    fault: RunFault,
) {
    let mut reader = failing_reader(bytes, calls, kind);
    let mut writer = short_writer(alloc, 4, 100);
    assert_eq!(rt;
        ended(alloc, task, &mut reader, &mut writer),
        Err(fault),
        "after {calls} reads"
    );
    assert!(rt; writer.taken.is_empty(), "after {calls} reads");
}

/// Asserts how a run ends over an input that gives and an output that takes so many bytes a call,
/// and which fails after so many, and what it writes.
fn assert_written(
    rt: &impl Abort,
    alloc: Global,
    (task, text): (Task, &str),
    (most, calls): (usize, usize),
    expected: (Result<Status, RunFault>, &str),
) {
    let mut reader = short_reader(text.as_bytes(), most.max(1));
    let mut writer = short_writer(alloc, most, calls);
    let answer = ended(alloc, task, &mut reader, &mut writer);
    assert_eq!(rt; answer, expected.0, "of {text:?}");
    assert_eq!(rt;
        writer.taken.as_slice(),
        expected.1.as_bytes(),
        "of {text:?}"
    );
}

#[test]
fn what_is_read_and_what_is_left_is_written_in_pieces(rt: HostRuntime) {
    for (task, text, status, report) in REPORTS {
        for most in [1, 3, 100] {
            assert_written(
                &rt,
                rt.alloc(),
                (task, text),
                (most, 1_000),
                (Ok(status), report),
            );
        }
    }
}

#[test]
fn a_run_ends_where_a_write_fails(rt: HostRuntime) {
    for (task, text, report) in [
        (Task::List, WINDOW, REPORT_OF_WINDOW),
        (Task::Outline, TEXT, REPORT),
    ] {
        for (calls, _) in report.char_indices() {
            let written = (Err(RunFault::Output), report.get(..calls).unwrap_or("?"));
            assert_written(&rt, rt.alloc(), (task, text), (1, calls), written);
        }
        let whole = (Ok(Status::Read), report);
        assert_written(&rt, rt.alloc(), (task, text), (1, report.len()), whole);
        let nothing = (Err(RunFault::Output), "");
        assert_written(&rt, rt.alloc(), (task, text), (0, 100), nothing);
    }
}

#[test]
fn a_bad_reader_is_told_from_refused_memory(rt: HostRuntime) {
    for (kind, fault) in [
        (ErrorKind::BrokenPipe, RunFault::Input),
        (ErrorKind::OutOfMemory, RunFault::Memory),
    ] {
        for task in [Task::List, Task::Outline] {
            // The last of these calls would have told the end.
            for calls in 0..WINDOW.len() + 1 {
                assert_unread(
                    &rt,
                    rt.alloc(),
                    (task, WINDOW.as_bytes()),
                    (calls, kind),
                    fault,
                );
            }
        }
    }
}

#[test]
fn bytes_that_are_no_text_are_refused(rt: HostRuntime) {
    for bytes in [
        b"\xff".as_slice(),
        b"\xc3".as_slice(),
        b"interface A {};\xff".as_slice(),
    ] {
        for task in [Task::List, Task::Outline] {
            let never = (usize::MAX, ErrorKind::Other);
            assert_unread(&rt, rt.alloc(), (task, bytes), never, RunFault::NotUtf8);
        }
    }
}

/// Takes these bytes, each once, in their order, and fails at others. It takes no memory.
#[derive(Drop)]
struct Awaited<'a> {
    bytes: &'a [u8],
}

impl Write for Awaited<'_> {
    fn write(&mut self, buf: &[u8]) -> io::Result<usize> {
        match self.bytes.strip_prefix(buf) {
            Some(bytes) => {
                self.bytes = bytes;
                Ok(buf.len())
            }
            None => Err(io::Error::from(ErrorKind::InvalidData)),
        }
    }

    fn flush(&mut self) -> io::Result<()> {
        Ok(())
    }
}

#[test]
fn reports_are_written_or_want_memory(rt: HostRuntime) -> Result<(), Fail> {
    let alloc = rt.alloc();
    let mut wanted = Wanted::new();
    for (task, text, status, report) in REPORTS {
        for _ in 0..2 {
            let mut reader = short_reader(text.as_bytes(), 100);
            let mut writer = Awaited {
                bytes: report.as_bytes(),
            };
            let answer = ended(alloc, task, &mut reader, &mut writer);
            if answer == Err(RunFault::Memory) {
                assert_eq!(rt; writer.bytes, report.as_bytes(), "of {text:?}");
                wanted.count();
            } else {
                assert_eq!(rt; answer, Ok(status), "of {text:?}");
                assert_eq!(rt; writer.bytes, b"".as_slice(), "of {text:?}");
            }
        }
    }
    assert!(rt; wanted.tell(&rt, alloc));
    Ok(())
}
