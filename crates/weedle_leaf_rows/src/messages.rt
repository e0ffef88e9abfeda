//! What is said of a refused text, through outputs that take little, or fail: by hand.

use std::alloc::Global;
use std::process::Abort;
use weedle_refusal::{Hint, write_hint, write_message};
use weedle_testing::{ShortWriter, short_writer};

/// A text that lacks a `;` before its `x`, which is at 16.
const TEXT: &str = "enum E { \"a\" }\n x";

const HINT: Hint = Hint::Missing {
    place: 14,
    sign: ";",
};

/// What a message and a hint write of it.
const SAID: &str = "2:2: expected `;`\n x\n ^\n1:15: `;` missing here?\n";

/// Writes the message and the hint; whether both calls answer that all is written.
fn is_written(out: &mut ShortWriter) -> bool {
    write_message(TEXT, 16, "expected `;`", out).is_ok() && write_hint(TEXT, &HINT, out).is_ok()
}

/// Asserts what is written where at most so many bytes are taken a call, and so many calls.
fn assert_written(
    rt: &impl Abort,
    alloc: Global,
    (most, calls): (usize, usize),
    (is_whole, said): (bool, &str),
) {
    let mut out = short_writer(alloc, most, calls);
    assert_eq!(rt; is_written(&mut out), is_whole, "after {calls} calls");
    assert_eq!(rt;
        out.taken.as_slice(),
        said.as_bytes(),
        "after {calls} calls"
    );
}

#[test]
fn what_is_said_is_written_in_pieces(rt: HostRuntime) {
    for most in [1, 3, 100] {
        assert_written(&rt, rt.alloc(), (most, 1_000), (true, SAID));
    }
}

#[test]
fn what_is_said_ends_where_the_output_fails(rt: HostRuntime) {
    for calls in 0..SAID.len() {
        let said = SAID.get(..calls).unwrap_or("");
        assert_written(&rt, rt.alloc(), (1, calls), (false, said));
    }
}
