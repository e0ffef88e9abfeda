//! The lines of a docstring.

ghost use Rattle.std.specs.Prelude.{◌≡◌, ◌≤◌, ◌<◌, ◌+◌, IfSome, IsTrue, length};
ghost use Rattle.weedle_refusal.specs.Hint.{AreDocLines, IsDocLine, IsNextDocLine};

use crate::hint::stands::{SLASHES, has_line_end, is_trivia, stand_at};
use memchr::memchr;
use weedle_grammar::trivia::skip_trivia;

/// Whether so many bytes from a place on are lines of a docstring, the LF of the last left out,
/// with whitespace and comments alone between them.
pub(crate) fn are_doc_lines(raw: &str, at: usize, taken: usize) -> bool
    ensures { IsTrue result → AreDocLines raw.now at (at + taken) }
{
    let Some(first) = line_end(raw, at) else {
        return false;
    };
    let mut end = first;
    while end - at < taken {
        match next_line_end(raw, end) {
            Some(next) => end = next,
            None => return false,
        }
    }
    end - at == taken
}

/// Where the line of a docstring ends that follows one which ends there.
fn next_line_end(raw: &str, end: usize) -> Option<usize>
    ensures line { IfSome result (IsNextDocLine raw.now end) }
    ensures further { IfSome result (λ next. end < next) }
    ensures within { IfSome result (λ next. next ≤ length raw.now) }
{
    let behind = raw.get(end..)?;
    let begin = raw.len() - skip_trivia(behind).len();
    if !is_trivia(raw.get(end..begin)?) {
        return None;
    }
    match line_end(raw, begin) {
        Some(next) if next > end => Some(next),
        _ => None,
    }
}

/// Where the line of a docstring ends that begins there, in front of its LF.
fn line_end(raw: &str, at: usize) -> Option<usize>
    ensures line { IfSome result (IsDocLine raw.now at) }
    ensures order { IfSome result (λ end. at ≤ end) }
    ensures within { IfSome result (λ end. end ≤ length raw.now) }
{
    let bytes = raw.as_bytes();
    if at > bytes.len() {
        return None;
    }
    let end = match memchr(b'\n', &bytes[at..]) {
        Some(length) => at + length,
        None => bytes.len(),
    };
    if !is_doc_line(bytes, at, end) {
        return None;
    }
    Some(end)
}

/// Whether the line of a docstring is there, up to its LF or to the end of the text.
fn is_doc_line(raw: &[u8], at: usize, end: usize) -> bool
    requires order { at ≤ end }
    requires within { end ≤ length raw.now }
    ensures { IsTrue result → IsDocLine raw.now at end }
{
    if !stand_at(SLASHES, raw, at) {
        return false;
    }
    if has_line_end(&raw[at..end]) {
        return false;
    }
    if end == raw.len() {
        return true;
    }
    raw[end] == b'\n'
}
