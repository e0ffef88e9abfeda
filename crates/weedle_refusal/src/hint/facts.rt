//! What can be said of a text without a change of it.

ghost use Rattle.std.specs.Prelude.{◌≤◌, IsTrue, codes, length};
ghost use Rattle.weedle_refusal.specs.Hint.{IsHintIn, IsOpenString, IsSplitString, StandAt};
ghost use Rattle.weedle_refusal.specs.Inside.{IsOutside};

use crate::hint::Hint;
use crate::hint::inside::is_outside;
use crate::hint::stands::{has_quote, is_trivia, stand_at};
use crate::hint::tokens::{Kind, Token};
use crate::hint::unread::Unread;
use memchr::memchr;
use weedle_syntax::Dialect;

/// What opens a string.
const QUOTE: &[u8] = b"\"";

/// The bytes of a byte order mark.
const BYTE_ORDER_MARK: &[u8] = b"\xEF\xBB\xBF";

/// What is in the text, or lacks in it, where that says enough.
pub(crate) fn fact(unread: &Unread<'_>) -> Option<Hint> {
    let Some(last) = unread.tokens.last() else {
        return if unread.start == 0 {
            Some(Hint::NoDefinitions)
        } else {
            None
        };
    };
    if let Some(place) = split_string(unread) {
        Some(Hint::SplitString { place })
    } else if last.kind == Kind::Open {
        Some(Hint::OpenString { place: last.start })
    } else if last.start == unread.place && last.of(unread.raw) == BYTE_ORDER_MARK {
        Some(Hint::ByteOrderMark {
            place: unread.place,
        })
    } else {
        None
    }
}

/// Where the first string opens that ends in another line, and before the furthest place.
fn split_string(unread: &Unread<'_>) -> Option<usize> {
    let spans_lines = |token: &&Token| {
        token.kind == Kind::Closed
            && token.end <= unread.place
            && memchr(b'\n', token.of(unread.raw)).is_some()
    };
    let token = unread.tokens.iter().find(spans_lines)?;
    Some(token.start)
}

/// Whether the hint says what is in the text, or lacks in it, and that is so, by whatever rules.
pub(crate) fn is_fact(raw: &str, start: usize, place: usize, hint: Hint, dialect: Dialect) -> bool
    requires { place ≤ length raw.now }
    ensures { IsTrue result → IsHintIn dialect raw.now start place hint }
{
    let _ = dialect;
    let bytes = raw.as_bytes();
    match hint {
        Hint::OpenString { place: at } => is_open(bytes, start, place, at),
        Hint::SplitString { place: at } => is_split(bytes, start, place, at),
        Hint::ByteOrderMark { place: at } => at == place && stand_at(BYTE_ORDER_MARK, bytes, at),
        Hint::NoDefinitions => start == 0 && is_trivia(raw),
        Hint::Keyword { .. }
        | Hint::Missing { .. }
        | Hint::Extra { .. }
        | Hint::WrongSign { .. }
        | Hint::WordOrder { .. }
        | Hint::Docstring { .. } => false,
    }
}

/// Whether a string opens there and isn't closed, in a text that is read to its end.
fn is_open(raw: &[u8], start: usize, place: usize, at: usize) -> bool
    ensures { IsTrue result → IsOpenString raw.now start place at }
{
    if place != raw.len() || at >= raw.len() || !opens_string(raw, start, at) {
        return false;
    }
    !has_quote(&raw[at + 1..])
}

/// Whether a string opens there and isn't closed in its line, and the next line begins before the
/// place or at it.
fn is_split(raw: &[u8], start: usize, place: usize, at: usize) -> bool
    requires { place ≤ length raw.now }
    ensures { IsTrue result → IsSplitString raw.now start place at }
{
    if at >= place || !opens_string(raw, start, at) {
        return false;
    }
    match memchr(b'\n', &raw[at + 1..place]) {
        Some(length) => !has_quote(&raw[at + 1..at + 1 + length]),
        None => false,
    }
}

/// Whether a quote is there that opens a string.
fn opens_string(raw: &[u8], start: usize, at: usize) -> bool
    ensures outside { IsTrue result → IsOutside raw.now start at }
    ensures quote { IsTrue result → StandAt (codes "\"") raw.now at }
{
    stand_at(QUOTE, raw, at) && is_outside(raw, start, at)
}
