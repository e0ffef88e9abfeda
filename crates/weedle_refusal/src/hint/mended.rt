//! Whether a definition is read to its end with a change.

ghost use Rattle.std.specs.Prelude.{◌≡◌, ◌≤◌, IfOk, IsTrue, length, slice_range};
ghost use Rattle.weedle_refusal.specs.Hint.{Goes, IsMended, MayBegin, begins_definition};

use crate::hint::again::Trials;
use crate::hint::change::{Change, changed};
use crate::hint::stands::{SLASHES, stand_at};
use crate::hint::tokens::{Token, next_token};
use crate::hint::unread::{LONGEST, Unread};
use std::alloc::AllocError;
use weedle_grammar::trivia::skip_trivia;
use weedle_grammar::{Class, holds};

/// Where a definition ends, as far as it is known.
#[derive(Clone, Copy)]
struct Braces {
    /// How many `{` are open.
    depth: usize,
    /// Whether a `;` was last, with none open.
    is_end: bool,
}

/// Whether the definition is read to its end with a change, up to the furthest place at least and
/// past what is changed, and what follows it may begin another.
pub(crate) fn is_mended(
    trials: &mut Trials,
    unread: &Unread<'_>,
    change: Change<'_>,
) -> Result<bool, AllocError>
    requires { unread.now.place ≤ length unread.now.raw.now }
    ensures { IfOk result (λ mended. IsTrue mended
        → IsMended unread.now.dialect unread.now.raw.now unread.now.start unread.now.place
        change.entry.at change.entry.taken change.entry.bytes.now) }
{
    let Change { at, taken, .. } = change;
    let raw = unread.raw;
    if at > raw.len() || taken > raw.len() - at {
        return Ok(false);
    }
    let past = unread.place.max(at + taken);
    let end = end_of_definition(raw, at + taken, past, braces_behind(unread, change));
    if !goes_on(raw, end) {
        return Ok(false);
    }
    let Some(text) = changed(trials.alloc, raw, unread.start, end, change)? else {
        return Ok(false);
    };
    let whole = trials.is_whole(text.as_str(), unread.dialect)?;
    Ok(whole)
}

/// What is open behind a change.
fn braces_behind(unread: &Unread<'_>, change: Change<'_>) -> Braces {
    let mut depth = 0;
    for token in unread.tokens {
        if token.end <= change.at {
            depth = depth_behind(depth, token.of(unread.raw));
        }
    }
    let bytes = change.bytes.as_bytes();
    for i in 0..bytes.len() {
        depth = depth_behind(depth, &bytes[i..i + 1]);
    }
    Braces {
        depth,
        is_end: depth == 0 && change.bytes.ends_with(';'),
    }
}

/// How many `{` are open behind a token.
fn depth_behind(depth: usize, token: &[u8]) -> usize {
    match token {
        b"{" => depth.saturating_add(1),
        b"}" => depth.saturating_sub(1),
        _ => depth,
    }
}

/// Where the definition ends: behind the first `;` that is in no braces and has no token between it
/// and `past`, or else at the end of the text. No further than some 64 kB behind that.
fn end_of_definition(raw: &str, from: usize, past: usize, before: Braces) -> usize
    requires order { from ≤ past }
    requires within { past ≤ length raw.now }
    ensures after { past ≤ result }
    ensures within { result ≤ length raw.now }
{
    let mut at = from;
    let mut braces = before;
    while let Some(token) = next_token(raw, at) {
        let is_behind = token.start >= past;
        if is_behind && (braces.is_end || token.start - past >= LONGEST) {
            break;
        }
        at = token.end;
        braces = behind_token(raw, braces, token);
    }
    at.max(past)
}

/// What is open behind one more token.
fn behind_token(raw: &str, braces: Braces, token: Token) -> Braces {
    let bytes = token.of(raw);
    let depth = depth_behind(braces.depth, bytes);
    Braces {
        depth,
        is_end: depth == 0 && bytes == b";".as_slice(),
    }
}

/// Whether what follows a place, past whitespace and comments, may begin a definition, or the text
/// ends there.
fn goes_on(raw: &str, at: usize) -> bool
    ensures { IsTrue result → Goes (slice_range raw.now at (length raw.now)) }
{
    match raw.get(at..raw.len()) {
        Some(behind) => may_go_on(behind),
        None => false,
    }
}

/// The same of what is at the front of a text.
fn may_go_on(text: &str) -> bool
    ensures { IsTrue result → Goes text.now }
{
    may_begin(skip_trivia(text).as_bytes())
}

/// Whether the bytes may begin a definition, or are none.
fn may_begin(bytes: &[u8]) -> bool
    ensures { IsTrue result → MayBegin bytes.now }
{
    if bytes.is_empty() {
        return true;
    }
    if begins(bytes[0]) {
        return true;
    }
    stand_at(SLASHES, bytes, 0)
}

/// Whether a definition may begin with the byte.
fn begins(byte: u8) -> bool
    ensures { result ≡ begins_definition byte }
{
    holds(Class::Letter, byte) || byte == b'_' || byte == b'['
}
