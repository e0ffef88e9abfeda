//! The marks of a text: brackets, what begins a string or a comment, and a semicolon.

ghost use Rattle.std.specs.Prelude.{◌≡◌, ℕ, ◌∷◌, ◌<◌, ◌≤◌, [], length, IfSome};
ghost use Rattle.std.specs.Option.{option_map};
ghost use Rattle.weedle_nesting.specs.Aside.{IsAside, IsBehind};
ghost use Rattle.weedle_nesting.specs.Bare.{Slash, Words, bare_from, behind_words};
ghost use Rattle.weedle_nesting.specs.Marks.{first_mark, is_mark, past};

use memchr::{memchr, memmem};

/// Whether a byte is a mark.
#[inline(always)]
fn is_mark(byte: u8) -> bool
    ensures { result ≡ is_mark byte }
{
    // Small letters, most of a text, need no more than the first test.
    byte <= b']'
        && matches!(
            byte,
            b'"' | b'/' | b'[' | b']' | b'(' | b')' | b'<' | b'>' | b';'
        )
}

/// The first mark, and what follows it. It is never inlined: alone its loop is as short as it can
/// be.
#[inline(never)]
pub(crate) fn next_mark(bytes: &[u8]) -> Option<(u8, &[u8])>
    ensures first { option_map (λ found. (found.0, found.1.now)) result ≡ first_mark bytes.now }
    ensures shorter { IfSome result (λ found. length found.1.now < length bytes.now) }
{
    for (i, byte) in bytes.iter().enumerate() {
        if is_mark(*byte) {
            return Some((*byte, &bytes[i + 1..]));
        }
    }
    None
}

/// What follows a mark, and the string or the comment that it begins. What isn't closed ends with
/// the text.
pub(crate) fn past_mark(mark: u8, after: &[u8]) -> &[u8]
    ensures bare { bare_from (behind_words mark) after.now ≡ bare_from Words result.now }
    ensures weighs { (depth : ℕ) → IsBehind mark depth after.now result.now }
    ensures shorter { length result.now ≤ length after.now }
{
    match mark {
        b'"' => past_byte(b'"', after),
        b'/' => past_comment(after),
        _ => after,
    }
}

/// What follows a comment, where these bytes follow its first slash, or else all of them.
fn past_comment(bytes: &[u8]) -> &[u8]
    ensures bare { bare_from Slash bytes.now ≡ bare_from Words result.now }
    ensures weighs { (depth : ℕ) → IsAside Slash depth bytes.now result.now }
    ensures shorter { length result.now ≤ length bytes.now }
{
    match bytes.split_first() {
        Some((b'/', line)) => past_byte(b'\n', line),
        Some((b'*', block)) => past_block(block),
        _ => bytes,
    }
}

/// What follows the first `*/`. Where there is none, nothing does.
fn past_block(bytes: &[u8]) -> &[u8]
    ensures { result.now ≡ past (42 ∷ 47 ∷ []) bytes.now }
{
    match memmem::find(bytes, b"*/") {
        Some(end) => &bytes[end + 2..],
        None => &[],
    }
}

/// What follows the first such byte. Where there is none, nothing does.
fn past_byte(byte: u8, bytes: &[u8]) -> &[u8]
    ensures { result.now ≡ past (byte ∷ []) bytes.now }
{
    match memchr(byte, bytes) {
        Some(end) => &bytes[end + 1..],
        None => &[],
    }
}
