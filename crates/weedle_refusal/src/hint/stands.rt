//! What is at a place of a text.

ghost use Rattle.std.specs.Prelude.{◌≡◌, ◌==◌, false, IsTrue, length, slice_index};
ghost use Rattle.std.specs.List.{list_any};
ghost use Rattle.weedle_grammar.specs.Rows.{is_in};
ghost use Rattle.weedle_grammar.specs.declared.class.Class.TheVariants.{Name};
ghost use Rattle.weedle_grammar.specs.written.Table.Trivia.{TRIVIA};
ghost use Rattle.weedle_refusal.specs.Hint.{IsWordAt, StandAt};
ghost use Rattle.weedle_rules.specs.Outcomes.{EndsAt};

use weedle_grammar::scan::run;
use weedle_grammar::trivia::skip_trivia;
use weedle_grammar::{Class, holds};

/// What begins a docstring's line.
pub(crate) const SLASHES: &[u8] = b"///";

/// Whether a word of so many bytes is there.
pub(crate) fn is_word(raw: &[u8], at: usize, taken: usize) -> bool
    ensures { IsTrue result → IsWordAt raw.now at taken }
{
    if taken == 0 {
        return false;
    }
    if at > 0 && !ends_word(raw, at - 1) {
        return false;
    }
    match raw.get(at..) {
        Some(text) => run(Class::Name, text) == taken,
        None => false,
    }
}

/// Whether no letter, digit, `_` or `-` is there.
fn ends_word(raw: &[u8], at: usize) -> bool
    ensures { IsTrue result → is_in Name (slice_index raw.now at) ≡ false }
{
    match raw.get(at) {
        Some(byte) => !holds(Class::Name, *byte),
        None => false,
    }
}

/// Whether these bytes are there.
pub(crate) fn stand_at(bytes: &[u8], raw: &[u8], at: usize) -> bool
    ensures { IsTrue result → StandAt bytes.now raw.now at }
{
    let Some(behind) = raw.get(at..) else {
        return false;
    };
    match behind.get(..bytes.len()) {
        Some(there) => there == bytes,
        None => false,
    }
}

/// Whether a quote is among the bytes.
pub(crate) fn has_quote(bytes: &[u8]) -> bool
    ensures { result ≡ list_any (λ byte. byte == 34) bytes.now }
{
    bytes.iter().any(|byte| *byte == b'"')
}

/// Whether a line ends among the bytes.
pub(crate) fn has_line_end(bytes: &[u8]) -> bool
    ensures { result ≡ list_any (λ byte. byte == 10) bytes.now }
{
    bytes.iter().any(|byte| *byte == b'\n')
}

/// Whether the text is whitespace and comments alone.
pub(crate) fn is_trivia(raw: &str) -> bool
    ensures { IsTrue result → EndsAt raw.now TRIVIA 0 (length raw.now) }
{
    skip_trivia(raw).is_empty()
}
