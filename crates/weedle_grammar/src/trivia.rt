//! The scanners of trivia.

ghost use Rattle.std.specs.Prelude.{List, ℕ, []};
ghost use Rattle.weedle_grammar.specs.written.Table.Trivia.{
  RUN_NOT_LINE_FEED,
  LINE_END,
  LINE_COMMENT,
  BLANKS,
  BLOCK_COMMENT,
  PIECE,
  TRIVIA,
};
ghost use Rattle.weedle_grammar.specs.Trivia.{Trial, Took, TookText};

use crate::scan::{after_one, after_run, after_word, next_is, taken};
use crate::{Class, Rule};
use memchr::{memchr, memmem};

/// What follows the line at the front and its LF. Where there is no LF, the line ends with the
/// text.
fn after_line(input: &str) -> &str
    ensures { (end : List ℕ) × Took RUN_NOT_LINE_FEED input.now [] end
        × Took LINE_END end [] result.now }
{
    match memchr(b'\n', input.as_bytes()) {
        Some(end) => &input[end + 1..],
        None => &input[input.len()..],
    }
}

/// What follows a line comment: `//`, no third `/`, and the rest of the line.
fn line_comment(input: &str) -> Option<&str>
    ensures { Trial LINE_COMMENT input.now result }
{
    let after = after_word(Rule::BYTES_SLASH_SLASH, "//", input)?;
    if next_is(Class::Slash, after) {
        return None;
    }
    Some(after_line(after))
}

/// What follows spaces, tabs, CRs and LFs, one at least.
fn blanks(input: &str) -> Option<&str>
    ensures { Trial BLANKS input.now result }
{
    let first = after_one(Rule::ONE_OF_BLANK, Class::Blank, input)?;
    Some(after_run(Rule::RUN_BLANK, Class::Blank, first))
}

/// What follows a block comment: `/*` and everything past the first `*/` behind it.
fn block_comment(input: &str) -> Option<&str>
    ensures { Trial BLOCK_COMMENT input.now result }
{
    let after = after_word(Rule::BYTES_SLASH_STAR, "/*", input)?;
    let end = memmem::find(after.as_bytes(), b"*/")?;
    Some(&after[end + 2..])
}

/// What follows one comment, or whitespace.
#[tactic(auto, using(crate::proofs::TriviaFacts::piece_line, crate::proofs::TriviaFacts::piece_blanks, crate::proofs::TriviaFacts::piece_block))]
fn piece(input: &str) -> Option<&str>
    ensures { Trial PIECE input.now result }
{
    if let Some(rest) = line_comment(input) {
        return Some(rest);
    }
    if let Some(rest) = blanks(input) {
        return Some(rest);
    }
    block_comment(input)
}

/// What follows the leading trivia. It takes no memory.
#[tactic(auto, using(crate::proofs::TriviaFacts::behind_none, crate::proofs::TriviaFacts::behind_more, crate::proofs::TriviaFacts::behind_all, crate::proofs::TriviaFacts::piece_shorter))]
pub fn skip_trivia(input: &str) -> &str
    ensures { Took TRIVIA input.now [] result.now }
{
    let mut rest = input;
    while let Some(next) = piece(rest) {
        rest = next;
    }
    rest
}

/// Reads trivia: comments and whitespace, none included. Returns what follows, then the trivia.
///
/// `sp("// a\n/* b */ c")` is `("c", "// a\n/* b */ ")`. A line comment ends with its LF, or with
/// the text. A block comment that isn't closed is no trivia, nor is a comment that begins with
/// `///`. Nothing is copied and no memory is taken; the ends of comments are found by `memchr`.
pub fn sp(input: &str) -> (&str, &str)
    ensures { TookText TRIVIA input.now result.1.now result.0.now }
{
    let rest = skip_trivia(input);
    (rest, taken(Rule::TRIVIA, input, rest))
}
