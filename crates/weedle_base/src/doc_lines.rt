//! The lines of a docstring.

ghost use Rattle.std.specs.Prelude.{◌≡◌, [], ◌∷◌, ◌++◌, OnOk, MatchOption, string_bytes};
ghost use Rattle.weedle_grammar.specs.Trees.{Fails, Lines};
ghost use Rattle.weedle_grammar.specs.written.Table.{Reads};
ghost use Rattle.weedle_grammar.specs.written.Table.Leaves.{DOC_LINE, DOCSTRING};
ghost use Rattle.weedle_base.specs.Reading.{Answers};
ghost use Rattle.weedle_base.specs.Own.{own};
ghost use Rattle.weedle_grammar.specs.Trivia.{Took};

use crate::fault::{IResult, mismatch, out_of_memory};
use memchr::memchr;
use std::alloc::{AllocError, Global};
use weedle_grammar::scan::{after_run, after_word};
use weedle_grammar::{Class, Rule};

/// The text of the line at the front, and what follows it: whitespace, `///`, the text and an LF.
fn doc_line(input: &str) -> Option<(&str, &str)>
    ensures { MatchOption result (Reads input.now DOC_LINE 0 Fails)
        (λ x. Took DOC_LINE input.now (Lines x.0.now ∷ []) x.1.now) }
{
    let line = after_run(Rule::RUN_BLANK, Class::Blank, input);
    let after = after_word(Rule::BYTES_THREE_SLASHES, "///", line)?;
    let end = memchr(b'\n', after.as_bytes())?;
    Some((&after[..end], &after[end + 1..]))
}

/// Puts an LF and the line at the end of the text, as a docstring's lines are put together: of `a`
/// and ` b` it makes `a`, an LF and ` b`. Where memory is refused the text may have grown in part.
pub fn push_line(text: &mut String, line: &str) -> Result<(), AllocError>
    ensures { OnOk result
        (string_bytes text.new ≡ (string_bytes text.old ++ (10 ∷ [])) ++ line.now) }
{
    text.push('\n')?;
    text.push_str(line)
}

/// Reads a docstring: one line or more, each of whitespace, `///` and a text up to the end of the
/// line. It gives the texts with an LF between two, so `///a` and `/// b` on two lines give `a`, an
/// LF and ` b`. A CR before an LF belongs to the text. What follows the last line stays unread.
///
/// Where the first line is no such line, or the text ends before its LF, it is a mismatch.
pub fn docstring(alloc: Global, input: &str) -> IResult<&str, String>
    ensures { Answers (own DOCSTRING (λ s. Lines (string_bytes s)) (Unit {0})) input.now result }
{
    let Some((first, behind)) = doc_line(input) else {
        return Err(mismatch(input));
    };
    let Ok(mut text) = String::from_str(alloc, first) else {
        return Err(out_of_memory(input));
    };
    let mut rest = behind;
    while let Some((line, next)) = doc_line(rest) {
        if push_line(&mut text, line).is_err() {
            return Err(out_of_memory(input));
        }
        rest = next;
    }
    Ok((rest, text))
}
