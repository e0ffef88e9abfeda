//! Texts in quotes.

ghost use Rattle.weedle_grammar.specs.written.Table.Leaves.{STRING_LIT};
ghost use Rattle.weedle_base.specs.Own.{own};
ghost use Rattle.weedle_base.specs.OwnLaws.{own_lawful};
ghost use Rattle.weedle_parts.specs.LiteralTrees.{string_tree};

use memchr::memchr;
use std::alloc::Global;
use weedle_base::{IResult, Parse, mismatch};
use weedle_grammar::Rule;
use weedle_grammar::scan::after_word;
use weedle_grammar::trivia::skip_trivia;

/// A text in quotes, as `"blob"`. It holds what is between them, in which nothing is an escape and
/// a line may end. Without both quotes it is a mismatch.
#[derive(Clone, Copy, Debug, PartialEq, Eq, PartialOrd, Ord, Hash)]
pub struct StringLit<'a>(pub &'a str);

impl<'a> Parse<'a> for StringLit<'a> {
    ghost reading = { own STRING_LIT string_tree ⊥ };

    fn parse(_alloc: Global, input: &'a str) -> IResult<&'a str, Self> {
        let start = skip_trivia(input);
        let Some(after) = after_word(Rule::BYTES_QUOTE, "\"", start) else {
            return Err(mismatch(input));
        };
        match memchr(b'"', after.as_bytes()) {
            Some(end) => Ok((skip_trivia(&after[end + 1..]), StringLit(&after[..end]))),
            None => Err(mismatch(input)),
        }
    }

    ghost lawful = { own_lawful STRING_LIT string_tree ⊥ };
}
