//! What all symbols, and all keywords, share.

ghost use Rattle.std.specs.Prelude.{◌≡◌, IfOk};
ghost use Rattle.weedle_grammar.specs.Trees.{Mark};
ghost use Rattle.weedle_base.specs.Reading.{Answers};
ghost use Rattle.weedle_base.specs.Own.{own};
ghost use Rattle.weedle_base.specs.Tokens.{IsSymbol, IsKeyword};

use crate::fault::{IResult, mismatch};
use crate::names::ident_tag;
use weedle_grammar::Rule;
use weedle_grammar::trivia::skip_trivia;

/// Reads a symbol, with the trivia around it. Where it isn't next that is a mismatch; there is no
/// failure.
pub fn symbol<'a, T: Drop>(
    rule: Rule,
    tag: &'static str,
    value: T,
    input: &'a str,
) -> IResult<&'a str, T>
    requires { IsSymbol rule tag.now }
    ensures outcome { Answers (own rule (λ v. Mark) ⊥) input.now result }
    ensures value { IfOk result (λ x. x.1 ≡ value) }
{
    let start = skip_trivia(input);
    match start.strip_prefix(tag) {
        Some(after) => Ok((skip_trivia(after), value)),
        None => Err(mismatch(input)),
    }
}

/// Reads a keyword that no name character follows, with the trivia around it. Where it isn't next
/// that is a mismatch; there is no failure.
pub fn keyword<'a, T: Drop>(
    rule: Rule,
    tag: &'static str,
    value: T,
    input: &'a str,
) -> IResult<&'a str, T>
    requires { IsKeyword rule tag.now }
    ensures outcome { Answers (own rule (λ v. Mark) ⊥) input.now result }
    ensures value { IfOk result (λ x. x.1 ≡ value) }
{
    let start = skip_trivia(input);
    match ident_tag(tag, start) {
        Some((after, _)) => Ok((skip_trivia(after), value)),
        None => Err(mismatch(input)),
    }
}
